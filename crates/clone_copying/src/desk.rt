//! The connections of a task, by a seat at the desk.
ghost use Rattle.std.specs.Prelude.{◌≡◌, IfOk};
ghost use Rattle.clone_outside.specs.declared.link.Side.TheVariants.{Requester};
ghost use Rattle.clone_desk.specs.Records.{IsNew};
ghost use Rattle.clone_desk.specs.Steps.{CallFits};
ghost use Rattle.clone_desk.specs.declared.machine.DeskAnswer.TheVariants as answer;
ghost use Rattle.clone_desk.specs.declared.machine.DeskCall.TheVariants as call;
ghost use Rattle.clone_turn.specs.Worked.{Worked};
ghost use Rattle.clone_copying.specs.Calling.{FitsNow, IsOne};
ghost use Rattle.clone_copying.specs.Connecting.{IsWelcome};

use crate::caller::Caller;
use clone_desk::{DeskAnswer, DeskCall, DeskMachine, fit_laws};
use clone_outside::{Link, Net, Refusal, Side};
use std::sync::Wait;

impl<N: Net + Send + Drop, H: Wait> Caller<DeskMachine<N>, H>
where
    N::End: Send + Drop,
{
    /// Makes a connection for the task, and answers its place with the requester's end, which is
    /// open and over which nothing passed. It may be given back as long as the seat makes no call.
    pub(crate) fn connect(&mut self, task: u8) -> Result<(u32, N::End), Refusal>
        ensures pairs { Worked (IsOne (call.Pair task) (answer.Paired result)) self.old self.new }
        ensures new { IfOk result (λ r. IsNew N.End.Link (N.End.name r.1) Requester r.1) }
        ensures welcome { IfOk result (λ r. IsWelcome N.End.Link self.new r.0 r.1) }
    {
        fit_laws::<N>();
        match self.call(DeskCall::Pair(task)) {
            DeskAnswer::Paired(result) => result,
            DeskAnswer::HandedOut(_) | DeskAnswer::Kept => unreachable!(),
        }
    }

    /// Gives the end of the connection at the place back.
    pub(crate) fn give_back(&mut self, place: u32, end: N::End)
        requires fits { FitsNow (CallFits N.End.Link) (call.GiveBack place Requester end) self.old }
        ensures { Worked (IsOne (call.GiveBack place Requester end) answer.Kept)
            self.old self.new }
    {
        match self.call(DeskCall::GiveBack(place, Side::Requester, end)) {
            DeskAnswer::Kept => {}
            DeskAnswer::Paired(_) | DeskAnswer::HandedOut(_) => unreachable!(),
        }
    }
}
