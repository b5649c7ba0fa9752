//! The calls of a server at the desk.
ghost use Rattle.std.specs.Prelude.{◌≡◌, IfSome};
ghost use Rattle.clone_outside.specs.declared.link.Side.TheVariants.{Donor};
ghost use Rattle.clone_desk.specs.Records.{IsNew};
ghost use Rattle.clone_desk.specs.Steps.{CallFits};
ghost use Rattle.clone_desk.specs.declared.machine.DeskAnswer.TheVariants as answer;
ghost use Rattle.clone_desk.specs.declared.machine.DeskCall.TheVariants as call;
ghost use Rattle.clone_turn.specs.Worked.{Worked};
ghost use Rattle.clone_copying.specs.Calling.{FitsNow, IsOne};
ghost use Rattle.clone_task_jobs.specs.Serving.{IsAwaited};

use clone_copying::Caller;
use clone_desk::{DeskAnswer, DeskCall, DeskMachine, fit_laws};
use clone_outside::{Link, Net, Side};
use std::sync::Wait;

/// The donor's end that waits for the task at the least place, with the place, if one waits. It is
/// open, nothing passed over it, and it may be given back as long as the seat makes no call.
pub(crate) fn take_end<N: Net + Send + Drop, H: Wait>(
    desk: &mut Caller<DeskMachine<N>, H>,
    task: u8,
) -> Option<(u32, N::End)>
where
    N::End: Send + Drop,
    ensures asks { Worked (IsOne (call.DonorEnd task) (answer.HandedOut result)) desk.old desk.new }
    ensures new { IfSome result (λ r. IsNew N.End.Link (N.End.name r.1) Donor r.1) }
    ensures awaited { IfSome result (λ r. IsAwaited N.End.Link desk.new r.0 r.1) }
{
    fit_laws::<N>();
    match desk.call(DeskCall::DonorEnd(task)) {
        DeskAnswer::HandedOut(result) => result,
        DeskAnswer::Paired(_) | DeskAnswer::Kept => unreachable!(),
    }
}

/// Gives the donor's end of the connection at the place back.
pub(crate) fn give_back<N: Net + Send + Drop, H: Wait>(
    desk: &mut Caller<DeskMachine<N>, H>,
    place: u32,
    end: N::End,
)
where
    N::End: Send + Drop,
    requires { FitsNow (CallFits N.End.Link) (call.GiveBack place Donor end) desk.old }
    ensures { Worked (IsOne (call.GiveBack place Donor end) answer.Kept) desk.old desk.new }
{
    match desk.call(DeskCall::GiveBack(place, Side::Donor, end)) {
        DeskAnswer::Kept => {}
        DeskAnswer::Paired(_) | DeskAnswer::HandedOut(_) => unreachable!(),
    }
}
