//! The desk as a machine, whose calls are those of the desk.
ghost use Rattle.clone_desk.specs.Steps.{DeskSteps};

use crate::desk::Desk;
use clone_outside::{Link, Net, Refusal, Side};
use clone_turn::Machine;
use std::marker::PhantomData;

/// A call of the desk.
#[derive(Drop)]
pub enum DeskCall<L> {
    /// A connection for the task is to be made.
    Pair(u8),
    /// A donor's end that waits for the task is asked for.
    DonorEnd(u8),
    /// An end comes back: its place, its side, and the end.
    GiveBack(u32, Side, L),
}

/// What the desk answers: what its method of the same name does.
#[derive(Drop)]
pub enum DeskAnswer<L> {
    Paired(Result<(u32, L), Refusal>),
    HandedOut(Option<(u32, L)>),
    Kept,
}

/// The machine of a desk. An end is given back only where it fits.
pub struct DeskMachine<N> {
    of: PhantomData<N>,
}

impl<N: Net + Send + Drop> Machine for DeskMachine<N>
where
    N::End: Send + Drop,
{
    ghost use Rattle.std.specs.Prelude.{refl};
    ghost use Rattle.clone_desk.specs.Steps.{CallFits, DeskSteps};
    ghost use Rattle.clone_desk.specs.declared.machine.DeskCall.TheVariants as call;

    type State = Desk<N>;

    type Call = DeskCall<N::End>;

    type Answer = DeskAnswer<N::End>;

    type Key = ();

    ghost steps = { DeskSteps N.Net N.End.Link };

    ghost fits = { CallFits N.End.Link };

    ghost key = { λ _. tt };

    fn step(state: &mut Desk<N>, call: DeskCall<N::End>) -> DeskAnswer<N::End> {
        match call {
            DeskCall::Pair(task) => DeskAnswer::Paired(state.pair(task)),
            DeskCall::DonorEnd(task) => DeskAnswer::HandedOut(state.donor_end(task)),
            DeskCall::GiveBack(place, side, end) => {
                state.give_back(place, side, end);
                DeskAnswer::Kept
            }
        }
    }

    ghost keeps_key = { λ s c a t follows. refl };

    ghost still_fits = { elim [
      | call.Pair task ↦ λ s c a t fits follows. tt
      | call.DonorEnd task ↦ λ s c a t fits follows. tt
      | call.GiveBack place side end ↦ λ s c a t fits follows.
          (follows.stay place _ fits.0, fits.1)
    ] };
}
