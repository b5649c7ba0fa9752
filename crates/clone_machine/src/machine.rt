use crate::{JobAnswer, JobCall, SharedDonor};
use clone_outside::PageDisk;
use clone_turn::Machine;
use clone_watch::Watched;
use std::marker::PhantomData;

/// The machine of a donor that jobs share. All calls may be made at all times.
pub struct DonorMachine<D> {
    of: PhantomData<D>,
}

impl<D: PageDisk + Send + Drop> Machine for DonorMachine<D> {
    ghost use Rattle.std.specs.Prelude.{refl};
    ghost use Rattle.clone_machine.specs.Sharing.{Steps};

    type State = SharedDonor<D>;

    type Call = JobCall;

    type Answer = JobAnswer;

    type Key = ();

    ghost steps = { Steps };

    ghost fits = { λ _ _. Unit {0} };

    ghost key = { λ _. tt };

    fn step(state: &mut SharedDonor<D>, call: JobCall) -> JobAnswer {
        state.carry_out(call)
    }

    ghost keeps_key = { λ s c a t follows. refl };

    ghost still_fits = { λ d s c a t fits follows. tt };
}

impl<D: PageDisk + Send + Drop> Watched for DonorMachine<D> {
    ghost use Rattle.clone_machine.specs.Watching.{is_halted, position_of, tells};
    ghost use Rattle.clone_machine.specs.declared.calls.JobCall.TheVariants as call;

    ghost asks_halted = { call.Halted };

    ghost is_halted = { is_halted };

    ghost asks_position = { call.Look };

    ghost position_of = { position_of };

    fn halted_call() -> JobCall {
        JobCall::Halted
    }

    fn halted(answer: JobAnswer) -> bool {
        matches!(answer, JobAnswer::Halted(true))
    }

    fn position_call() -> JobCall {
        JobCall::Look
    }

    fn position(answer: JobAnswer) -> Option<u64> {
        match answer {
            JobAnswer::Look(position) => Some(position),
            _ => None,
        }
    }

    ghost tells = { tells };
}
