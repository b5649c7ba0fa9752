//! What is watched: a position that rises at each look, and a run that is halted once it has risen
//! so far.
use clone_turn::Machine;
use clone_watch::Watched;

#[derive(Clone, Copy, Drop)]
pub(crate) struct Clock {
    pub(crate) position: u64,
    pub(crate) last: u64,
}

#[derive(Drop)]
pub(crate) enum ClockCall {
    IsHalted,
    Look,
}

#[derive(Drop)]
pub(crate) enum ClockAnswer {
    Halted(bool),
    Position(u64),
}

pub(crate) struct ClockMachine;

impl Machine for ClockMachine {
    ghost use Rattle.std.specs.Prelude.{refl};
    ghost use Rattle.clone_tests_copying.specs.Clocks.{ClockSteps};

    type State = Clock;

    type Call = ClockCall;

    type Answer = ClockAnswer;

    type Key = ();

    ghost steps = { ClockSteps };

    ghost fits = { λ _ _. Unit {0} };

    ghost key = { λ _. tt };

    fn step(state: &mut Clock, call: ClockCall) -> ClockAnswer {
        match call {
            ClockCall::IsHalted => ClockAnswer::Halted(state.position >= state.last),
            ClockCall::Look => {
                state.position = state.position.saturating_add(1);
                ClockAnswer::Position(state.position)
            }
        }
    }

    ghost keeps_key = { λ s c a t follows. refl };

    ghost still_fits = { λ d s c a t fits follows. tt };
}

impl Watched for ClockMachine {
    ghost use Rattle.clone_tests_copying.specs.Clocks.{is_halted, position_of, tells};
    ghost use Rattle.clone_tests_copying.specs.declared.clock.ClockCall.TheVariants as call;

    ghost asks_halted = { call.IsHalted };

    ghost is_halted = { is_halted };

    ghost asks_position = { call.Look };

    ghost position_of = { position_of };

    fn halted_call() -> ClockCall {
        ClockCall::IsHalted
    }

    fn halted(answer: ClockAnswer) -> bool {
        matches!(answer, ClockAnswer::Halted(true))
    }

    fn position_call() -> ClockCall {
        ClockCall::Look
    }

    fn position(answer: ClockAnswer) -> Option<u64> {
        match answer {
            ClockAnswer::Position(position) => Some(position),
            ClockAnswer::Halted(_) => None,
        }
    }

    ghost tells = { tells };
}
