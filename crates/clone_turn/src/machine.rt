ghost use Rattle.std.specs.Prelude.{◌≡◌};

/// A state machine: a relation between the state before, a call, its answer and the state after.
pub trait Machine {
    /// What the cell keeps. It goes from thread to thread.
    type State: Send + Drop;

    type Call;

    type Answer;

    /// What no call changes of a state.
    type Key;

    ghost steps: { Self.State → Self.Call → Self.Answer → Self.State → Type 0 };

    // Which calls may be made in a state.
    ghost fits: { Self.Call → Self.State → Type 0 };

    ghost key: { Self.State → Self.Key };

    /// Makes the call, and answers it.
    fn step(state: &mut Self::State, call: Self::Call) -> Self::Answer
        requires { fits call state.old }
        ensures { steps state.old call result state.new };

    // A step leaves the key.
    ghost keeps_key: { (s : Self.State) (c : Self.Call) (a : Self.Answer) (t : Self.State)
        → steps s c a t → ◌≡◌ (key t) (key s) };

    // A call that fits a state fits after each step.
    ghost still_fits: { (d : Self.Call) (s : Self.State) (c : Self.Call) (a : Self.Answer)
        (t : Self.State)
        → fits d s → steps s c a t → fits d t };
}
