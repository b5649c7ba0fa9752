//! A donor as a task of a clone watches it: how many commits it has, and whether the run of which it
//! is a part was halted. Nothing else is asked by a watch.
#![tactic(auto)]

use clone_turn::Machine;

/// A machine that tells a position, and whether the run was halted.
pub trait Watched: Machine {
    ghost use Rattle.std.specs.Prelude.{◌≡◌, Bool, ℕ, IsSome};
    ghost use Rattle.std.specs.declared.option.Option.{Option};

    // The call that asks whether the run was halted, and what an answer to it says.
    ghost asks_halted: { Self.Call };

    ghost is_halted: { Self.Answer → Bool };

    // The call that asks for the position, and what an answer to it says.
    ghost asks_position: { Self.Call };

    ghost position_of: { Self.Answer → Option ℕ };

    /// The call that asks whether the run was halted.
    fn halted_call() -> Self::Call
        ensures call { result ≡ asks_halted }
        ensures fits { (s : Self.State) → Self.fits result s };

    /// Whether the run was halted, by the answer to it.
    fn halted(answer: Self::Answer) -> bool
        ensures { result ≡ is_halted answer };

    /// The call that asks for the position.
    fn position_call() -> Self::Call
        ensures call { result ≡ asks_position }
        ensures fits { (s : Self.State) → Self.fits result s };

    /// The position, by the answer to it.
    fn position(answer: Self::Answer) -> Option<u64>
        ensures { result ≡ position_of answer };

    // It is answered by a position.
    ghost tells: { (s : Self.State) (a : Self.Answer) (t : Self.State)
        → Self.steps s asks_position a t → IsSome (position_of a) };
}
