//! What a task looks up at the donor: its position, while the run isn't halted.
ghost use Rattle.std.specs.Prelude.{◌≡◌, IfSome, None, true};
ghost use Rattle.clone_turn.specs.Worked.{Worked};
ghost use Rattle.clone_copying.specs.Watching.{AreLooks, HasLooked, WasHalted};

use crate::caller::Caller;
use clone_watch::Watched;
use std::sync::Wait;

impl<M: Watched, H: Wait> Caller<M, H> {
    /// The position, or none where the run was halted.
    pub(crate) fn look(&mut self) -> Option<u64>
        ensures looks { Worked (AreLooks M.asks_halted M.asks_position) self.old self.new }
        ensures some { IfSome result (HasLooked M.asks_position M.position_of self.new) }
        ensures none { result ≡ None → WasHalted M.asks_halted M.is_halted self.new }
    {
        if self.is_halted() {
            return None;
        }
        let answer = self.call(M::position_call());
        let Some(position) = M::position(answer) else {
            unreachable!()
        };
        Some(position)
    }

    // Whether the run was halted.
    fn is_halted(&mut self) -> bool
        ensures looks { Worked (AreLooks M.asks_halted M.asks_position) self.old self.new }
        ensures halted { result ≡ true → WasHalted M.asks_halted M.is_halted self.new }
    {
        let answer = self.call(M::halted_call());
        M::halted(answer)
    }
}
