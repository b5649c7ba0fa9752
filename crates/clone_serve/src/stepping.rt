ghost use Rattle.clone_serve.specs.Stepping.{Steps};

use crate::{ServeAnswer, ServeCore, ServeTurn};
use clone_calls::Answers;
use std::alloc::Global;

/// How many calls a step asks for at most: a claim, the kept blocks of its chunk, a block, and
/// where its redo isn't archived yet that, and the block again.
pub const MOST_ASKS: usize = 5;

impl ServeCore {
    /// A whole step: each call that it asks for is answered.
    pub fn step<A: Answers>(
        &mut self,
        alloc: Global,
        donor: &mut A,
        received: &mut Vec<u8>,
        sent: &mut Vec<u8>,
    ) -> ServeAnswer
        ensures { Steps A.gives donor.old donor.new self.old received.old.items received.new.items
            sent.old.items sent.new.items self.new result }
    {
        let mut turn = self.begin_step(alloc, received);
        loop {
            match turn {
                ServeTurn::Done(says) => return says,
                ServeTurn::Ask(call) => {
                    let answer = donor.answer(alloc, call);
                    turn = self.go_on(alloc, answer, sent);
                }
            }
        }
    }
}
