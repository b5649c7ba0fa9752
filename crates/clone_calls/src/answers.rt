ghost use Rattle.clone_calls.specs.Answering.{IsAnswerTo};

use crate::{DonorAnswer, DonorCall};
use std::alloc::Global;

/// What answers the calls of a donor: a donor, or a seat at one.
pub trait Answers {
    ghost use Rattle.clone_calls.specs.declared.call.DonorCall.{DonorCall};
    ghost use Rattle.clone_calls.specs.declared.answer.DonorAnswer.{DonorAnswer};

    /// From this state the call may be answered so, and that is the state then.
    ghost gives: { Self → DonorCall → DonorAnswer → Self → Type 0 };

    /// Answers a call.
    fn answer(&mut self, alloc: Global, call: DonorCall) -> DonorAnswer
        ensures gives { gives self.old call result self.new }
        ensures fits { IsAnswerTo call result };
}
