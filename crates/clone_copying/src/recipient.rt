//! The calls of a task at the recipient.
ghost use Rattle.clone_turn.specs.Worked.{Worked};
ghost use Rattle.clone_fetching.specs.declared.machine.RecipientAnswer.TheVariants as answer;
ghost use Rattle.clone_fetching.specs.declared.machine.RecipientCall.TheVariants as call;
ghost use Rattle.clone_copying.specs.Calling.{IsOne};
ghost use Rattle.clone_copying.specs.Calls.{IsStep};

use crate::caller::Caller;
use clone_fetching::{
    CloneEnded, RecipientAnswer, RecipientCall, RecipientMachine, TaskStep, TaskStepped,
};
use clone_outside::PageDisk;
use std::alloc::AllocError;
use std::sync::Wait;

impl<R: PageDisk + Send + Drop, H: Wait> Caller<RecipientMachine<R>, H> {
    /// Makes a step of a task.
    pub(crate) fn step(&mut self, step: TaskStep) -> TaskStepped
        ensures { Worked (IsStep step result) self.old self.new }
    {
        match self.call(RecipientCall::Step(step)) {
            RecipientAnswer::Stepped(stepped) => stepped,
            RecipientAnswer::Ended(_) => unreachable!(),
        }
    }

    /// How the clone ended, or none while it goes on. The error is out of memory.
    pub(crate) fn ended(&mut self) -> Result<Option<CloneEnded>, AllocError>
        ensures { Worked (IsOne call.Ended (answer.Ended result)) self.old self.new }
    {
        match self.call(RecipientCall::Ended) {
            RecipientAnswer::Ended(how) => how,
            RecipientAnswer::Stepped(_) => unreachable!(),
        }
    }
}
