//! The recipient as a machine: tasks make their steps, and ask how the clone ended.
ghost use Rattle.clone_fetching.specs.Recipients.{RecipientSteps};

use crate::clone_ended::CloneEnded;
use crate::recipient::{Recipient, TaskStep, TaskStepped};
use clone_outside::PageDisk;
use clone_turn::Machine;
use std::alloc::AllocError;
use std::marker::PhantomData;

/// A call of the recipient.
#[derive(Drop)]
pub enum RecipientCall {
    /// A task makes a step.
    Step(TaskStep),
    /// Whether and how the clone ended is asked.
    Ended,
}

/// What the recipient answers.
#[derive(Drop)]
pub enum RecipientAnswer {
    Stepped(TaskStepped),
    Ended(Result<Option<CloneEnded>, AllocError>),
}

/// The machine of a recipient. Each call fits.
pub struct RecipientMachine<R> {
    of: PhantomData<R>,
}

impl<R: PageDisk + Send + Drop> Machine for RecipientMachine<R> {
    ghost use Rattle.std.specs.Prelude.{refl};

    type State = Recipient<R>;

    type Call = RecipientCall;

    type Answer = RecipientAnswer;

    type Key = ();

    ghost steps = { RecipientSteps R.state };

    ghost fits = { λ _ _. Unit {0} };

    ghost key = { λ _. tt };

    fn step(state: &mut Recipient<R>, call: RecipientCall) -> RecipientAnswer {
        match call {
            RecipientCall::Step(step) => RecipientAnswer::Stepped(state.step(step)),
            RecipientCall::Ended => RecipientAnswer::Ended(state.ended()),
        }
    }

    ghost keeps_key = { λ s c a t follows. refl };

    ghost still_fits = { λ d s c a t fits follows. tt };
}
