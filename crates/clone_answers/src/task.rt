ghost use Rattle.std.specs.Prelude.{◌≡◌, IfOk, IsErr};
ghost use Rattle.std.specs.String.{string_bytes};
ghost use Rattle.clone_fetch.specs.declared.answer.TaskAnswer.TheVariants.{NoMemory};
ghost use Rattle.clone_answers.specs.StepTexts as texts;

use crate::block::block_text;
use crate::end::end_text;
use clone_fetch::TaskAnswer;
use clone_recipient::Took;
use std::alloc::{AllocError, Global};

/// What came of a step of a task. A step without memory has no text.
pub fn task_text(alloc: Global, answer: &TaskAnswer) -> Result<String, AllocError>
    ensures says { IfOk result (λ text. string_bytes text ≡ texts.task_text answer.now) }
    ensures memory { answer.now ≡ NoMemory → IsErr result }
{
    match answer {
        TaskAnswer::Idle | TaskAnswer::Stale => String::from_str(alloc, "idle"),
        TaskAnswer::Sent { code } => String::from_str(alloc, sent_word(*code)),
        TaskAnswer::Took(took) => took_text(alloc, *took),
        TaskAnswer::Lost { losses } => format!(in alloc; "lost {losses}"),
        TaskAnswer::Ended(end) => end_text(alloc, end),
        TaskAnswer::NoMemory => Err(AllocError),
    }
}

fn sent_word(code: u8) -> &'static str
    ensures { result.now ≡ texts.sent_text code }
{
    match code {
        1 => "sent INIT",
        2 => "sent ATTACH",
        3 | 7 => "sent REINIT",
        4 => "sent EXECUTE",
        5 => "sent ACK",
        _ => "sent EXIT",
    }
}

fn took_text(alloc: Global, took: Took) -> Result<String, AllocError>
    ensures { IfOk result (λ text. string_bytes text ≡ texts.took_text took) }
{
    match took.code {
        17 => block_text(alloc, "took PAGES", took.chunk, took.block),
        18 => block_text(alloc, "took REDO", took.chunk, took.block),
        19 => String::from_str(alloc, "took END"),
        _ => String::from_str(alloc, "took STAGE"),
    }
}
