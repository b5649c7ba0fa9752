ghost use Rattle.std.specs.Prelude.{◌≡◌, IfOk};
ghost use Rattle.std.specs.String.{string_bytes};
ghost use Rattle.clone_answers.specs.StepTexts as texts;

use clone_model::push_value;
use clone_tasks::CloneEnd;
use std::alloc::{AllocError, Global};

/// How a clone ended.
pub fn end_text(alloc: Global, end: &CloneEnd) -> Result<String, AllocError>
    ensures { IfOk result (λ text. string_bytes text ≡ texts.end_text end.now) }
{
    match end {
        CloneEnd::Complete { position, .. } => format!(in alloc; "complete position {position}"),
        CloneEnd::Spent { losses } => format!(in alloc; "restarts spent {losses}"),
        CloneEnd::Garbled { kept } => garbled_text(alloc, kept.as_slice()),
        CloneEnd::Refused { cause } => format!(in alloc; "clone {cause}"),
        CloneEnd::DiskFault => String::from_str(alloc, "recipient disk fault"),
    }
}

// The bytes that an end couldn't read.
pub(crate) fn garbled_text(alloc: Global, kept: &[u8]) -> Result<String, AllocError>
    ensures { IfOk result (λ text. string_bytes text ≡ texts.garbled_text kept.now) }
{
    let mut text = String::from_str(alloc, "garbled ")?;
    push_value(&mut text, kept)?;
    Ok(text)
}
