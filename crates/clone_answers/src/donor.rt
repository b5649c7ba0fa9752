ghost use Rattle.std.specs.Prelude.{◌≡◌, IfOk, IsErr};
ghost use Rattle.std.specs.String.{string_bytes};
ghost use Rattle.clone_serve.specs.declared.turn.ServeAnswer.TheVariants.{NoMemory};
ghost use Rattle.clone_network.specs.declared.donor_step.DonorStep.TheVariants.{Served};
ghost use Rattle.clone_answers.specs.StepTexts as texts;

use crate::block::block_text;
use crate::end::garbled_text;
use clone_network::DonorStep;
use clone_serve::ServeAnswer;
use std::alloc::{AllocError, Global};

/// What came of a step of the donor. A step without memory has no text.
pub fn step_text(alloc: Global, step: &DonorStep) -> Result<String, AllocError>
    ensures says { IfOk result (λ text. string_bytes text ≡ texts.step_text step.now) }
    ensures memory { step.now ≡ Served NoMemory → IsErr result }
{
    match step {
        DonorStep::Lost => String::from_str(alloc, "lost"),
        DonorStep::Served(says) => served_text(alloc, says),
    }
}

fn served_text(alloc: Global, says: &ServeAnswer) -> Result<String, AllocError>
    ensures says { IfOk result (λ text. string_bytes text ≡ texts.served_text says.now) }
    ensures memory { says.now ≡ NoMemory → IsErr result }
{
    match says {
        ServeAnswer::Idle => String::from_str(alloc, "idle"),
        ServeAnswer::SentPages { chunk, block } => block_text(alloc, "sent PAGES", *chunk, *block),
        ServeAnswer::SentRedo { chunk, block } => block_text(alloc, "sent REDO", *chunk, *block),
        ServeAnswer::SentEnd => String::from_str(alloc, "sent END"),
        ServeAnswer::Answered {
            stage,
            lsn,
            position,
        } => stage_text(alloc, *stage, *lsn, *position),
        ServeAnswer::Execute => String::from_str(alloc, "execute"),
        ServeAnswer::Exit => String::from_str(alloc, "exit"),
        ServeAnswer::Refused(cause) => format!(in alloc; "{cause}"),
        ServeAnswer::DiskFault => String::from_str(alloc, "refused E17"),
        ServeAnswer::Garbled { kept } => garbled_text(alloc, kept.as_slice()),
        ServeAnswer::NoMemory => Err(AllocError),
    }
}

// A stage that was answered. The clone has its LSN and position from the copy of redo on.
fn stage_text(alloc: Global, stage: u8, lsn: u64, position: u64) -> Result<String, AllocError>
    ensures { IfOk result (λ text. string_bytes text ≡ texts.stage_text stage lsn position) }
{
    if stage < 3 {
        format!(in alloc; "answered STAGE {stage}")
    } else {
        stage_at_text(alloc, stage, lsn, position)
    }
}

fn stage_at_text(alloc: Global, stage: u8, lsn: u64, position: u64) -> Result<String, AllocError>
    ensures { IfOk result (λ text. string_bytes text ≡ texts.stage_at_text stage lsn position) }
{
    format!(in alloc; "answered STAGE {stage} lsn {lsn} position {position}")
}
