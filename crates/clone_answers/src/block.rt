ghost use Rattle.std.specs.Prelude.{◌≡◌, IfOk};
ghost use Rattle.std.specs.String.{string_bytes};
ghost use Rattle.clone_answers.specs.StepTexts as texts;

use std::alloc::{AllocError, Global};

// What was done with a block, and the block by its chunk and its number there.
pub(crate) fn block_text(
    alloc: Global,
    word: &str,
    chunk: u32,
    block: u8,
) -> Result<String, AllocError>
    ensures { IfOk result (λ text. string_bytes text ≡ texts.block_text word.now chunk block) }
{
    format!(in alloc; "{word} {chunk} {block}")
}
