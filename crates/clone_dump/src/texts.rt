ghost use Rattle.std.specs.Prelude.{◌≡◌, ◌++◌, IfOk, codes};
ghost use Rattle.std.specs.Fmt.{decimal};
ghost use Rattle.std.specs.String.{string_bytes};
ghost use Rattle.clone_model.specs.Texts.{ended};
ghost use Rattle.clone_plain.specs.Answers.{rows_answer};
ghost use Rattle.clone_dump.specs.Shown.{damage_text, recovered_text, why_text};

use clone_model::{Value, rows_text};
use clone_recover::{Recovered, Why};
use std::alloc::{AllocError, Global};
use std::fmt::Write;

/// The line of a recovered disk.
pub fn recovered_line(alloc: Global, numbers: Recovered) -> Result<String, AllocError>
    ensures { IfOk result (λ text. string_bytes text ≡ ended (recovered_text numbers)) }
{
    let Recovered { lsn, position } = numbers;
    format!(in alloc; "recovered lsn {lsn} position {position}\n")
}

/// Rows, each on a line, and then their number.
pub fn rows_lines(alloc: Global, rows: &[(u32, u64, Value)]) -> Result<String, AllocError>
    ensures { IfOk result (λ text. string_bytes text ≡ ended (rows_answer rows.now)) }
{
    let mut text = rows_shown(alloc, rows)?;
    text.push('\n')?;
    Ok(text)
}

/// The same without the last line feed.
pub fn rows_shown(alloc: Global, rows: &[(u32, u64, Value)]) -> Result<String, AllocError>
    ensures { IfOk result (λ text. string_bytes text ≡ rows_answer rows.now) }
{
    let mut text = rows_text(alloc, rows)?;
    let count = rows.len();
    write!(text, "rows {count}")?;
    Ok(text)
}

/// The line of a disk of which a page, or the redo from a page on, is against the format.
pub fn damage_line(alloc: Global, space: u32, page: u32, why: Why) -> Result<String, AllocError>
    ensures { IfOk result (λ text. string_bytes text ≡ ended (damage_text space page why)) }
{
    let mut text = damage_text(alloc, space, page, why)?;
    text.push('\n')?;
    Ok(text)
}

/// The same without its line feed.
pub fn damage_text(alloc: Global, space: u32, page: u32, why: Why) -> Result<String, AllocError>
    ensures { IfOk result (λ text. string_bytes text ≡ damage_text space page why) }
{
    damaged(alloc, space, page, why_word(why))
}

// The same by the word for it.
fn damaged(alloc: Global, space: u32, page: u32, word: &str) -> Result<String, AllocError>
    ensures { IfOk result (λ text. string_bytes text ≡ codes "damaged " ++ decimal space
        ++ codes " " ++ decimal page ++ codes " " ++ word.now) }
{
    format!(in alloc; "damaged {space} {page} {word}")
}

// What is against the format, in a word.
fn why_word(why: Why) -> &'static str
    ensures { result.now ≡ why_text why }
{
    match why {
        Why::Header => "header",
        Why::Redo => "redo",
        Why::Dictionary => "dictionary",
        Why::Undo => "undo",
        Why::Chain => "chain",
    }
}
