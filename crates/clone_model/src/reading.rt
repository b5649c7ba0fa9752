ghost use Rattle.std.specs.Prelude.{ℕ, ◌≡◌, ◌≢◌, ◌+◌, ◌<◌, ◌^◌, ◌++◌, List, length, Result, MatchResult};
ghost use Rattle.std.specs.List.{AllByRecursion};
ghost use Rattle.clone_model.specs.Texts.{commit_text, changes_text, binlog_text};
ghost use Rattle.clone_model.specs.Reading.{IsChange, IsCommit, AreCommits, ReadsBinlog};
ghost use Rattle.clone_model.specs.Following.{IsRefusedBy};
ghost use Rattle.clone_model.specs.declared.change.Commit.{Commit};
ghost use Rattle.clone_model.specs.declared.reading.ReadRefusal.{ReadRefusal};
ghost use Rattle.clone_model.specs.declared.reading.ReadRefusal.TheVariants.{NoMemory};

mod line;
mod number;
mod split;
mod value;

use crate::{Binlog, Changes, Commit};
use line::{leading_change, leading_first_line};
pub use number::{as_u32, leading_number, number_of};
pub use split::split_once;
use std::alloc::{AllocError, Global};
pub use value::{script_value_of, value_of};

/// Why a text gives no binlog.
#[derive(Clone, Copy, Debug, PartialEq, Eq)]
pub enum ReadRefusal {
    /// The line of this number, counted from 1, is the first outside the grammar, or the first that
    /// is missing.
    BadLine { line: u64 },
    /// There was no memory.
    NoMemory,
}

impl From<AllocError> for ReadRefusal {
    ghost use Rattle.std.specs.Prelude.{◌≡◌};
    ghost use Rattle.clone_model.specs.declared.reading.ReadRefusal.TheVariants.{NoMemory};

    ghost from_gives = { λ _ refusal. refusal ≡ NoMemory };

    fn from(_: AllocError) -> ReadRefusal {
        ReadRefusal::NoMemory
    }
}

/// The binlog that has this text, which is that of `binlog_text`. `BadLine` has the number of the
/// first line that no binlog has behind the lines before it; each line needs its line feed. Where
/// the text ends inside a commit, it has the number of the first line that is missing.
pub fn read_binlog(alloc: Global, text: &[u8]) -> Result<Binlog, ReadRefusal>
    ensures { MatchResult result
        (λ binlog. ReadsBinlog text.now (Ok binlog.commits))
        (λ refusal. ReadsBinlog text.now (Err refusal)) }
{
    let mut binlog = Binlog::new(alloc);
    let mut rest = text;
    let mut number = 0;
    while !rest.is_empty() {
        let (commit, behind) = read_commit(alloc, rest, number)?;
        number += 1 + commit.changes.len() as u64;
        rest = behind;
        binlog.push(commit)?;
    }
    Ok(binlog)
}

/// The commit at the front of a text behind so many lines, and what stands behind it.
fn read_commit(alloc: Global, text: &[u8], before: u64) -> Result<(Commit, &[u8]), ReadRefusal>
    requires some { 0 < length text.now }
    requires few { before + length text.now < 2 ^ 64 }
    ensures { MatchResult result
        (λ read. IsCommit read.0 × (text.now ≡ commit_text read.0 ++ read.1.now))
        (λ refusal. IsRefusedBy 0 text.now before refusal) }
{
    let Some(((writer, index, count), rest)) = leading_first_line(text) else {
        return Err(ReadRefusal::BadLine { line: before + 1 });
    };
    let (changes, rest) = read_changes(alloc, rest, count, before + 1)?;
    let commit = Commit {
        writer,
        index,
        changes,
    };
    Ok((commit, rest))
}

/// So many changes at the front of a text behind so many lines, and what stands behind them.
fn read_changes(
    alloc: Global,
    text: &[u8],
    count: u64,
    before: u64,
) -> Result<(Changes, &[u8]), ReadRefusal>
    requires { before + length text.now + 1 < 2 ^ 64 }
    ensures { MatchResult result
        (λ read. AllByRecursion IsChange read.0 × (length read.0 ≡ count)
        × (text.now ≡ changes_text read.0 ++ read.1.now))
        (λ refusal. IsRefusedBy count text.now before refusal) }
{
    let mut changes = Changes::new(alloc);
    let mut rest = text;
    for number in 0..count {
        let Some((change, behind)) = leading_change(rest) else {
            return Err(ReadRefusal::BadLine {
                line: before + number + 1,
            });
        };
        changes.push(change)?;
        rest = behind;
    }
    Ok((changes, rest))
}

/// Two binlogs with one text are one.
pub fn one_binlog()
    ensures { (a b : List Commit) → AreCommits a → AreCommits b → binlog_text a ≡ binlog_text b
        → a ≡ b }
{}

/// A text has one answer, unless memory runs out.
pub fn one_answer()
    ensures { (text : List ℕ) (a b : Result (List Commit) ReadRefusal) → ReadsBinlog text a
        → ReadsBinlog text b → a ≢ Err NoMemory → b ≢ Err NoMemory → a ≡ b }
{}

/// A binlog is read back from its text, unless memory runs out.
pub fn binlog_reads_back()
    ensures { (commits : List Commit) (answer : Result (List Commit) ReadRefusal)
        → AreCommits commits → ReadsBinlog (binlog_text commits) answer → answer ≢ Err NoMemory
        → answer ≡ Ok commits }
{}
