//! Each text that a run ends with that does nothing else.
ghost use Rattle.std.specs.Prelude.{◌++◌, codes};
ghost use Rattle.std.specs.Fmt.{decimal};
ghost use Rattle.clone_model.specs.Texts.{ended};
ghost use Rattle.clone_dump.specs.Shown.{damage_text};
ghost use Rattle.clone_top.specs.Ends.{end_of};
ghost use Rattle.clone_top.specs.Saying.{Says, SaysNoClone, SaysNoCommand, SaysUnread, SaysUnready};

use crate::reading::Unread;
use crate::run::Unready;
use crate::status::Status;
use clone_dump::damage_line;
use clone_outside::{Sink, write_all};
use clone_recover::{RecoverRefusal, Why};
use clone_words::WordsRefusal;
use std::alloc::Global;

/// Writes a text, and says that the run ended so, or why it was not written.
pub fn say<K: Sink>(out: &mut K, text: &str, status: Status) -> Status
    ensures { Says status result (end_of (K.taken out.old) (K.failures out.old))
        (end_of (K.taken out.new) (K.failures out.new)) text.now }
{
    match write_all(out, text.as_bytes()) {
        Ok(()) => status,
        Err(refusal) => Status::from(refusal),
    }
}

/// Says that the words are no command line.
pub fn say_usage<K: Sink>(out: &mut K) -> Status
    ensures { Says Status.Usage result (end_of (K.taken out.old) (K.failures out.old))
        (end_of (K.taken out.new) (K.failures out.new)) (ended (codes "usage")) }
{
    say(out, "usage\n", Status::Usage)
}

/// Says why the words give no command.
pub fn say_no_command<K: Sink>(out: &mut K, refusal: WordsRefusal) -> Status
    ensures { SaysNoCommand refusal result (end_of (K.taken out.old) (K.failures out.old))
        (end_of (K.taken out.new) (K.failures out.new)) }
{
    match refusal {
        WordsRefusal::Usage => say_usage(out),
        WordsRefusal::NoMemory => Status::Memory,
    }
}

/// Says that pages can't be compressed.
pub fn say_no_compression<K: Sink>(out: &mut K) -> Status
    ensures { Says Status.CompressionRefused result
        (end_of (K.taken out.old) (K.failures out.old))
        (end_of (K.taken out.new) (K.failures out.new)) (ended (codes "compression refused")) }
{
    say(out, "compression refused\n", Status::CompressionRefused)
}

/// Says why no script was read.
pub fn say_unread<K: Sink>(alloc: Global, out: &mut K, unread: Unread) -> Status
    ensures { SaysUnread unread result (end_of (K.taken out.old) (K.failures out.old))
        (end_of (K.taken out.new) (K.failures out.new)) }
{
    match unread {
        Unread::SourceFault => say(out, "source fault\n", Status::SourceFault),
        Unread::TooLong => say(out, "script too long\n", Status::TooLong),
        Unread::BadLine { line } => say_bad_line(alloc, out, line),
        Unread::Memory => Status::Memory,
    }
}

/// Says why nothing is begun over two disks.
pub fn say_unready<K: Sink>(out: &mut K, unready: Unready) -> Status
    ensures { SaysUnready unready result (end_of (K.taken out.old) (K.failures out.old))
        (end_of (K.taken out.new) (K.failures out.new)) }
{
    match unready {
        Unready::DonorFault => say(out, "donor disk fault\n", Status::DonorFault),
        Unready::RecipientFault => say(out, "recipient disk fault\n", Status::RecipientFault),
        Unready::NotEmpty => say(out, "not empty\n", Status::NotEmpty),
        Unready::Memory => Status::Memory,
    }
}

/// Says which line is the first bad one.
fn say_bad_line<K: Sink>(alloc: Global, out: &mut K, line: u64) -> Status
    ensures { Says Status.BadLine result (end_of (K.taken out.old) (K.failures out.old))
        (end_of (K.taken out.new) (K.failures out.new))
        (ended (codes "bad line " ++ decimal line)) }
{
    let Ok(text) = format!(in alloc; "bad line {line}\n") else {
        return Status::Memory;
    };
    say(out, text.as_str(), Status::BadLine)
}

/// Says why a disk isn't recovered.
pub fn say_no_clone<K: Sink>(alloc: Global, out: &mut K, refusal: RecoverRefusal) -> Status
    ensures { SaysNoClone refusal result (end_of (K.taken out.old) (K.failures out.old))
        (end_of (K.taken out.new) (K.failures out.new)) }
{
    match refusal {
        RecoverRefusal::Incomplete => say(out, "incomplete\n", Status::Incomplete),
        RecoverRefusal::Damaged { space, page, why } => say_damage(alloc, out, space, page, why),
        RecoverRefusal::DiskFault => say(out, "recipient disk fault\n", Status::RecipientFault),
        RecoverRefusal::NoMemory => Status::Memory,
    }
}

/// Says what on a disk is against the format.
fn say_damage<K: Sink>(alloc: Global, out: &mut K, space: u32, page: u32, why: Why) -> Status
    ensures { Says Status.Damaged result (end_of (K.taken out.old) (K.failures out.old))
        (end_of (K.taken out.new) (K.failures out.new)) (ended (damage_text space page why)) }
{
    let Ok(line) = damage_line(alloc, space, page, why) else {
        return Status::Memory;
    };
    say(out, line.as_str(), Status::Damaged)
}
