//! What is said of a clone under load: why it failed, or, once it is recovered, its summary and its
//! report, and then the binlog.
ghost use Rattle.std.specs.Prelude.{◌≡◌, ◌⊎◌, ◌++◌, ℕ, None, IfErr, IfOk, IsErrOf, IsSome, OnErr, OnOk};
ghost use Rattle.std.specs.String.{string_bytes};
ghost use Rattle.clone_outside.specs.Bytes.{appended};
ghost use Rattle.clone_outside.specs.Causes.{Rose};
ghost use Rattle.clone_outside.specs.Disk.{ForTold};
ghost use Rattle.clone_outside.specs.DiskCalls.{Alters};
ghost use Rattle.clone_model.specs.Texts as texts;
ghost use Rattle.clone_recover.specs.Restores.{IsCause};
ghost use Rattle.clone_recover.specs.declared.refusal.RecoverRefusal.TheVariants.{Damaged};
ghost use Rattle.clone_recover.specs.declared.refusal.Why.{Why};
ghost use Rattle.clone_answers.specs.StepTexts as steps;
ghost use Rattle.clone_words.specs.Commands.{IsInRange};
ghost use Rattle.clone_top.specs.Ends.{End, end_of, streams};
ghost use Rattle.clone_top.specs.Saying.{Says};
ghost use Rattle.clone_top.specs.UnderLoad.{Concludes, Reports, SaysComplete, SaysFailure, WritesBoth, WritesFront};

use crate::run::Unready;
use crate::saying::{say, say_no_clone, say_unready};
use crate::status::Status;
use clone_answers::end_text;
use clone_dump::recovered_rows;
use clone_model::{Binlog, binlog_text, push_value};
use clone_outside::{PageDisk, Refusal, Sink, write_all};
use clone_recover::{RecoverRefusal, recover};
use clone_run::{Cloned, Failure, Outcome};
use clone_summary::{report, summary};
use clone_tasks::CloneEnd;
use clone_words::Run;
use std::alloc::{AllocError, Global};

/// Says why the clone failed; or recovers it, and says what it and the donor have.
pub fn conclude<K: Sink, B: Sink, R: PageDisk>(
    alloc: Global,
    run: Run<'_>,
    out: &mut K,
    binlog: &mut B,
    outcome: Outcome,
    commits: &Binlog,
    recipient: &mut R,
) -> Status
    requires in_range { IsInRange run }
    requires cloned { outcome.failure ≡ None → IsSome outcome.cloned }
    ensures { (source : End) → Concludes run.entry outcome commits.now.commits result
        (streams source (end_of (K.taken out.old) (K.failures out.old))
        (end_of (B.taken binlog.old) (B.failures binlog.old)))
        (streams source (end_of (K.taken out.new) (K.failures out.new))
        (end_of (B.taken binlog.new) (B.failures binlog.new)))
        (R.state recipient.old) (R.state recipient.new) }
{
    let Outcome {
        cloned,
        failure,
        whole: _,
    } = outcome;
    let cloned = match (failure, cloned) {
        (Some(failure), _) => return say_failure(alloc, out, failure),
        (None, Some(cloned)) => cloned,
        (None, None) => unreachable!(),
    };
    match output(alloc, run, commits, cloned, recipient) {
        Ok(text) => write_texts(alloc, out, binlog, text.as_str(), commits),
        Err(refusal) => say_no_clone(alloc, out, refusal),
    }
}

/// Says why a clone under load failed.
fn say_failure<K: Sink>(alloc: Global, out: &mut K, failure: Failure) -> Status
    ensures { SaysFailure failure result (end_of (K.taken out.old) (K.failures out.old))
        (end_of (K.taken out.new) (K.failures out.new)) }
{
    match failure {
        Failure::Memory | Failure::Halted => Status::Memory,
        Failure::Thread | Failure::Connection => say(out, "crew fault\n", Status::CrewFault),
        Failure::DonorDisk => say_unready(out, Unready::DonorFault),
        Failure::RecipientDisk => say_unready(out, Unready::RecipientFault),
        Failure::NotEmpty => say_unready(out, Unready::NotEmpty),
        Failure::Garbled { kept } => say_garbled(alloc, out, &kept),
        Failure::Refused { cause } => {
            say_end(alloc, out, &CloneEnd::Refused { cause }, Status::Refused)
        }
        Failure::Spent { losses } => {
            say_end(
                alloc,
                out,
                &CloneEnd::Spent { losses },
                Status::RestartsSpent,
            )
        }
    }
}

/// Says how a clone ended.
fn say_end<K: Sink>(alloc: Global, out: &mut K, end: &CloneEnd, status: Status) -> Status
    ensures { Says status result (end_of (K.taken out.old) (K.failures out.old))
        (end_of (K.taken out.new) (K.failures out.new)) (texts.ended (steps.end_text end.now)) }
{
    match end_text(alloc, end) {
        Ok(text) => say_line(out, text, status),
        Err(_) => Status::Memory,
    }
}

/// Says which bytes the recipient couldn't read.
fn say_garbled<K: Sink>(alloc: Global, out: &mut K, kept: &[u8]) -> Status
    ensures { Says Status.Garbled result (end_of (K.taken out.old) (K.failures out.old))
        (end_of (K.taken out.new) (K.failures out.new))
        (texts.ended (steps.garbled_text kept.now)) }
{
    match garbled_text(alloc, kept) {
        Ok(text) => say_line(out, text, Status::Garbled),
        Err(_) => Status::Memory,
    }
}

fn garbled_text(alloc: Global, kept: &[u8]) -> Result<String, AllocError>
    ensures { IfOk result (λ text. string_bytes text ≡ steps.garbled_text kept.now) }
{
    let mut text = String::from_str(alloc, "garbled ")?;
    push_value(&mut text, kept)?;
    Ok(text)
}

/// Says a text as a line.
fn say_line<K: Sink>(out: &mut K, text: String, status: Status) -> Status
    ensures { Says status result (end_of (K.taken out.old) (K.failures out.old))
        (end_of (K.taken out.new) (K.failures out.new)) (texts.ended (string_bytes text)) }
{
    let mut text = text;
    match text.push('\n') {
        Ok(()) => say(out, text.as_str(), status),
        Err(_) => Status::Memory,
    }
}

/// Recovers a clone, and gives the summary of its run and, where it is asked for, the report. Where
/// the disk isn't complete, or damaged, nothing of it has changed.
fn output<R: PageDisk>(
    alloc: Global,
    run: Run<'_>,
    commits: &Binlog,
    cloned: Cloned,
    disk: &mut R,
) -> Result<String, RecoverRefusal>
    requires in_range { IsInRange run }
    ensures says { IfOk result (λ text. SaysComplete run.entry cloned commits.now.commits
        (R.state disk.old).told (R.state disk.new).told (string_bytes text)) }
    ensures cause { IfErr result
        (λ refusal. ForTold (R.state disk.old).told (λ m. IsCause m refusal)) }
    ensures works { Alters (IsErrOf result RecoverRefusal.DiskFault)
        (R.state disk.old) (R.state disk.new) }
    ensures incomplete { IsErrOf result RecoverRefusal.Incomplete
        → (R.state disk.new).told ≡ (R.state disk.old).told }
    ensures damaged { (space page : ℕ) (why : Why) → IsErrOf result (Damaged space page why)
        → (R.state disk.new).told ≡ (R.state disk.old).told }
{
    let reported = recovered(alloc, run.report, cloned, disk)?;
    let Cloned {
        lsn: _,
        position,
        floor,
    } = cloned;
    let writers = run.writers as u32;
    let mut text = summary(
        alloc,
        run.seed,
        writers,
        run.transactions,
        commits,
        position,
        floor,
    )?;
    text.push_str(reported.as_str())?;
    Ok(text)
}

/// Recovers a clone, and gives the report on it, or no text where none is asked for. Where the disk
/// isn't complete, or damaged, nothing of it has changed.
fn recovered<R: PageDisk>(
    alloc: Global,
    with_report: bool,
    cloned: Cloned,
    disk: &mut R,
) -> Result<String, RecoverRefusal>
    ensures says { IfOk result (λ text. Reports with_report cloned
        (R.state disk.old).told (R.state disk.new).told (string_bytes text)) }
    ensures cause { IfErr result
        (λ refusal. ForTold (R.state disk.old).told (λ m. IsCause m refusal)) }
    ensures works { Alters (IsErrOf result RecoverRefusal.DiskFault)
        (R.state disk.old) (R.state disk.new) }
    ensures incomplete { IsErrOf result RecoverRefusal.Incomplete
        → (R.state disk.new).told ≡ (R.state disk.old).told }
    ensures damaged { (space page : ℕ) (why : Why) → IsErrOf result (Damaged space page why)
        → (R.state disk.new).told ≡ (R.state disk.old).told }
{
    if !with_report {
        recover(alloc, disk)?;
        return Ok(String::new(alloc));
    }
    let rows = recovered_rows(alloc, disk)?;
    let Cloned {
        lsn,
        position,
        floor,
    } = cloned;
    Ok(report(alloc, lsn, position, floor, &rows)?)
}

/// Writes a text, and then the binlog, and says how that ended.
fn write_texts<K: Sink, B: Sink>(
    alloc: Global,
    out: &mut K,
    binlog: &mut B,
    text: &str,
    commits: &Binlog,
) -> Status
    ensures { (source : End) → WritesBoth result
        (streams source (end_of (K.taken out.old) (K.failures out.old))
        (end_of (B.taken binlog.old) (B.failures binlog.old)))
        (streams source (end_of (K.taken out.new) (K.failures out.new))
        (end_of (B.taken binlog.new) (B.failures binlog.new)))
        text.now (texts.binlog_text commits.now.commits) }
{
    match try_write(alloc, out, binlog, text, commits) {
        Ok(()) => Status::Done,
        Err(refusal) => Status::from(refusal),
    }
}

fn try_write<K: Sink, B: Sink>(
    alloc: Global,
    out: &mut K,
    binlog: &mut B,
    text: &str,
    commits: &Binlog,
) -> Result<(), Refusal>
    ensures out { OnOk result (K.taken out.new ≡ appended (K.taken out.old) text.now) }
    ensures binlog { OnOk result (B.taken binlog.new
        ≡ appended (B.taken binlog.old) (texts.binlog_text commits.now.commits)) }
    ensures front { OnErr result (WritesFront text.now (texts.binlog_text commits.now.commits)
        (K.taken out.old) (K.taken out.new) (B.taken binlog.old) (B.taken binlog.new)) }
    ensures fault { IsErrOf result Refusal.Fault → Rose (K.failures out.old) (K.failures out.new)
        ⊎ Rose (B.failures binlog.old) (B.failures binlog.new) }
{
    write_all(out, text.as_bytes())?;
    let log = binlog_text(alloc, commits)?;
    write_all(binlog, log.as_bytes())
}
