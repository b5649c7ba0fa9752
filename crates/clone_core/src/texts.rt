ghost use Rattle.std.specs.Prelude.{◌≡◌, ◌≢◌, ◌<◌, ◌+◌, ◌-◌, ◌^◌, ◌++◌, ℕ, Some, length, IfOk, OnErr, IsErr, MatchResult, option_copied, codes};
ghost use Rattle.std.specs.Fmt.{decimal};
ghost use Rattle.std.specs.String.{string_bytes};
ghost use Rattle.clone_plain.specs.declared.refusal.Cause.TheVariants.{DiskFault};
ghost use Rattle.clone_plain.specs.declared.refusal.EngineRefusal.TheVariants.{Because};
ghost use Rattle.clone_plain.specs.declared.refusal.Undone.{Undone};
ghost use Rattle.clone_plain.specs.Donor as plain;
ghost use Rattle.clone_plain.specs.Causes.{least_unused};
ghost use Rattle.clone_plain.specs.Effects.{Undoes};
ghost use Rattle.clone_plain.specs.Answers.{undone_answer, value_answer};
ghost use Rattle.clone_events.specs.Events.{recipient_fault};
ghost use Rattle.clone_core.specs.Called.{SaysCause};

use clone_donor::Donor;
use clone_model::{Value, push_value};
use clone_outside::PageDisk;
use clone_plain::{Cause, EngineRefusal};
use std::alloc::{AllocError, Global};

/// The answer of a `begin` that isn't refused.
pub fn begun_text<D: PageDisk>(alloc: Global, donor: &Donor<D>) -> Result<String, AllocError>
    ensures { IfOk result (λ text. (trx : ℕ) → least_unused donor.now.engine.donor.active ≡ Some trx
        → string_bytes text ≡ codes "trx " ++ decimal trx) }
{
    match donor.next_number() {
        Some(trx) => format!(in alloc; "trx {trx}"),
        None => Ok(String::new(alloc)),
    }
}

/// The answer of an `undo` that isn't refused.
pub fn undone_text<D: PageDisk>(
    alloc: Global,
    donor: &Donor<D>,
    trx: u32,
) -> Result<String, AllocError>
    ensures { IfOk result (λ text. (undone : Undone) (after : plain.Donor)
        → Undoes donor.now.engine.donor trx undone after
        → string_bytes text ≡ undone_answer undone) }
{
    let count = donor.transaction(trx).map_or(0, |open| open.changes.len());
    match count.checked_sub(1) {
        Some(left) => format!(in alloc; "undone {left}"),
        None => String::from_str(alloc, "ended"),
    }
}

/// The answer of a line that commits.
pub fn committed_text<D: PageDisk>(alloc: Global, donor: &Donor<D>) -> Result<String, AllocError>
    requires { length donor.now.engine.donor.binlog < 2 ^ 64 - 1 }
    ensures { IfOk result (λ text. string_bytes text ≡ codes "committed "
        ++ decimal (length donor.now.engine.donor.binlog + 1)) }
{
    let position = donor.binlog().len() as u64 + 1;
    format!(in alloc; "committed {position}")
}

/// The answer of a line whose call answered so: this text where it was carried out, else that of
/// the refusal.
pub fn answered<T: Drop>(
    alloc: Global,
    called: Result<T, EngineRefusal>,
    text: String,
) -> Result<String, AllocError>
    ensures ok { IfOk result (λ answer. MatchResult called
        (λ _. string_bytes answer ≡ string_bytes text)
        (λ refusal. SaysCause refusal (string_bytes answer))) }
    ensures err { OnErr result (IsErr called) }
{
    match called {
        Ok(_) => Ok(text),
        Err(refusal) => refused(alloc, refusal),
    }
}

/// The text of a refusal. There is none where memory ran out.
pub fn refused(alloc: Global, refusal: EngineRefusal) -> Result<String, AllocError>
    ensures { IfOk result (λ text. SaysCause refusal (string_bytes text)) }
{
    match refusal {
        EngineRefusal::Because(cause) => format!(in alloc; "{cause}"),
        EngineRefusal::NoMemory => Err(AllocError),
    }
}

/// The text of a drop's refusal, where that of a failure of the disk was made ahead. For that one
/// there is memory.
pub fn drop_refused(
    alloc: Global,
    refusal: EngineRefusal,
    fault: String,
) -> Result<String, AllocError>
    requires fault { SaysCause (Because DiskFault) (string_bytes fault) }
    ensures ok { IfOk result (λ text. SaysCause refusal (string_bytes text)) }
    ensures err { OnErr result (refusal ≢ Because DiskFault) }
{
    if refusal == EngineRefusal::Because(Cause::DiskFault) {
        return Ok(fault);
    }
    refused(alloc, refusal)
}

/// A value, or that there is none.
pub fn value_shown(alloc: Global, value: Option<&Value>) -> Result<String, AllocError>
    ensures { IfOk result (λ text. string_bytes text ≡ value_answer (option_copied value.entry)) }
{
    let Some(value) = value else {
        return String::from_str(alloc, "none");
    };
    let mut text = String::from_str(alloc, "value ")?;
    push_value(&mut text, value.bytes())?;
    Ok(text)
}

/// The answer of a line in which the recipient's disk failed.
pub fn recipient_fault(alloc: Global) -> Result<String, AllocError>
    ensures { IfOk result (λ text. string_bytes text ≡ recipient_fault) }
{
    String::from_str(alloc, "recipient disk fault")
}
