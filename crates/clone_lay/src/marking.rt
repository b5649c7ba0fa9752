ghost use Rattle.std.specs.Prelude.{OnOk, OnErr};
ghost use Rattle.clone_outside.specs.Disk.{Steps, IsBeforeOrAfter};
ghost use Rattle.clone_outside.specs.DiskCalls.{Works};
ghost use Rattle.clone_outside.specs.Mark.{mark_bytes};
ghost use Rattle.clone_outside.specs.Scopes.{OnlyMark};
ghost use Rattle.clone_outside.specs.Stops.{Keeps, Stays};
ghost use Rattle.clone_lay.specs.Copying.{IsCompleting, StaysInCopy};
ghost use Rattle.clone_lay.specs.Marked.{marked};

use clone_outside::{CloneEnd, Mark, PageDisk, Refusal};

/// Begins the copy of a session: its in-progress mark is written, and then all stays where it is. A
/// stop leaves the spaces as they were, and of the mark's bytes each as it was or as it is written.
pub fn begin_copy<R: PageDisk>(disk: &mut R, session: u64) -> Result<(), Refusal>
    ensures ok { OnOk result (Steps (R.state disk.old).told (R.state disk.new).told
        (marked (Mark.InProgress session))) }
    ensures partial { OnErr result (IsBeforeOrAfter (R.state disk.old).told (R.state disk.new).told
        (marked (Mark.InProgress session))) }
    ensures works { Works (R.state disk.old) (R.state disk.new) result }
    ensures stays { OnOk result (Stays (R.state disk.new).told (R.state disk.new).stops) }
    ensures stops { Keeps (OnlyMark (mark_bytes (Mark.InProgress session)))
        (R.state disk.old).stops (R.state disk.new).stops }
{
    write_mark(disk, &Mark::InProgress { session })
}

/// Ends a copy: all that was laid is where it stays before the numbers of its end are written in
/// the in-progress mark, and these are before the complete mark is written, which differs from it
/// in the kind alone. A stop leaves the spaces of something that a stop at the start might have
/// left, below an in-progress mark or the complete one.
pub fn complete<R: PageDisk>(disk: &mut R, end: &CloneEnd) -> Result<(), Refusal>
    ensures ok { OnOk result (Steps (R.state disk.old).told (R.state disk.new).told
        (marked (Mark.Complete end.now))) }
    ensures partial { OnErr result
        (IsCompleting end.now (R.state disk.old).told (R.state disk.new).told) }
    ensures works { Works (R.state disk.old) (R.state disk.new) result }
    ensures stays { OnOk result (Stays (R.state disk.new).told (R.state disk.new).stops) }
    ensures stops { Keeps (StaysInCopy end.now)
        (R.state disk.old).stops (R.state disk.new).stops }
{
    write_numbers(disk, end)?;
    write_mark(disk, &Mark::Complete(*end))
}

// Brings all to where it stays, and then the in-progress mark with the numbers of the end.
fn write_numbers<R: PageDisk>(disk: &mut R, end: &CloneEnd) -> Result<(), Refusal>
    ensures ok { OnOk result (Steps (R.state disk.old).told (R.state disk.new).told
        (marked (Mark.Ending end.now))) }
    ensures partial { OnErr result (IsBeforeOrAfter (R.state disk.old).told (R.state disk.new).told
        (marked (Mark.Ending end.now))) }
    ensures works { Works (R.state disk.old) (R.state disk.new) result }
    ensures stays { OnOk result (Stays (R.state disk.new).told (R.state disk.new).stops) }
    ensures stops { Keeps (StaysInCopy end.now)
        (R.state disk.old).stops (R.state disk.new).stops }
{
    disk.sync()?;
    write_mark(disk, &Mark::Ending(*end))
}

// Writes a mark, and brings it to where it stays.
fn write_mark<R: PageDisk>(disk: &mut R, mark: &Mark) -> Result<(), Refusal>
    ensures ok { OnOk result
        (Steps (R.state disk.old).told (R.state disk.new).told (marked mark.now)) }
    ensures partial { OnErr result
        (IsBeforeOrAfter (R.state disk.old).told (R.state disk.new).told (marked mark.now)) }
    ensures works { Works (R.state disk.old) (R.state disk.new) result }
    ensures stays { OnOk result (Stays (R.state disk.new).told (R.state disk.new).stops) }
    ensures stops { Keeps (OnlyMark (mark_bytes mark.now))
        (R.state disk.old).stops (R.state disk.new).stops }
{
    disk.write_mark(&mark.to_bytes())?;
    disk.sync()
}
