//! The commands over the recipient's disk.
ghost use Rattle.clone_dump.specs.Shown.{SaysRecovered, SaysRows};
ghost use Rattle.clone_engine.specs.Disks.{Visits};
ghost use Rattle.clone_top.specs.Ends.{end_of};
ghost use Rattle.clone_top.specs.Recovering.{Comes};

use crate::saying::{say, say_no_clone};
use crate::status::Status;
use clone_dump::{dump, recover_clone};
use clone_outside::{PageDisk, Sink};
use std::alloc::Global;

/// Recovers a disk, and says up to where, or why it isn't recovered.
pub fn say_recovered<K: Sink, R: PageDisk>(alloc: Global, out: &mut K, disk: &mut R) -> Status
    ensures comes { Comes SaysRecovered result (R.state disk.old) (R.state disk.new)
        (end_of (K.taken out.old) (K.failures out.old))
        (end_of (K.taken out.new) (K.failures out.new)) }
    ensures visits { Visits (R.state disk.old) (R.state disk.new) }
{
    match recover_clone(alloc, disk) {
        Ok(line) => say(out, line.as_str(), Status::Done),
        Err(refusal) => say_no_clone(alloc, out, refusal),
    }
}

/// Recovers a disk, and writes its rows, or says why it isn't recovered.
pub fn say_rows<K: Sink, R: PageDisk>(alloc: Global, out: &mut K, disk: &mut R) -> Status
    ensures comes { Comes SaysRows result (R.state disk.old) (R.state disk.new)
        (end_of (K.taken out.old) (K.failures out.old))
        (end_of (K.taken out.new) (K.failures out.new)) }
    ensures visits { Visits (R.state disk.old) (R.state disk.new) }
{
    match dump(alloc, disk) {
        Ok(rows) => say(out, rows.as_str(), Status::Done),
        Err(refusal) => say_no_clone(alloc, out, refusal),
    }
}
