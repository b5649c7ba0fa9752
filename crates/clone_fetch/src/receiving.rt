//! A command awaits its answer: a frame is taken, or the connection is found lost.
ghost use Rattle.std.specs.Prelude.{◌≡◌, ◌≢◌, IsTrue};
ghost use Rattle.clone_outside.specs.Disk.{ForTold};
ghost use Rattle.clone_outside.specs.DiskCalls.{Alters};
ghost use Rattle.clone_lay.specs.Sized.{AreSizes};
ghost use Rattle.clone_tasks.specs.Losing.{after_loss};
ghost use Rattle.clone_tasks.specs.Tables.{is_running};
ghost use Rattle.clone_tasks.specs.declared.end.CloneEnd.TheVariants.{DiskFault};
ghost use Rattle.clone_fetch.specs.Fetching.{Breaks, KnowsSizes, Receives, TakesFrame, is_lost};
ghost use Rattle.clone_fetch.specs.Fetching.{loss_says, refusal_in, with_loss};
ghost use Rattle.clone_fetch.specs.declared.answer.TaskAnswer.TheVariants.{Ended, NoMemory};

use crate::TaskAnswer;
use clone_chunk::CloneCause;
use clone_outside::PageDisk;
use clone_recipient::{Reception, TakeRefusal};
use clone_stream::{StreamRefusal, keep_front, take_frame};
use clone_tasks::{CloneEnd, Link, LossAnswer};
use clone_wire::{Frame, Side, encode};
use std::alloc::Global;

// What was received is looked at before a loss.
pub(crate) fn receive<R: PageDisk>(
    alloc: Global,
    reception: &mut Reception,
    disk: &mut R,
    task: u8,
    link: Link,
    received: &mut Vec<u8>,
) -> TaskAnswer
    requires running { IsTrue (is_running reception.old.table) }
    requires sizes { ForTold (R.state disk.old).told
        (AreSizes reception.old.sizes) }
    ensures receives { Receives task link reception.old reception.new
        (R.state disk.old) (R.state disk.new)
        received.old.items received.new.items result }
    ensures sizes { result ≢ NoMemory
        → KnowsSizes reception.new (R.state disk.new) }
    ensures works { Alters (result ≡ Ended DiskFault)
        (R.state disk.old) (R.state disk.new) }
{
    match take_frame(alloc, received, Side::Answer) {
        Ok(Some(frame)) => take(alloc, reception, disk, task, frame),
        Ok(None) if is_lost(link) => lose(reception),
        Ok(None) => TaskAnswer::Idle,
        Err(StreamRefusal::Garbled) => break_off(alloc, reception, received),
        Err(StreamRefusal::NoMemory) => TaskAnswer::NoMemory,
    }
}

// A frame that came for the task is taken. One that isn't awaited ends the clone.
fn take<R: PageDisk>(
    alloc: Global,
    reception: &mut Reception,
    disk: &mut R,
    task: u8,
    frame: Frame,
) -> TaskAnswer
    requires sizes { ForTold (R.state disk.old).told
        (AreSizes reception.old.sizes) }
    ensures takes { TakesFrame task frame reception.old reception.new
        (R.state disk.old) (R.state disk.new) result }
    ensures sizes { result ≢ NoMemory
        → KnowsSizes reception.new (R.state disk.new) }
    ensures works { Alters (result ≡ Ended DiskFault)
        (R.state disk.old) (R.state disk.new) }
{
    let refusal = refusal_in(&frame);
    match reception.take(alloc, disk, task, frame) {
        Ok(took) => match refusal {
            Some(cause) => TaskAnswer::Ended(CloneEnd::Refused { cause }),
            None => TaskAnswer::Took(took),
        },
        Err(TakeRefusal::Unexpected { frame }) => match encode(alloc, &frame) {
            Ok(text) => break_off(alloc, reception, &text),
            Err(_) => TaskAnswer::NoMemory,
        },
        Err(TakeRefusal::DiskFault) => {
            reception.end(CloneEnd::DiskFault);
            TaskAnswer::Ended(CloneEnd::DiskFault)
        }
        Err(TakeRefusal::NoMemory) => TaskAnswer::NoMemory,
    }
}

// The clone ends for bytes that are garbled, of which the first are kept.
fn break_off(alloc: Global, reception: &mut Reception, bytes: &[u8]) -> TaskAnswer
    ensures { Breaks bytes.now reception.old reception.new result }
{
    let Ok(kept) = keep_front(alloc, bytes, Side::Answer) else {
        return TaskAnswer::NoMemory;
    };
    let Ok(answered) = keep_front(alloc, bytes, Side::Answer) else {
        return TaskAnswer::NoMemory;
    };
    reception.end(CloneEnd::Garbled { kept });
    TaskAnswer::Ended(CloneEnd::Garbled { kept: answered })
}

// The cause of a frame that refuses.
fn refusal_in(frame: &Frame) -> Option<CloneCause>
    ensures { result ≡ refusal_in frame.now }
{
    match frame {
        Frame::Refused { cause } => Some(*cause),
        _ => None,
    }
}

fn is_lost(link: Link) -> bool
    ensures { result ≡ is_lost link }
{
    matches!(link, Link::Lost)
}

// A loss is of the present incarnation where a command awaits its answer.
fn lose(reception: &mut Reception) -> TaskAnswer
    requires { IsTrue (is_running reception.old.table) }
    ensures answer { result ≡ loss_says (after_loss reception.old.table) }
    ensures table { reception.new ≡ with_loss reception.old }
{
    match reception.lost(reception.table().incarnation()) {
        LossAnswer::Again { losses } => TaskAnswer::Lost { losses },
        LossAnswer::Spent { losses } => TaskAnswer::Ended(CloneEnd::Spent { losses }),
        LossAnswer::Old => unreachable!(),
    }
}
