//! The clone is completed, and the requester leaves.
ghost use Rattle.std.specs.Prelude.{◌≡◌, IsTrue};
ghost use Rattle.clone_outside.specs.DiskCalls.{Alters};
ghost use Rattle.clone_tasks.specs.Tables.{is_done};
ghost use Rattle.clone_tasks.specs.declared.end.CloneEnd.TheVariants.{DiskFault};
ghost use Rattle.clone_fetch.specs.Fetching.{Completes};
ghost use Rattle.clone_fetch.specs.declared.answer.TaskAnswer.TheVariants.{Ended};

use crate::TaskAnswer;
use clone_outside::{PageDisk, Refusal};
use clone_recipient::Reception;
use clone_stream::put_frame;
use clone_tasks::CloneEnd;
use clone_wire::Frame;
use std::alloc::Global;

// The disk is completed first. Then EXIT is sent, and the clone has ended.
pub(crate) fn complete<R: PageDisk>(
    alloc: Global,
    reception: &mut Reception,
    disk: &mut R,
    sent: &mut Vec<u8>,
) -> TaskAnswer
    requires { IsTrue (is_done reception.old.table.phase) }
    ensures completes { Completes reception.old reception.new
        (R.state disk.old).told (R.state disk.new).told
        sent.old.items sent.new.items result }
    ensures works { Alters (result ≡ Ended DiskFault)
        (R.state disk.old) (R.state disk.new) }
{
    match reception.complete(disk) {
        Ok((lsn, position)) => match put_frame(alloc, sent, &Frame::Exit) {
            Ok(()) => {
                reception.end(CloneEnd::Complete { lsn, position });
                TaskAnswer::Ended(CloneEnd::Complete { lsn, position })
            }
            Err(_) => TaskAnswer::NoMemory,
        },
        Err(Refusal::Fault) => {
            reception.end(CloneEnd::DiskFault);
            TaskAnswer::Ended(CloneEnd::DiskFault)
        }
        Err(Refusal::NoMemory) => TaskAnswer::NoMemory,
    }
}
