//! A frame is put out.
ghost use Rattle.std.specs.Prelude.{◌≡◌, true};
ghost use Rattle.clone_tasks.specs.Rules.{sending_rule};
ghost use Rattle.clone_tasks.specs.Sending.{sends};
ghost use Rattle.clone_fetch.specs.Fetching.{PutsOut};

use crate::TaskAnswer;
use clone_recipient::Reception;
use clone_stream::put_frame;
use std::alloc::Global;

// The frame that the task sends next is put after the bytes that are to be sent.
pub(crate) fn send(
    alloc: Global,
    reception: &mut Reception,
    task: u8,
    floor: u64,
    sent: &mut Vec<u8>,
) -> TaskAnswer
    requires { sends (sending_rule reception.old.table task) ≡ true }
    ensures { PutsOut (sending_rule reception.old.table task) task floor
        reception.old reception.new sent.old.items sent.new.items result }
{
    match reception.next_send(alloc, task, floor) {
        Ok(Some(frame)) => match put_frame(alloc, sent, &frame) {
            Ok(()) => TaskAnswer::Sent { code: frame.code() },
            Err(_) => TaskAnswer::NoMemory,
        },
        Ok(None) => unreachable!(),
        Err(_) => TaskAnswer::NoMemory,
    }
}
