//! A recipient, whose known sizes are those on its disk while the clone goes on.
ghost use Rattle.std.specs.Prelude.{◌≡◌, true};
ghost use Rattle.clone_lay.specs.Sized.{AreSizes};
ghost use Rattle.clone_tasks.specs.Tables.{is_running};

use crate::walk::wire::Wire;
use clone_chunk::CopyStage;
use clone_fetch::TaskAnswer;
use clone_memdisk::MemDisk;
use clone_recipient::Reception;
use std::alloc::Global;
use std::test::Fail;

/// A clone, and the disk that it is laid on.
#[derive(Drop)]
pub struct Requester {
    /// What is known of it.
    pub reception: Reception,
    /// The disk.
    pub disk: MemDisk,
    ghost sized: { is_running reception.table ≡ true → AreSizes reception.sizes disk.contents.image },
}

impl Requester {
    /// A clone begins on an empty disk.
    pub fn begin(alloc: Global, tasks: u8, limit: u32, version: u16) -> Result<Requester, Fail> {
        if tasks == 0 || tasks > 16 || limit > 100 || version == 0 || version > 2 {
            return Err(Fail::from("no such clone"));
        }
        let mut disk = MemDisk::new(alloc);
        match Reception::begin(alloc, &mut disk, 1, tasks, limit, version) {
            Ok(reception) => Ok(Requester { reception, disk }),
            Err(_) => Err(Fail::from("not begun")),
        }
    }

    /// A step of a task, and the stage whose acknowledgement it was to send.
    pub fn step(
        self,
        alloc: Global,
        wire: &mut Wire,
        task: u8,
        floor: u64,
    ) -> Result<(Requester, TaskAnswer, Option<CopyStage>), Fail> {
        let Requester {
            mut reception,
            mut disk,
        } = self;
        let ready = wire.core.ready(&reception, task, wire.link);
        let answer = wire.core.step(
            alloc,
            &mut reception,
            &mut disk,
            task,
            wire.link,
            floor,
            &mut wire.received,
            &mut wire.sent,
        );
        match answer {
            TaskAnswer::NoMemory => Err(Fail::from("no memory")),
            answer => Ok((Requester { reception, disk }, answer, ready)),
        }
    }
}
