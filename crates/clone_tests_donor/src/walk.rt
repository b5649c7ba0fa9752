//! Random walks over a donor that takes calls, flushes and checkpoints while it gives clones in
//! stages. Each clone is recovered, and has the rows that the plain program had at its stop.
ghost use Rattle.clone_model.specs.Config.{IsConfig};

mod asking;
mod beside;
mod copying;
mod counts;
mod drawn;
mod plain;
mod requester;
mod taking;

use crate::walk::beside::Walk;
use crate::walk::counts::{Counts, came_in_each};
use crate::walk::drawn::words_from;
use crate::walk::taking::take_clone;
use clone_donor::Donor;
use clone_engine::OpenRefusal;
use clone_memdisk::MemDisk;
use clone_model::Config;
use clone_outside::DiskOrder;
use rand_pcg::Pcg32;
use std::alloc::Global;
use std::process::Abort;
use std::test::Fail;

// How many steps a walk has at least.
const STEPS: u64 = 10_000;

// More clones than a walk of so many steps takes.
const CLONES: u64 = 1_000;

// How many steps come before each clone.
const BETWEEN: u32 = 100;

/// The byte that reads of half written pages give.
pub const TORN: u8 = 0xA5;

// So few frames that pages go to the disk, and room for the log.
const ROOM: Config = Config {
    pool: 20,
    ring: 1_048_576,
};

// So little log that it is full now and then.
const LITTLE_LOG: Config = Config {
    pool: 20,
    ring: 65_536,
};

fn opened(alloc: Global, config: Config) -> Result<Donor<MemDisk>, Fail>
    requires config { IsConfig config }
{
    match Donor::open(alloc, MemDisk::new(alloc), config) {
        Ok(donor) => Ok(donor),
        Err(refusal) => {
            let OpenRefusal { cause: _, disk: _ } = refusal;
            Err(Fail::from("not opened"))
        }
    }
}

// Steps and clones by turns.
fn go(rt: &impl Abort, donor: &mut Donor<MemDisk>, walk: &mut Walk) -> Result<(), Fail> {
    donor.order(DiskOrder::Tear { byte: TORN })?;
    for clone in 1..CLONES {
        if walk.has_made(STEPS) {
            return Ok(());
        }
        walk.go(rt, donor, BETWEEN)?;
        take_clone(rt, donor, walk, clone)?;
    }
    Err(Fail::from("too many clones"))
}

// A walk by these words over a new donor. What came up is answered.
fn walked(rt: &impl Abort, alloc: Global, words: Pcg32, config: Config) -> Result<Counts, Fail>
    requires config { IsConfig config }
{
    let mut walk = Walk::new(alloc, words);
    let mut donor = opened(alloc, config)?;
    let gone = go(rt, &mut donor, &mut walk);
    let _disk = donor.into_disk();
    gone?;
    Ok(walk.counts)
}

// Each clone has the rows of its stop, though pages were torn, blocks weren't archived yet, calls
// of the disk failed, and chains and files got longer in each stage.
#[test]
fn a_random_walk_with_clones(rt: HostRuntime) -> Result<(), Fail> {
    let counts = walked(&rt, rt.alloc(), words_from(25, 28), ROOM)?;
    assert!(rt; counts.clones >= 3 && counts.dropped > 0);
    assert!(rt; counts.behind > 0 && counts.torn > 0 && counts.open > 0);
    assert!(rt; counts.unread > 0 && counts.unheld > 0);
    assert!(rt; came_in_each(&counts.grown) && came_in_each(&counts.flushed));
    Ok(())
}

// The log is full while a clone is under way.
#[test]
fn a_random_walk_with_clones_and_little_log(rt: HostRuntime) -> Result<(), Fail> {
    let counts = walked(&rt, rt.alloc(), words_from(23, 29), LITTLE_LOG)?;
    assert!(rt; counts.clones >= 3 && counts.full > 0);
    Ok(())
}
