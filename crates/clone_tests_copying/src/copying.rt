//! Tasks that fetch a clone of nothing, one after the other.
ghost use Rattle.std.specs.Prelude.{◌≤◌};

use crate::clock::{Clock, ClockAnswer, ClockCall, ClockMachine};
use crate::net::RoteNet;
use crate::stuck::Stuck;
use clone_copying::{Caller, FetchEnd, Fetcher};
use clone_desk::{Desk, DeskAnswer, DeskCall, DeskMachine};
use clone_fetching::{CloneEnded, Recipient, RecipientMachine};
use clone_hub::Hub;
use clone_memdisk::MemDisk;
use clone_outside::NoGate;
use clone_recipient::Reception;
use clone_turn::Machine;
use std::alloc::Global;
use std::sync::{Arc, Wait};

// What calls the machine by a seat of its own.
fn lend<M: Machine, R: Wait + Drop>(rt: R, hub: &mut Hub<M>) -> Result<Caller<M, R>, Stuck> {
    let (cell, seat) = hub.lend()?;
    Ok(Caller::new(rt, cell, seat))
}

// What alone calls a machine in this state.
fn alone<M: Machine, R: Wait + Drop>(
    rt: R,
    alloc: Global,
    first: M::State,
) -> Result<Caller<M, R>, Stuck> {
    let Ok(mut hub) = Hub::<M>::new(&rt, alloc, first) else {
        return Err(Stuck);
    };
    lend(rt, &mut hub)
}

// A clone of two tasks.
#[derive(Drop)]
struct Clone<R: Wait + Copy + Drop> {
    rt: R,
    alloc: Global,
    recipient: Hub<RecipientMachine<MemDisk>>,
    desk: Caller<DeskMachine<RoteNet>, R>,
    clock: Caller<ClockMachine, R>,
}

impl<R: Wait + Copy + Drop> Clone<R> {
    // It is let off so many losses, in a run that is halted after so many looks.
    fn begin(rt: R, alloc: Global, net: RoteNet, limit: u32, looks: u64) -> Result<Clone<R>, Stuck>
        requires { limit ≤ 16 }
    {
        let clock = Clock {
            position: 0,
            last: looks,
        };
        let Ok(recipient) = Hub::new(&rt, alloc, begun(alloc, limit)?) else {
            return Err(Stuck);
        };
        Ok(Clone {
            rt,
            alloc,
            recipient,
            desk: alone(rt, alloc, Desk::new(alloc, net))?,
            clock: alone(rt, alloc, clock)?,
        })
    }

    // How the task ends.
    fn fetch(&mut self, task: u8) -> Result<FetchEnd, Stuck> {
        let gate = Arc::new(self.alloc, NoGate)?;
        let recipient = lend(self.rt, &mut self.recipient)?;
        let mut fetcher = Fetcher::new(self.rt, self.alloc, recipient, task, gate);
        Ok(fetcher.fetch(&mut self.desk, &mut self.clock))
    }

    // How many connections the task made: the donor's end of each waits.
    fn connections(&mut self, task: u8) -> u32 {
        let mut count: u32 = 0;
        for _ in 0..10 {
            if let DeskAnswer::HandedOut(Some(_)) = self.desk.call(DeskCall::DonorEnd(task)) {
                count = count.saturating_add(1);
            }
        }
        count
    }

    // The position of the next look.
    fn look(&mut self) -> Result<u64, Stuck> {
        match self.clock.call(ClockCall::Look) {
            ClockAnswer::Position(position) => Ok(position),
            ClockAnswer::Halted(_) => Err(Stuck),
        }
    }
}

// The recipient of a clone that was begun on an empty disk.
fn begun(alloc: Global, limit: u32) -> Result<Recipient<MemDisk>, Stuck>
    requires { limit ≤ 16 }
{
    let mut disk = MemDisk::new(alloc);
    let reception = Reception::begin(alloc, &mut disk, 1, 2, limit, 1)?;
    Ok(Recipient::new(alloc, reception, disk))
}

fn is_complete(end: &FetchEnd) -> bool {
    matches!(
        end,
        FetchEnd::Ended(CloneEnded::Complete {
            lsn: 8192,
            position: 3,
            ..
        })
    )
}

// The position is looked up before the first step and after each STAGE. The one of PAGE COPY is the
// second.
#[test]
fn a_clone_completes_over_one_connection(rt: HostRuntime) -> Result<(), Stuck> {
    let net = RoteNet::new(rt.alloc(), None);
    let mut clone = Clone::begin(rt, rt.alloc(), net, 0, 100)?;
    let end = clone.fetch(0)?;
    assert!(rt; is_complete(&end) && clone.connections(0) == 1);
    assert!(rt; matches!(end, FetchEnd::Ended(CloneEnded::Complete { floor: 3, .. })));
    Ok(())
}

#[test]
fn a_task_connects_anew_after_a_loss(rt: HostRuntime) -> Result<(), Stuck> {
    let net = RoteNet::new(rt.alloc(), Some(60));
    let mut clone = Clone::begin(rt, rt.alloc(), net, 1, 100)?;
    assert!(rt; is_complete(&clone.fetch(0)?) && clone.connections(0) == 2);
    Ok(())
}

#[test]
fn a_loss_above_the_limit_ends_the_clone(rt: HostRuntime) -> Result<(), Stuck> {
    let net = RoteNet::new(rt.alloc(), Some(60));
    let mut clone = Clone::begin(rt, rt.alloc(), net, 0, 100)?;
    let end = clone.fetch(0)?;
    assert!(rt; matches!(end, FetchEnd::Ended(CloneEnded::Spent { losses: 1 })));
    assert!(rt; clone.connections(0) == 1);
    Ok(())
}

// The first task acknowledges alone, since there is no chunk. The other makes no connection then.
#[test]
fn a_task_is_told_how_the_clone_ended(rt: HostRuntime) -> Result<(), Stuck> {
    let net = RoteNet::new(rt.alloc(), None);
    let mut clone = Clone::begin(rt, rt.alloc(), net, 0, 100)?;
    clone.fetch(0)?;
    assert!(rt; is_complete(&clone.fetch(1)?) && clone.connections(1) == 0);
    Ok(())
}

// A task that isn't the first waits until the session stands, and looks after each sleep.
#[test]
fn a_task_that_waits_ends_with_the_run(rt: HostRuntime) -> Result<(), Stuck> {
    let net = RoteNet::new(rt.alloc(), None);
    let mut clone = Clone::begin(rt, rt.alloc(), net, 0, 20)?;
    assert!(rt; matches!(clone.fetch(1)?, FetchEnd::Halted) && clone.connections(1) == 0);
    assert!(rt; clone.look()? == 21);
    Ok(())
}
