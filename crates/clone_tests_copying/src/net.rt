//! Connections at whose other end a donor answers by rote. What they carry is not told.
ghost use Rattle.std.specs.Prelude.{◌≡◌, ◌<◌, ◌≤◌, true, IfSome};
ghost use Rattle.clone_tests_copying.specs.declared.donor.TheConstants.{STAGE};

use crate::donor::{Donor, STAGE};
use clone_outside::{Link, LinkRefusal, Net, Received, Refusal, Side};
use std::alloc::Global;

/// A net whose first connection is lost after so many bytes to the requester, if it is to be.
#[derive(Drop)]
pub(crate) struct RoteNet {
    alloc: Global,
    cut: Option<usize>,
    unsettled: u64,
    planned: u32,
}

impl RoteNet {
    pub(crate) fn new(alloc: Global, cut: Option<usize>) -> RoteNet {
        RoteNet {
            alloc,
            cut,
            unsettled: 0,
            planned: 0,
        }
    }

    fn end(&self, side: Side) -> RoteEnd
        ensures side { result.side ≡ side }
        ensures open { result.is_open ≡ true }
    {
        RoteEnd {
            side,
            is_open: true,
            donor: Donor::new(self.alloc),
            left: self.cut,
            faults: 0,
        }
    }
}

impl Net for RoteNet {
    type End = RoteEnd;

    ghost made = { λ n name. Unit {0} };

    ghost unsettled = { λ n. n.unsettled };

    ghost planned = { λ n. n.planned };

    ghost failures = { λ n. 0 };

    fn faults(&self) -> u64 {
        0
    }

    fn pair(&mut self) -> Result<(RoteEnd, RoteEnd), Refusal> {
        let Some(unsettled) = self.unsettled.checked_add(1) else {
            return Err(Refusal::NoMemory);
        };
        let ends = (self.end(Side::Donor), self.end(Side::Requester));
        self.unsettled = unsettled;
        self.cut = None;
        Ok(ends)
    }

    fn settle(&mut self, _donor_end: RoteEnd, _requester_end: RoteEnd) {
        self.unsettled = self.unsettled.saturating_sub(1);
    }

    fn plan_cuts(&mut self, connections: u32) {
        self.planned = connections;
    }
}

/// An end of a connection, with the donor that answers what is sent. It is lost after so many bytes
/// were received, if it is to be. Whoever receives has room for a STAGE.
#[derive(Drop)]
pub(crate) struct RoteEnd {
    side: Side,
    is_open: bool,
    donor: Donor,
    left: Option<usize>,
    faults: u64,
}

impl RoteEnd {
    // How many bytes of a STAGE come into so much room, or none where the connection is lost.
    fn goes(&self, room: usize) -> Option<usize>
        ensures stage { IfSome result (λ n. n ≤ STAGE) }
        ensures room { IfSome result (λ n. n ≤ room) }
        ensures some { IfSome result (λ n. 0 < room → 0 < n) }
    {
        let left = self.left.unwrap_or(STAGE);
        if left == 0 {
            return None;
        }
        Some(room.min(STAGE).min(left))
    }
}

impl Link for RoteEnd {
    ghost use Rattle.std.specs.Prelude.{None};

    type Name = ();

    ghost name = { λ e. tt };

    ghost side = { λ e. e.side };

    ghost is_open = { λ e. e.is_open };

    ghost sent = { λ e. None };

    ghost received = { λ e. None };

    ghost failures = { λ e. e.faults };

    fn faults(&self) -> u64 {
        self.faults
    }

    fn send(&mut self, from: &[u8]) -> Result<(), LinkRefusal> {
        match self.donor.hear(from) {
            Ok(()) => Ok(()),
            Err(_) => Err(LinkRefusal::NoMemory),
        }
    }

    fn receive(&mut self, into: &mut [u8]) -> Result<Received, LinkRefusal> {
        let Some(count) = self.goes(into.len()) else {
            self.faults = self.faults.saturating_add(1);
            return Ok(Received::Lost);
        };
        let Ok(answer) = self.donor.answer() else {
            return Err(LinkRefusal::NoMemory);
        };
        let Some(stage) = answer else {
            return Ok(Received::Nothing);
        };
        into[..count].copy_from_slice(&stage[..count]);
        if let Some(left) = self.left {
            self.left = Some(left.saturating_sub(count));
        }
        Ok(Received::Bytes(count))
    }

    fn close(&mut self) {
        self.is_open = false;
    }
}
