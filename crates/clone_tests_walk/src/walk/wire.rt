//! The connection of a task: bytes that are under way each way, and its two ends.

use crate::walk::drawn::{below, length_within};
use clone_donor::Donor;
use clone_fetch::FetchCore;
use clone_memdisk::MemDisk;
use clone_serve::{ServeAnswer, ServeCore};
use clone_tasks::Link;
use rand_pcg::Pcg32;
use std::alloc::Global;
use std::mem;
use std::test::Fail;

/// The donor's side of a connection, and what came there and wasn't taken.
#[derive(Drop)]
pub struct Served {
    core: ServeCore,
    came: Vec<u8>,
}

impl Served {
    fn new(alloc: Global) -> Served {
        Served {
            core: ServeCore::new(),
            came: Vec::new(alloc),
        }
    }

    /// A step over a donor.
    pub fn step(
        &mut self,
        alloc: Global,
        donor: &mut Donor<MemDisk>,
        given: &mut Vec<u8>,
    ) -> ServeAnswer {
        self.core.step(alloc, donor, &mut self.came, given)
    }
}

/// A task's side, and the connection that it made last.
#[derive(Drop)]
pub struct Wire {
    /// The task's side.
    pub core: FetchCore,
    /// The state of the connection.
    pub link: Link,
    /// What came to the task and wasn't taken.
    pub received: Vec<u8>,
    /// What is under way to the donor.
    pub sent: Vec<u8>,
    /// What is under way from the donor.
    pub given: Vec<u8>,
    /// The donor's side.
    pub served: Served,
}

impl Wire {
    /// There is no connection.
    pub fn new(alloc: Global) -> Wire {
        Wire {
            core: FetchCore::new(),
            link: Link::Absent,
            received: Vec::new(alloc),
            sent: Vec::new(alloc),
            given: Vec::new(alloc),
            served: Served::new(alloc),
        }
    }

    /// Whether bytes come and go.
    pub fn is_up(&self) -> bool {
        matches!(self.link, Link::Up)
    }

    /// Whether there is no connection.
    pub fn is_absent(&self) -> bool {
        matches!(self.link, Link::Absent)
    }

    /// The task has sent something: where there was no connection, there is one.
    pub fn connect(&mut self) {
        if self.is_absent() {
            self.link = Link::Up;
        }
    }

    /// Some of the bytes that are under way come, one way.
    pub fn shift(&mut self, words: &mut Pcg32) -> Result<(), Fail> {
        if !self.is_up() {
            return Ok(());
        }
        let most = if below(words, 4) == 0 { 7 } else { 60_000 };
        let count = length_within(words, most);
        if below(words, 2) == 0 {
            shift(&mut self.sent, &mut self.served.came, count)
        } else {
            shift(&mut self.given, &mut self.received, count)
        }
    }

    /// All that is under way comes.
    pub fn shift_all(&mut self) -> Result<(), Fail> {
        if !self.is_up() {
            return Ok(());
        }
        shift(&mut self.sent, &mut self.served.came, usize::MAX)?;
        shift(&mut self.given, &mut self.received, usize::MAX)
    }

    /// The connection is lost, and of what is under way some comes.
    pub fn cut(&mut self, words: &mut Pcg32) -> Result<(), Fail> {
        let count = length_within(words, self.sent.len());
        shift(&mut self.sent, &mut self.served.came, count)?;
        let count = length_within(words, self.given.len());
        shift(&mut self.given, &mut self.received, count)?;
        self.link = Link::Lost;
        Ok(())
    }

    /// The task closes the connection. Its other end is left, with some of what was under way.
    pub fn close(&mut self, alloc: Global, words: &mut Pcg32) -> Result<Served, Fail> {
        if self.is_up() {
            let count = length_within(words, self.sent.len());
            shift(&mut self.sent, &mut self.served.came, count)?;
        }
        self.sent.clear();
        self.given.clear();
        self.received.clear();
        self.link = Link::Absent;
        Ok(mem::replace(&mut self.served, Served::new(alloc)))
    }
}

// Moves so many bytes from the front of one list behind another.
fn shift(from: &mut Vec<u8>, to: &mut Vec<u8>, count: usize) -> Result<(), Fail> {
    let count = count.min(from.len());
    if let Some(front) = from.get(..count) {
        to.extend_from_slice(front)?;
    }
    let left = from.len().saturating_sub(count);
    from.copy_within(count.., 0);
    from.truncate(left);
    Ok(())
}
