//! A gate for tests, which holds who passes a point until another point was passed often enough.

use crate::gate::{Gate, Point};
use std::alloc::{AllocError, Global};
use std::sync::{Condvar, Mutex, Wait};

/// Which passes of a point count.
#[derive(Clone, Copy, Debug, PartialEq, Eq)]
pub enum Counted {
    /// All of them.
    Ever,
    /// Those after somebody was first held.
    Later,
}

/// Who passes the point `at` is held until the point `until` was passed so many times.
#[derive(Clone, Copy, Debug, PartialEq, Eq)]
pub struct Hold {
    pub at: Point,
    pub until: Point,
    pub times: u64,
    pub counted: Counted,
}

// A hold, with whether somebody came to it, and how many passes were counted.
#[derive(Clone, Copy)]
struct Progress {
    hold: Hold,
    came: bool,
    passed: u64,
}

impl Progress {
    // Somebody passes this point.
    fn note(&mut self, point: Point) {
        let counts = self.hold.counted == Counted::Ever || self.came;
        if point == self.hold.until && counts {
            self.passed = self.passed.saturating_add(1);
        }
        if point == self.hold.at {
            self.came = true;
        }
    }

    // Who passes this point is held.
    fn holds(&self, point: Point) -> bool {
        point == self.hold.at && self.passed < self.hold.times
    }
}

// All holds, and how many turns of the gate are left before it holds nobody any more.
#[derive(Drop)]
struct Turns {
    holds: Vec<Progress>,
    left: u64,
}

impl Turns {
    fn note(&mut self, point: Point) {
        self.left = self.left.saturating_sub(1);
        for hold in self.holds.iter_mut() {
            hold.note(point);
        }
    }

    fn is_held(&self, point: Point) -> bool {
        self.left > 0 && self.holds.iter().any(|hold| hold.holds(point))
    }
}

/// A gate for tests. It holds who passes the point of a hold until that is met, or until the gate
/// was passed so often in all that it gives up.
#[derive(Drop)]
pub struct HoldingGate<R> {
    rt: R,
    turns: Mutex<Turns>,
    passed: Condvar,
}

impl<R: Wait> HoldingGate<R> {
    /// A gate with these holds, which gives up after so many turns. The error is that
    /// there is no memory.
    pub fn new(
        rt: R,
        alloc: Global,
        holds: &[Hold],
        most_turns: u64,
    ) -> Result<HoldingGate<R>, AllocError>
    where
        R: Drop,
    {
        let mut all = Vec::new(alloc);
        for hold in holds {
            all.push(Progress {
                hold: *hold,
                came: false,
                passed: 0,
            })?;
        }
        Ok(HoldingGate {
            rt,
            turns: Mutex::new(Turns {
                holds: all,
                left: most_turns,
            }),
            passed: Condvar::new(),
        })
    }

    /// Whether the gate gave up.
    pub fn gave_up(&self) -> bool {
        self.turns.lock(&self.rt).left == 0
    }
}

impl<R: Wait> Gate for HoldingGate<R> {
    /// Counts the turn, and waits while somebody who passes this point is held.
    fn pass(&self, point: Point) {
        let mut turns = self.turns.lock(&self.rt);
        turns.note(point);
        self.passed.notify_all();
        let _last = self
            .passed
            .wait_while(&self.rt, turns, |turns| turns.is_held(point));
    }
}
