//! The pages that were noted since tracking began, as a set, in sorted runs; while it is idle
//! there is no set at all. A page may stand in several runs, so more notes may be kept than there
//! are pages.
ghost use Rattle.std.specs.Prelude.{◌≡◌, ◌+◌, ◌≤◌, ◌↔◌, None, Some, length, IsTrue, IsSome, IsOk, OnOk, OnErr};
ghost use Rattle.std.specs.FinMap as finite;
ghost use Rattle.clone_track.specs.TrackedPages.{all_noted, listed, noted};

use crate::runs::{Runs, TRACKED_LIMIT};
use std::alloc::{AllocError, Global};
use std::marker::Model;

/// The pages that were noted since tracking began, or an idle tracker. A page is named by its space
/// and its number there. Contracts see the set of the pages, how many notes are kept of them, and
/// for how many more there is room.
#[derive(Drop)]
pub struct Tracker {
    alloc: Global,
    runs: Option<Runs>,
}

impl Model for Tracker {
    ghost use Rattle.clone_track.specs.TrackedPages.{TrackedPages, tracked_pages_code};
    ghost use Rattle.clone_track.specs.SortedRuns.{pages_of, kept_of, room_of};

    ghost Value = { TrackedPages };

    ghost coded = { tracked_pages_code };

    ghost view = { λ t. record {
      pages = pages_of t.runs;
      kept = kept_of t.runs;
      room = room_of t.runs;
    } };
}

impl Tracker {
    /// An idle tracker. No memory is taken.
    pub fn new(alloc: Global) -> Tracker
        ensures pages { result.pages ≡ None }
        ensures kept { result.kept ≡ 0 }
    {
        Tracker { alloc, runs: None }
    }

    /// Whether pages are being noted.
    pub fn is_tracking(&self) -> bool
        ensures { IsTrue result ↔ IsSome self.now.pages }
    {
        self.runs.is_some()
    }

    /// Begins to track, with these pages. What was noted before is forgotten. The error is want of
    /// memory, and nothing has changed then.
    pub fn start(&mut self, in_flight: &[(u32, u32)]) -> Result<(), AllocError>
        ensures ok { OnOk result (self.new.pages ≡ Some (all_noted in_flight.now finite.empty)) }
        ensures kept { OnOk result (self.new.kept ≤ length in_flight.now) }
        ensures err { OnErr result (self.new ≡ self.old) }
    {
        self.runs = Some(Runs::of(self.alloc, in_flight)?);
        Ok(())
    }

    /// Makes room for one page more at least. While idle nothing changes, and no memory is taken.
    /// The error is that memory ran out; that more than `TRACKED_LIMIT` pages would be noted
    /// counts as such.
    pub fn reserve(&mut self) -> Result<(), AllocError>
        ensures pages { self.new.pages ≡ self.old.pages }
        ensures kept { self.new.kept ≡ self.old.kept }
        ensures room { OnOk result (1 ≤ self.new.room) }
        ensures more { self.old.room ≤ self.new.room }
        ensures err { OnErr result (self.new ≡ self.old) }
        ensures idle { self.old.pages ≡ None → IsOk result }
        ensures unchanged { self.old.pages ≡ None → self.new ≡ self.old }
    {
        match &mut self.runs {
            Some(runs) => runs.reserve(self.alloc),
            None => Ok(()),
        }
    }

    /// Notes a page, which may be noted already. While idle nothing changes. No memory is taken.
    pub fn add(&mut self, space: u32, page: u32)
        requires { IsSome self.old.pages → 1 ≤ self.old.room }
        ensures pages { self.new.pages ≡ noted (space, page) self.old.pages }
        ensures kept { self.new.kept ≤ self.old.kept + 1 }
        ensures room { self.old.room ≤ self.new.room + 1 }
        ensures idle { self.old.pages ≡ None → self.new ≡ self.old }
    {
        if let Some(runs) = &mut self.runs {
            runs.add((space, page));
        }
    }

    /// Makes room for a page and notes it. While idle nothing changes, and no memory is taken. The
    /// error is that memory ran out, as with `reserve`.
    pub fn note(&mut self, space: u32, page: u32) -> Result<(), AllocError>
        ensures ok { OnOk result (self.new.pages ≡ noted (space, page) self.old.pages) }
        ensures kept { self.new.kept ≤ self.old.kept + 1 }
        ensures err { OnErr result (self.new ≡ self.old) }
        ensures idle { self.old.pages ≡ None → IsOk result }
        ensures unchanged { self.old.pages ≡ None → self.new ≡ self.old }
    {
        self.reserve()?;
        self.add(space, page);
        Ok(())
    }

    /// How many notes are kept. Those are at least as many as the pages that `stop` would list, and
    /// one for each time that a page was noted at most.
    pub fn most(&self) -> usize
        ensures kept { result ≡ self.now.kept }
        ensures pages { length (listed self.now.pages) ≤ result }
        ensures limit { result ≤ TRACKED_LIMIT }
    {
        match &self.runs {
            Some(runs) => runs.most(),
            None => 0,
        }
    }

    /// Lists the pages in ascending order, each once, and is idle from then on. An idle tracker
    /// lists none. No memory is taken.
    pub fn stop(&mut self) -> Vec<(u32, u32)>
        ensures pages { result.items ≡ listed self.old.pages }
        ensures limit { length result.items ≤ TRACKED_LIMIT }
        ensures idle { self.new.pages ≡ None }
        ensures kept { self.new.kept ≡ 0 }
    {
        match self.runs.take() {
            Some(runs) => runs.into_list(),
            None => Vec::new(self.alloc),
        }
    }
}
