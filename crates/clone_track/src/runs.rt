//! Pages in sorted runs. A run ascends, and has no page twice and at most `RUN_PAGES`; a page may
//! stand in several runs. The earlier runs are full. A page that is noted goes into the last one,
//! which has its whole room from the start. The list is empty, and has room for the pages of all.
ghost use Rattle.std.specs.Prelude.{◌≡◌, ◌+◌, ◌≤◌, ◌++◌, length, IfOk, OnOk, OnErr, vec_len, vec_capacity};
ghost use Rattle.std.specs.FinMap as finite;
ghost use Rattle.clone_track.specs.TrackedPages.{all_noted};
ghost use Rattle.clone_track.specs.SortedRuns.{joined};

use std::alloc::{AllocError, Global};
use std::marker::Model;
use std::mem;

/// So many pages can be noted at most, where a page that is noted again may count again.
pub const TRACKED_LIMIT: usize = 1 << 37;

const RUN_PAGES: usize = 1_024;

const RUN_LIMIT: usize = TRACKED_LIMIT / RUN_PAGES;

type Page = (u32, u32);

/// The pages that were noted. Contracts see the set of them, how many notes are kept, and for how
/// many more there is room.
#[derive(Drop)]
pub struct Runs {
    earlier: Vec<Vec<Page>>,
    last: Vec<Page>,
    list: Vec<Page>,
}

impl Model for Runs {
    ghost use Rattle.std.specs.Prelude.{◌-◌, ◌++◌, length};
    ghost use Rattle.std.specs.FinMap as finite;
    ghost use Rattle.clone_track.specs.TrackedPages.{all_noted};
    ghost use Rattle.clone_track.specs.SortedRuns.{Noted, noted_code, IsRuns, joined};
    ghost use Rattle.clone_track.specs.declared.runs.TheConstants.{RUN_PAGES};

    ghost Value = { Noted };

    ghost coded = { noted_code };

    ghost view = { λ r. record {
      pages = all_noted (joined r.earlier.items ++ r.last.items) finite.empty;
      kept = length (joined r.earlier.items ++ r.last.items);
      room = RUN_PAGES - length r.last.items;
    } };

    ghost invariant = { λ r. IsRuns r.earlier.items r.last r.list };
}

impl Runs {
    /// No pages, and room for some.
    pub fn new(alloc: Global) -> Result<Runs, AllocError>
        ensures pages { IfOk result (λ runs. runs.pages ≡ finite.empty) }
        ensures kept { IfOk result (λ runs. runs.kept ≡ 0) }
        ensures room { IfOk result (λ runs. 1 ≤ runs.room) }
    {
        Ok(Runs {
            earlier: Vec::new(alloc),
            last: Vec::with_capacity(alloc, RUN_PAGES)?,
            list: Vec::with_capacity(alloc, RUN_PAGES)?,
        })
    }

    /// The pages of a list.
    pub fn of(alloc: Global, pages: &[Page]) -> Result<Runs, AllocError>
        ensures pages { IfOk result (λ runs. runs.pages ≡ all_noted pages.now finite.empty) }
        ensures kept { IfOk result (λ runs. runs.kept ≤ length pages.now) }
    {
        let mut runs = Runs::new(alloc)?;
        for page in pages {
            runs.reserve(alloc)?;
            runs.add(*page);
        }
        Ok(runs)
    }

    /// Makes room for one page more at least, and changes nothing else.
    pub fn reserve(&mut self, alloc: Global) -> Result<(), AllocError>
        ensures pages { self.new.pages ≡ self.old.pages }
        ensures kept { self.new.kept ≡ self.old.kept }
        ensures room { OnOk result (1 ≤ self.new.room) }
        ensures more { self.old.room ≤ self.new.room }
        ensures err { OnErr result (self.new.room ≡ self.old.room) }
    {
        if self.last.len() < RUN_PAGES {
            return Ok(());
        }
        let runs = self.earlier.len() + 1;
        if runs == RUN_LIMIT {
            return Err(AllocError);
        }
        self.list.reserve((runs + 1) * RUN_PAGES)?;
        self.earlier.reserve(1)?;
        let next = Vec::with_capacity(alloc, RUN_PAGES)?;
        let full = mem::replace(&mut self.last, next);
        self.earlier.push_reserved(full);
        Ok(())
    }

    /// Notes a page, which may be noted already.
    pub fn add(&mut self, page: Page)
        requires { 1 ≤ self.old.room }
        ensures pages { self.new.pages ≡ finite.insert self.old.pages page tt }
        ensures kept { self.new.kept ≤ self.old.kept + 1 }
        ensures room { self.old.room ≤ self.new.room + 1 }
    {
        if let Err(index) = self.last.binary_search(&page) {
            let inserted = self.last.insert(index, page);
            prove!(inserted.is_ok());
        }
    }

    /// How many notes are kept, which are at least as many as there are pages.
    pub fn most(&self) -> usize
        ensures kept { result ≡ self.now.kept }
        ensures pages { length (finite.keys self.now.pages) ≤ result }
        ensures limit { result ≤ TRACKED_LIMIT }
    {
        self.earlier.len() * RUN_PAGES + self.last.len()
    }

    /// The pages in ascending order, each once.
    pub fn into_list(self) -> Vec<Page>
        ensures pages { result.items ≡ finite.keys self.pages }
        ensures limit { length result.items ≤ TRACKED_LIMIT }
    {
        let Runs {
            earlier,
            last,
            mut list,
        } = self;
        append_runs(&mut list, &earlier);
        append(&mut list, &last);
        list.sort_unstable();
        list.dedup();
        list
    }
}

// Appends runs to a list that has room for them.
fn append_runs(list: &mut Vec<Page>, runs: &[Vec<Page>])
    requires { vec_len list.old + length (joined runs.now) ≤ vec_capacity list.old }
    ensures items { list.new.items ≡ list.old.items ++ joined runs.now }
    ensures room { vec_capacity list.old ≤ vec_capacity list.new }
{
    for run in runs {
        append(list, run);
    }
}

// Appends pages to a list that has room for them.
fn append(list: &mut Vec<Page>, pages: &[Page])
    requires { vec_len list.old + length pages.now ≤ vec_capacity list.old }
    ensures items { list.new.items ≡ list.old.items ++ pages.now }
    ensures room { vec_capacity list.old ≤ vec_capacity list.new }
{
    let appended = list.extend_from_slice(pages);
    prove!(appended.is_ok());
}
