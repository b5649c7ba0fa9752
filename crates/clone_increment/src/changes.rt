//! What changed on a disk since a copy of it.
ghost use Rattle.std.specs.Prelude.{◌≡◌, OnErr, OnOk};
ghost use Rattle.std.specs.FinSet as set;
ghost use Rattle.clone_increment.specs.Tracked.{no_changes, with_made, with_written};

use std::alloc::{AllocError, Global};
use std::collections::BTreeSet;
use std::marker::Model;

/// The pages that were written and the spaces that were made.
#[derive(Drop)]
pub(crate) struct Changes {
    pub(crate) written: BTreeSet<(u32, u32)>,
    made: BTreeSet<u32>,
}

impl Model for Changes {
    ghost use Rattle.std.specs.FinSet as set;
    ghost use Rattle.clone_increment.specs.Tracked.{Changed, changed_code};

    ghost Value = { Changed };

    ghost coded = { changed_code };

    ghost view = { λ c. record {
      written = set.from_list c.written.keys;
      made = set.from_list c.made.keys;
    } };
}

impl Changes {
    /// Nothing changed yet. No memory is taken.
    pub(crate) fn new(alloc: Global) -> Changes
        ensures { result ≡ no_changes }
    {
        Changes {
            written: BTreeSet::new(alloc),
            made: BTreeSet::new(alloc),
        }
    }

    /// A page was written. After a refusal all is as before.
    pub(crate) fn write(&mut self, space: u32, page: u32) -> Result<(), AllocError>
        ensures ok { OnOk result (self.new ≡ with_written self.old (space, page)) }
        ensures err { OnErr result (self.new ≡ self.old) }
    {
        self.written.insert((space, page))?;
        Ok(())
    }

    /// A space was made. After a refusal all is as before.
    pub(crate) fn make(&mut self, space: u32) -> Result<(), AllocError>
        ensures ok { OnOk result (self.new ≡ with_made self.old space) }
        ensures err { OnErr result (self.new ≡ self.old) }
    {
        self.made.insert(space)?;
        Ok(())
    }

    /// Whether a space was made.
    pub(crate) fn has_made(&self, space: u32) -> bool
        ensures { result ≡ set.contains self.now.made space }
    {
        self.made.contains(&space)
    }
}
