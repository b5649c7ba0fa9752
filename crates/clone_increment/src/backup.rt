//! A full copy of a disk's files, to which increments are applied in order.
ghost use Rattle.std.specs.Prelude.{◌≡◌};
ghost use Rattle.std.specs.FinMap as finite;
ghost use Rattle.clone_increment.specs.Increments.{Applies};
ghost use Rattle.clone_increment.specs.Slots.{page_in};

use crate::counting::copied;
use crate::page_map::PageMap;
use crate::{BackupRefusal, Increment};
use clone_base::Counts;
use clone_page::Page;
use std::alloc::Global;
use std::marker::Model;

/// A copy of a disk's files, and the number of the increment that it takes next. A page that isn't
/// kept has zero bytes.
#[derive(Drop)]
pub struct Backup {
    pub(crate) alloc: Global,
    pub(crate) sizes: Counts,
    pub(crate) pages: PageMap,
    pub(crate) next: u32,
}

impl Model for Backup {
    ghost use Rattle.clone_increment.specs.Increments.{Full, full_code};

    ghost Value = { Full };

    ghost coded = { full_code };

    ghost view = { λ b. record {
      copy = record { sizes = b.sizes; pages = b.pages };
      next = b.next;
    } };
}

impl Backup {
    /// The number of the increment that it takes next.
    pub fn next(&self) -> u32
        ensures { result ≡ self.now.next }
    {
        self.next
    }

    /// How many pages a space has, if it is there.
    pub fn size(&self, space: u32) -> Option<u32>
        ensures { result ≡ finite.get self.now.copy.sizes space }
    {
        self.sizes.get(space)
    }

    /// The page that is kept for a place, if one is.
    pub fn page(&self, space: u32, number: u32) -> Option<&Page>
        ensures { page_in result ≡ finite.get self.now.copy.pages (space, number) }
    {
        self.pages.get(space, number)
    }

    /// How many pages it keeps.
    pub fn count(&self) -> usize
        ensures { result ≡ finite.len self.now.copy.pages }
    {
        self.pages.count()
    }

    /// Applies an increment: spaces that were made are emptied, those that aren't listed are
    /// dropped, the others get their sizes, and its pages are laid. After a refusal all is as
    /// before.
    pub fn apply(&mut self, increment: &Increment) -> Result<(), BackupRefusal>
        ensures { Applies self.old increment.now result self.new }
    {
        if increment.number != self.next {
            return Err(BackupRefusal::OutOfTurn {
                have: self.next,
                got: increment.number,
            });
        }
        let sizes = copied(self.alloc, &increment.sizes)?;
        self.pages.lay(&increment.stay, &increment.pages)?;
        self.sizes = sizes;
        self.next = increment.next;
        Ok(())
    }
}
