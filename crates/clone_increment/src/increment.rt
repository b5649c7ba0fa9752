//! An increment has the pages that were written between two copies. It spans the numbers from its
//! own up to its next one: one that was tracked spans one, and a merged one spans more.
ghost use Rattle.std.specs.Prelude.{◌≡◌, ◌+◌, ◌<◌, IfOk};
ghost use Rattle.std.specs.FinMap as finite;
ghost use Rattle.clone_outside.specs.Disk.{ForTold};
ghost use Rattle.clone_outside.specs.DiskCalls.{Asks};
ghost use Rattle.clone_increment.specs.Copies.{IsQuiet};
ghost use Rattle.clone_increment.specs.Increments.{IsMerged, Merges};
ghost use Rattle.clone_increment.specs.Slots.{page_in};
ghost use Rattle.clone_increment.specs.Tracked.{IsTaken};

use crate::BackupRefusal;
use crate::changes::Changes;
use crate::counting::{copied, staying, staying_by_both};
use crate::page_map::PageMap;
use crate::reading::{read_places, sizes_of};
use clone_base::Counts;
use clone_outside::{PageDisk, Refusal};
use clone_page::Page;
use std::alloc::{AllocError, Global};
use std::marker::Model;

/// The pages that were written between two copies, how many pages each space has at the second, and
/// how many of the pages of the first stay.
#[derive(Drop)]
pub struct Increment {
    pub(crate) alloc: Global,
    pub(crate) number: u32,
    pub(crate) next: u32,
    pub(crate) sizes: Counts,
    pub(crate) stay: Counts,
    pub(crate) pages: PageMap,
}

impl Model for Increment {
    ghost use Rattle.clone_increment.specs.Increments.{Delta, delta_code};

    ghost Value = { Delta };

    ghost coded = { delta_code };

    ghost view = { λ i. record {
      number = i.number;
      next = i.next;
      sizes = i.sizes;
      stay = i.stay;
      pages = i.pages;
    } };
}

impl Increment {
    /// The number of the increment.
    pub fn number(&self) -> u32
        ensures { result ≡ self.now.number }
    {
        self.number
    }

    /// The number of the increment that may follow.
    pub fn next(&self) -> u32
        ensures { result ≡ self.now.next }
    {
        self.next
    }

    /// How many pages a space has at its end, if the space is there.
    pub fn size(&self, space: u32) -> Option<u32>
        ensures { result ≡ finite.get self.now.sizes space }
    {
        self.sizes.get(space)
    }

    /// The page that it has for a place, if it has one.
    pub fn page(&self, space: u32, number: u32) -> Option<&Page>
        ensures { page_in result ≡ finite.get self.now.pages (space, number) }
    {
        self.pages.get(space, number)
    }

    /// How many pages it has.
    pub fn count(&self) -> usize
        ensures { result ≡ finite.len self.now.pages }
    {
        self.pages.count()
    }

    /// The increment of what changed, as the disk is now.
    pub(crate) fn take<D: PageDisk>(
        alloc: Global,
        disk: &mut D,
        changes: &Changes,
        number: u32,
    ) -> Result<Increment, Refusal>
        requires { number < u32.MAX }
        ensures number { IfOk result (λ increment. increment.number ≡ number) }
        ensures next { IfOk result (λ increment. increment.next ≡ number + 1) }
        ensures taken { IfOk result (λ increment. ForTold (D.state disk.old).told
            (λ m. IsQuiet m → IsTaken changes.now m increment)) }
        ensures asks { Asks (D.state disk.old) (D.state disk.new) result }
    {
        let sizes = sizes_of(alloc, disk)?;
        let pages = read_places(alloc, disk, &changes.written, &sizes)?;
        let stay = staying(alloc, &sizes, changes)?;
        Ok(Increment {
            alloc,
            number,
            next: number + 1,
            sizes,
            stay,
            pages,
        })
    }
}

/// One increment that does what two do, of which the second follows the first.
pub fn merge(first: &Increment, second: &Increment) -> Result<Increment, BackupRefusal>
    ensures { Merges first.now second.now result }
{
    if second.number != first.next {
        return Err(BackupRefusal::OutOfTurn {
            have: first.next,
            got: second.number,
        });
    }
    Ok(merged(first.alloc, first, second)?)
}

fn merged(alloc: Global, first: &Increment, second: &Increment) -> Result<Increment, AllocError>
    ensures { IfOk result (IsMerged first.now second.now) }
{
    let mut pages = PageMap::new(alloc);
    pages.lay(&first.stay, &first.pages)?;
    pages.lay(&second.stay, &second.pages)?;
    Ok(Increment {
        alloc,
        number: first.number,
        next: second.next,
        sizes: copied(alloc, &second.sizes)?,
        stay: staying_by_both(alloc, &first.stay, &second.stay)?,
        pages,
    })
}
