//! The memory of one page. A slot is taken empty, so that a page which is laid into it later takes
//! no memory. The page stays where it is while its slot is moved.
ghost use Rattle.std.specs.Prelude.{◌≡◌, None, Some, IfOk, OnOk, is_some};
ghost use Rattle.clone_outside.specs.Disk.{ForTold, GivesQuiet};
ghost use Rattle.clone_outside.specs.DiskCalls.{Asks};
ghost use Rattle.clone_increment.specs.Slots.{IsRead, page_in};

use clone_outside::{PageDisk, Refusal};
use clone_page::Page;
use std::alloc::{AllocError, Global};
use std::marker::Model;

/// Memory for a page, which may hold one.
#[derive(Drop)]
pub(crate) struct Slot {
    memory: Box<Page>,
    filled: bool,
}

impl Model for Slot {
    ghost use Rattle.std.specs.Prelude.{ℕ, List, None, Some, if◌then◌else◌};
    ghost use Rattle.std.specs.declared.option.Option.{Option};

    ghost Value = { Option (List ℕ) };

    ghost view = { λ s. if s.filled then Some s.memory.value else None };
}

impl Slot {
    /// Room for a page.
    pub(crate) fn new(alloc: Global) -> Result<Slot, AllocError>
        ensures { IfOk result (λ slot. slot ≡ None) }
    {
        Ok(Slot {
            memory: Box::new(alloc, Page::zero())?,
            filled: false,
        })
    }

    /// Reads a page of a disk into its own memory.
    pub(crate) fn read<D: PageDisk>(
        alloc: Global,
        disk: &mut D,
        space: u32,
        page: u32,
    ) -> Result<Slot, Refusal>
        ensures read { IfOk result (IsRead (D.state disk.old).told space page) }
        ensures asks { Asks (D.state disk.old) (D.state disk.new) result }
    {
        let mut memory = Box::new(alloc, Page::zero())?;
        read_into(disk, space, page, memory.as_mut())?;
        Ok(Slot {
            memory,
            filled: true,
        })
    }

    /// The page that it holds, if it holds one.
    pub(crate) fn page(&self) -> Option<&Page>
        ensures { page_in result ≡ self.now }
    {
        if self.filled {
            Some(self.memory.as_ref())
        } else {
            None
        }
    }

    /// Whether it holds a page.
    pub(crate) fn is_filled(&self) -> bool
        ensures { result ≡ is_some self.now }
    {
        self.filled
    }

    /// Holds a copy of a page from now on. No memory is taken.
    pub(crate) fn fill(&mut self, page: &Page)
        ensures { self.new ≡ Some page.now }
    {
        let memory = self.memory.as_mut();
        memory.bytes_mut().copy_from_slice(page.bytes());
        self.filled = true;
    }
}

// Reads a page of a disk over another.
fn read_into<D: PageDisk>(
    disk: &mut D,
    space: u32,
    number: u32,
    into: &mut Page,
) -> Result<(), Refusal>
    ensures read { OnOk result (ForTold (D.state disk.old).told
        (λ m. GivesQuiet m space number into.new)) }
    ensures asks { Asks (D.state disk.old) (D.state disk.new) result }
{
    disk.read_page(space, number, into.bytes_mut())
}
