//! The spaces and the mark of a disk in memory.
ghost use Rattle.std.specs.Prelude.{◌≡◌, ◌<◌, ◌^◌, IfOk, OnOk, OnErr, Some, replicate, option_map, length};
ghost use Rattle.std.specs.BTreeMap.{keys};
ghost use Rattle.std.specs.FinMap as finite;
ghost use Rattle.std.specs.List.Sorted.{IsStrictlyIncreasing};
ghost use Rattle.clone_outside.specs.Disk.{page_in, with_pages, rest_written, extended, edited, zero_page};
ghost use Rattle.clone_memdisk.specs.Changes.{half_made};
ghost use Rattle.clone_memdisk.specs.Stored.{interrupted, given, IsRead};
ghost use Rattle.clone_memdisk.specs.Listed.{spaces_of};

use crate::change::Change;
use crate::space::Space;
use clone_base::PAGE_SIZE;
use clone_outside::{Held, MARK_SIZE};
use std::alloc::{AllocError, Global};
use std::collections::BTreeMap;
use std::marker::Model;

type Spaces = BTreeMap<u32, Space>;

/// The spaces by their numbers, and the mark, if there is one.
#[derive(Drop)]
pub struct Image {
    alloc: Global,
    spaces: Spaces,
    mark: Option<[u8; MARK_SIZE]>,
}

impl Model for Image {
    ghost use Rattle.clone_outside.specs.Disk.{DiskImage};
    ghost use Rattle.clone_memdisk.specs.Codes.{image_code};
    ghost use Rattle.clone_memdisk.specs.Listed.{spaces_of};

    ghost Value = { DiskImage };

    ghost coded = { image_code };

    ghost view = { λ d. record { spaces = spaces_of d.spaces.entries; mark = d.mark } };
}

impl Image {
    ghost use Rattle.clone_outside.specs.Disk.{blank, page_count, page_of, space_numbers, with_page, with_removed};
    ghost use Rattle.clone_memdisk.specs.Changes.{entry_of, made};

    /// No space and no mark.
    pub fn blank(alloc: Global) -> Image
        ensures { result ≡ blank }
    {
        Image {
            alloc,
            spaces: BTreeMap::new(alloc),
            mark: None,
        }
    }

    /// The numbers of the spaces, ascending.
    pub fn numbers(&self, alloc: Global) -> Result<Vec<u32>, AllocError>
        ensures all { IfOk result (λ all. all.items ≡ space_numbers self.now) }
        ensures ascending { IfOk result (λ all. IsStrictlyIncreasing all.items) }
    {
        numbers_of(alloc, &self.spaces)
    }

    /// How many spaces there are.
    pub fn len(&self) -> usize
        ensures len { result ≡ finite.len self.now.spaces }
        ensures small { result < 2 ^ 63 }
    {
        len_of(&self.spaces)
    }

    /// How many pages a space has, if it is there.
    pub fn pages(&self, space: u32) -> Option<u32>
        ensures { result ≡ page_count self.now space }
    {
        count_in(&self.spaces, space)
    }

    /// The mark, if there is one.
    pub fn mark(&self) -> Option<[u8; MARK_SIZE]>
        ensures { result ≡ self.now.mark }
    {
        self.mark
    }

    /// Reads a page, if it is there.
    pub fn read(&self, tear: Option<u8>, space: u32, page: u32, into: &mut [u8; PAGE_SIZE])
        ensures { IsRead tear (page_of self.now space page) into.old into.new }
    {
        read_from(&self.spaces, tear, space, page, into)
    }

    /// Opens the write of a page, if it is there.
    pub fn open(&mut self, space: u32, page: u32)
        ensures { self.new ≡ with_page self.old space page interrupted }
    {
        open_in(&mut self.spaces, space, page)
    }

    /// Takes a space away, if it is there.
    pub fn remove(&mut self, space: u32)
        ensures { self.new ≡ with_removed self.old space }
    {
        remove_in(&mut self.spaces, space)
    }

    /// Makes a change. After the first half of a page its write is open, or no write is.
    pub fn make(&mut self, change: &Change, opens: bool) -> Result<(), AllocError>
        ensures ok { OnOk result (self.new ≡ made opens (entry_of change.now) self.old) }
        ensures err { OnErr result (self.new ≡ self.old) }
    {
        match *change {
            Change::Half { space, page, from } => {
                write_half_in(&mut self.spaces, space, page, from, opens);
                Ok(())
            }
            Change::Rest { space, page, from } => {
                write_rest_in(&mut self.spaces, space, page, from);
                Ok(())
            }
            Change::Extend { space, pages } => extend_in(&mut self.spaces, space, pages),
            Change::Create { space, pages } => {
                create_in(self.alloc, &mut self.spaces, space, pages)
            }
            Change::Remove { space } => {
                remove_in(&mut self.spaces, space);
                Ok(())
            }
            Change::Mark { bytes } => {
                self.mark = Some(*bytes);
                Ok(())
            }
        }
    }
}

// The numbers of the spaces.
fn numbers_of(alloc: Global, spaces: &Spaces) -> Result<Vec<u32>, AllocError>
    ensures all { IfOk result (λ all. all.items ≡ finite.keys (spaces_of spaces.now.entries)) }
    ensures ascending { IfOk result (λ all. IsStrictlyIncreasing all.items) }
{
    let _count = spaces.len();
    listed(alloc, spaces)
}

// How many spaces there are.
fn len_of(spaces: &Spaces) -> usize
    ensures len { result ≡ finite.len (spaces_of spaces.now.entries) }
    ensures small { result < 2 ^ 63 }
{
    spaces.len()
}

// The keys of the map.
fn listed(alloc: Global, spaces: &Spaces) -> Result<Vec<u32>, AllocError>
    ensures { IfOk result (λ all. all.items ≡ keys spaces.now) }
{
    spaces.keys().copied().collect(alloc)
}

// How many pages a space has, if it is there.
#[tactic(auto, using(crate::proofs::Spaces::get_space))]
fn count_in(spaces: &Spaces, space: u32) -> Option<u32>
    ensures { result ≡ option_map length (finite.get (spaces_of spaces.now.entries) space) }
{
    match spaces.get(&space) {
        Some(pages) => Some(pages.len()),
        None => None,
    }
}

// Reads a page, if it is there.
#[tactic(auto, using(crate::proofs::Spaces::get_space))]
fn read_from(spaces: &Spaces, tear: Option<u8>, space: u32, page: u32, into: &mut [u8; PAGE_SIZE])
    ensures { IsRead tear (page_in (spaces_of spaces.now.entries) space page) into.old into.new }
{
    let Some(pages) = spaces.get(&space) else {
        return;
    };
    let Some(held) = pages.page(page) else {
        return;
    };
    give(held, tear, into);
}

// Gives what a read of a page that is there gives.
fn give(held: &Held, tear: Option<u8>, into: &mut [u8; PAGE_SIZE])
    ensures { into.new ≡ given tear held.now }
{
    match tear {
        Some(byte) if held.writing => *into = [byte; PAGE_SIZE],
        _ => *into = held.bytes,
    }
}

// Writes the first half of a page, if it is there.
fn write_half_in(spaces: &mut Spaces, space: u32, page: u32, from: &[u8; PAGE_SIZE], opens: bool)
    ensures { spaces_of spaces.new.entries
        ≡ with_pages (spaces_of spaces.old.entries) space (edited page (half_made opens from.now)) }
{
    if let Some(pages) = spaces.get_mut(&space) {
        pages.write_half(page, from, opens);
    }
}

fn write_rest_in(spaces: &mut Spaces, space: u32, page: u32, from: &[u8; PAGE_SIZE])
    ensures { spaces_of spaces.new.entries
        ≡ with_pages (spaces_of spaces.old.entries) space (edited page (rest_written from.now)) }
{
    if let Some(pages) = spaces.get_mut(&space) {
        pages.write_rest(page, from);
    }
}

fn open_in(spaces: &mut Spaces, space: u32, page: u32)
    ensures { spaces_of spaces.new.entries
        ≡ with_pages (spaces_of spaces.old.entries) space (edited page interrupted) }
{
    if let Some(pages) = spaces.get_mut(&space) {
        pages.open(page);
    }
}

// Gives a space at least so many pages, if it is there.
fn extend_in(spaces: &mut Spaces, space: u32, count: u32) -> Result<(), AllocError>
    ensures ok { OnOk result (spaces_of spaces.new.entries
        ≡ with_pages (spaces_of spaces.old.entries) space (extended count)) }
    ensures err { OnErr result (spaces_of spaces.new.entries ≡ spaces_of spaces.old.entries) }
{
    match spaces.get_mut(&space) {
        Some(pages) => pages.extend(count),
        None => Ok(()),
    }
}

// Makes a space of pages of zero bytes, in the place of one of the same number.
fn create_in(alloc: Global, spaces: &mut Spaces, space: u32, count: u32) -> Result<(), AllocError>
    ensures ok { OnOk result (spaces_of spaces.new.entries
        ≡ finite.insert (spaces_of spaces.old.entries) space (replicate count zero_page)) }
    ensures err { OnErr result (spaces_of spaces.new.entries ≡ spaces_of spaces.old.entries) }
{
    spaces.insert(space, Space::zero(alloc, count)?)?;
    Ok(())
}

fn remove_in(spaces: &mut Spaces, space: u32)
    ensures { spaces_of spaces.new.entries ≡ finite.remove (spaces_of spaces.old.entries) space }
{
    spaces.remove(&space);
}
