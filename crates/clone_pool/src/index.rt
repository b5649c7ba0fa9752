//! The frame numbers of names, found by a hash.
//!
//! Each bucket has a chain of the frames whose names fall into it, in ascending order. With n
//! frames there are n + 1 buckets and 2n + 1 cells. Cell i has the number of the frame that follows
//! frame i in its chain, and cell n + b that of the first frame of bucket b; n stands for the end
//! of a chain.
ghost use Rattle.std.specs.Prelude.{◌≡◌, ◌<◌, ◌≤◌, ◌+◌, ◌^◌, true, None, Some, IfOk, length, get_or, replicate, slice_set};
ghost use Rattle.clone_pool.specs.Index.{frame_number_of, is_name_of, bucket_of, IsIndex, LeadsTo};

use crate::PageName;
use std::alloc::{AllocError, Global};
use std::marker::Model;

// By what the number of a space is multiplied, so that the pages of several spaces mix.
const SPREAD: u64 = 0x9E37_79B1;

/// Names of pages by frame numbers.
#[derive(Drop)]
pub struct Index {
    names: Vec<Option<PageName>>,
    cells: Vec<u32>,
}

impl Model for Index {
    ghost use Rattle.std.specs.Prelude.{length};
    ghost use Rattle.clone_pool.specs.Index.{Names, IsIndex};

    ghost Value = { Names };

    ghost view = { λ i. i.names.items };

    ghost invariant = { λ i. IsIndex (length i.names.items) i.names.items i.cells.items };
}

impl Index {
    /// So many frames without a name. No later call takes memory.
    pub fn new(alloc: Global, count: u32) -> Result<Index, AllocError>
        ensures { IfOk result (λ index. index ≡ replicate count None) }
    {
        let mut names = Vec::with_capacity(alloc, count as usize)?;
        for _ in 0..count {
            names.push(None)?;
        }
        let cells = Vec::from_elem(alloc, count, 2 * count as usize + 1)?;
        Ok(Index { names, cells })
    }

    /// The number of the first frame that has the page's name.
    pub fn find(&self, page: PageName) -> Option<usize>
        ensures { result ≡ frame_number_of page self.now }
    {
        let count = self.names.len();
        let mut at = self.cells[count + bucket_of(page, count)] as usize;
        while at < count {
            if has_name(self.names[at], page) {
                return Some(at);
            }
            at = self.cells[at] as usize;
        }
        None
    }

    /// Gives a frame this name, or none.
    pub fn set(&mut self, at: usize, name: Option<PageName>)
        requires { at < length self.old }
        ensures { self.new ≡ slice_set self.old at name }
    {
        if is_unchanged(self.names[at], name) {
            return;
        }
        self.unlink(at);
        if let Some(name) = name {
            self.link(at, name);
        }
    }

    // Takes a frame out of the chain that it is in, if it has a name.
    fn unlink(&mut self, at: usize)
        requires { at < length self.old }
        ensures { self.new ≡ slice_set self.old at None }
    {
        let Some(name) = self.names[at] else {
            return;
        };
        let cell = cell_before(&self.names, &self.cells, name, at);
        self.cells[cell] = self.cells[at];
        self.names[at] = None;
    }

    // Puts a frame without a name into the chain of this one.
    fn link(&mut self, at: usize, name: PageName)
        requires at { at < length self.old }
        requires unnamed { get_or self.old at None ≡ None }
        ensures { self.new ≡ slice_set self.old at (Some name) }
    {
        let cell = cell_before(&self.names, &self.cells, name, at);
        self.cells[at] = self.cells[cell];
        self.cells[cell] = at as u32;
        self.names[at] = Some(name);
    }
}

// The cell, of those of a name's chain, that leads to this frame or past it.
fn cell_before(names: &[Option<PageName>], cells: &[u32], name: PageName, at: usize) -> usize
    requires index { IsIndex (length names.now) names.now cells.now }
    requires at { at < length names.now }
    ensures leads { LeadsTo (length names.now) names.now cells.now
        (bucket_of (length names.now) name) at result }
    ensures bucket { bucket_of (length names.now) name ≤ length names.now }
    ensures within { result < length cells.now }
{
    let mut cell = names.len() + bucket_of(name, names.len());
    while (cells[cell] as usize) < at {
        cell = cells[cell] as usize;
    }
    cell
}

// The bucket of a page, where there are so many buckets and one more.
#[tactic(auto, unfolding(crate::specs::Index::bucket_of))]
fn bucket_of(page: PageName, count: usize) -> usize
    requires { count < 2 ^ 32 }
    ensures value { result ≡ bucket_of count page }
    ensures within { result ≤ count }
{
    let mixed = u64::from(page.space) * SPREAD + u64::from(page.number);
    (mixed % (count as u64 + 1)) as usize
}

// Whether a name is there, and is this page's.
fn has_name(name: Option<PageName>, page: PageName) -> bool
    ensures { result ≡ is_name_of page name }
{
    match name {
        Some(name) => page.is(name),
        None => false,
    }
}

// Whether two are the same name, or no name.
fn is_unchanged(old: Option<PageName>, new: Option<PageName>) -> bool
    ensures { result ≡ true → old ≡ new }
{
    match new {
        Some(name) => has_name(old, name),
        None => old.is_none(),
    }
}
