//! Behind the pages of a block its array has zeros, so that the list of the pages gives the array
//! back, and a block can be copied.
ghost use Rattle.std.specs.Prelude.{◌≡◌, ◌≤◌, ◌<◌, ◌+◌, ◌^◌, length, slice_get};
ghost use Rattle.clone_snapshot.specs.StageLists.{run};
ghost use Rattle.clone_base.specs.declared.limits.TheConstants.{BLOCK_PAGES};

use crate::span::Span;
use clone_base::BLOCK_PAGES;
use std::marker::Model;

/// The pages of a block, each as its space and its number there. Contracts see their list.
#[derive(Clone, Copy)]
pub struct PageBlock {
    pages: [(u32, u32); BLOCK_PAGES],
    count: usize,
}

impl Model for PageBlock {
    ghost use Rattle.std.specs.Prelude.{ℕ, List, take, length};
    ghost use Rattle.clone_snapshot.specs.Blocks.{IsFilled, filled, filled-take, length_taken};

    ghost Value = { List (ℕ × ℕ) };

    ghost view = { λ b. take b.count b.pages };

    ghost invariant = { λ b. IsFilled b.pages b.count };

    ghost inverse = { λ pages. record { pages = filled pages; count = length pages } };

    ghost inverse_ok = { λ b h i. record {
      pages = filled-take b.pages b.count h i;
      count = length_taken b.pages b.count h i;
    } };
}

impl PageBlock {
    /// These pages.
    pub(crate) fn of(pages: &[(u32, u32)]) -> PageBlock
        requires { length pages.now ≤ BLOCK_PAGES }
        ensures { result ≡ pages.now }
    {
        let mut kept = [(0, 0); BLOCK_PAGES];
        kept[..pages.len()].copy_from_slice(pages);
        PageBlock {
            pages: kept,
            count: pages.len(),
        }
    }

    /// The pages of a space that have these numbers.
    pub(crate) fn run(space: u32, numbers: Span) -> PageBlock
        requires few { numbers.count ≤ BLOCK_PAGES }
        requires numbered { numbers.first + numbers.count ≤ 2 ^ 32 }
        ensures { result ≡ run space numbers.first numbers.count }
    {
        let mut pages = [(0, 0); BLOCK_PAGES];
        let count = numbers.count as usize;
        for (index, page) in pages[..count].iter_mut().enumerate() {
            *page = (space, numbers.first as u32 + index as u32);
        }
        PageBlock { pages, count }
    }

    /// How many pages it has.
    pub fn len(&self) -> usize
        ensures count { result ≡ length self.now }
        ensures few { result ≤ BLOCK_PAGES }
    {
        self.count
    }

    /// The page at an index, counted from 0, if there is one.
    pub fn get(&self, index: usize) -> Option<(u32, u32)>
        ensures { result ≡ slice_get self.now index }
    {
        self.as_slice().get(index).copied()
    }

    /// Its pages.
    pub fn as_slice(&self) -> &[(u32, u32)]
        ensures { result.now ≡ self.now }
    {
        &self.pages[..self.count]
    }
}

/// A block of redo: so many bytes of the log, from this LSN on.
#[derive(Clone, Copy, Debug, PartialEq, Eq)]
pub struct RedoBlock {
    /// The LSN of its first byte.
    pub from: u64,
    /// How many bytes it has.
    pub length: u32,
}
