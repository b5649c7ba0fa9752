//! The pages of a block: 1 to 8 of them, each with its space and its number. There is no list of
//! none, nor of more.
ghost use Rattle.std.specs.Prelude.{◌≡◌, ◌≤◌, length};
ghost use Rattle.clone_base.specs.declared.limits.TheConstants.{BLOCK_PAGES};

use crate::Page;
use std::marker::Model;

/// A page and where it belongs.
#[derive(Drop)]
pub struct PageAt {
    /// The space.
    pub space: u32,
    /// The page's number there.
    pub number: u32,
    /// The page.
    pub page: Page,
}

/// A list of 1 to 8 pages.
#[derive(Drop)]
pub struct Pages {
    list: Vec<PageAt>,
}

impl Model for Pages {
    ghost use Rattle.clone_base.specs.declared.limits.TheConstants.{BLOCK_PAGES};
    ghost use Rattle.std.specs.Prelude.{List, length, ◌≤◌};
    ghost use Rattle.clone_page.specs.declared.pages.PageAt.{PageAt};

    ghost Value = { List PageAt };

    ghost view = { λ p. p.list.items };

    ghost invariant = { λ p. (1 ≤ length p.list.items) × (length p.list.items ≤ BLOCK_PAGES) };
}

impl Pages {
    /// These pages.
    pub fn new(list: Vec<PageAt>) -> Pages
        requires some { 1 ≤ length list.items }
        requires few { length list.items ≤ BLOCK_PAGES }
        ensures { result ≡ list.items }
    {
        Pages { list }
    }

    /// The pages in their order.
    pub fn as_slice(&self) -> &[PageAt]
        ensures value { result.now ≡ self.now }
        ensures some { 1 ≤ length self.now }
        ensures few { length self.now ≤ BLOCK_PAGES }
    {
        &self.list
    }
}
