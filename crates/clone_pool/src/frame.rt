//! A frame of the pool. Without a page it is neither pinned nor dirty, and was never used; with
//! one it was. A frame that is set aside for a page has none until that is loaded. A new page is
//! pinned, and clean until a change makes it. Only a dirty page has a flush, which is under way or
//! failed. The pool keeps this rule of each of its frames.
ghost use Rattle.std.specs.Prelude.{◌≡◌, ◌<◌, ◌-◌, ◌^◌};
ghost use Rattle.clone_pool.specs.Index.{is_same};
ghost use Rattle.clone_pool.specs.Frames.{no_frame, name_of, claim_of, is_dirty, is_loading, may_go, is_waiting, is_begun, is_fresh, counts_as_open, open_page, left_in, made, noted, later_in, touched, aside_for, pinned, unpinned, freshened, changed, begun, landed, failed, discarded};

use clone_mtr::Record;
use clone_page::Page;

/// Which page it is: its space, and its number there.
#[derive(Clone, Copy, Debug, PartialEq, Eq)]
pub struct PageName {
    pub space: u32,
    pub number: u32,
}

/// What a frame holds.
#[derive(Clone, Copy, Debug, PartialEq, Eq)]
pub enum Content {
    /// No page.
    Unused,
    /// A new page past the end of its file, which no change has made yet.
    Fresh(PageName),
    /// A page.
    Held(PageName),
    /// No page yet. The frame is set aside for this one.
    Loading(PageName),
}

/// How far the write of a page to the disk is.
#[derive(Clone, Copy, Debug, PartialEq, Eq)]
pub enum Flush {
    /// None is under way.
    Idle,
    /// One has begun. `later` is the LSN at which the first change after that begins.
    Begun { later: Option<u64> },
    /// The last one failed.
    Failed,
}

/// A page in memory, or no page.
#[derive(Drop)]
pub struct Frame {
    /// What it holds.
    pub content: Content,
    /// The page as it is now.
    pub page: Page,
    /// The LSN at which the oldest change begins that isn't on the disk. A page that has one is
    /// dirty.
    pub oldest: Option<u64>,
    /// The write to the disk. Only a dirty page has one.
    pub flush: Flush,
    /// How many pins hold the page.
    pub pins: u32,
    /// The number of the last use, or 0 without a page.
    pub last_use: u64,
}

impl PageName {
    /// Whether this is the name of the same page.
    pub(crate) fn is(self, other: PageName) -> bool
        ensures { result ≡ is_same self other }
    {
        self.space == other.space && self.number == other.number
    }
}

impl Frame {
    pub(crate) fn unused() -> Frame
        ensures { result ≡ no_frame }
    {
        Frame {
            content: Content::Unused,
            page: Page::zero(),
            oldest: None,
            flush: Flush::Idle,
            pins: 0,
            last_use: 0,
        }
    }

    /// The page that it holds, if it holds one.
    pub fn name(&self) -> Option<PageName>
        ensures { result ≡ name_of self.now }
    {
        match self.content {
            Content::Unused | Content::Loading(_) => None,
            Content::Fresh(name) | Content::Held(name) => Some(name),
        }
    }

    // The page that it holds or is set aside for.
    pub(crate) fn claim(&self) -> Option<PageName>
        ensures { result ≡ claim_of self.now }
    {
        match self.content {
            Content::Unused => None,
            Content::Fresh(name) | Content::Held(name) | Content::Loading(name) => Some(name),
        }
    }

    // Whether it is set aside for a page that is to be loaded.
    pub(crate) fn is_loading(&self) -> bool
        ensures { result ≡ is_loading self.now.content }
    {
        match self.content {
            Content::Loading(_) => true,
            Content::Unused | Content::Fresh(_) | Content::Held(_) => false,
        }
    }

    /// Whether its page has a change that isn't on the disk.
    pub fn is_dirty(&self) -> bool
        ensures { result ≡ is_dirty self.now }
    {
        self.oldest.is_some()
    }

    /// Whether a flush of its page has begun, and has neither landed nor failed.
    pub fn is_in_flight(&self) -> bool
        ensures { result ≡ is_begun self.now.flush }
    {
        is_begun(self.flush)
    }

    /// Whether its page is a new one that no change has made yet.
    pub fn is_new(&self) -> bool
        ensures { result ≡ is_fresh self.now.content }
    {
        is_fresh(self.content)
    }

    /// Whether the write of its page counts as open: a flush has begun, and has not landed since.
    pub fn counts_as_open(&self) -> bool
        ensures { result ≡ counts_as_open self.now.flush }
    {
        match self.flush {
            Flush::Idle => false,
            Flush::Begun { .. } | Flush::Failed => true,
        }
    }

    // Its page, by the space and the number there, if the write of the page counts as open.
    pub(crate) fn open_page(&self) -> Option<(u32, u32)>
        ensures { result ≡ open_page self.now }
    {
        if !self.counts_as_open() {
            return None;
        }
        let name = self.name()?;
        Some((name.space, name.number))
    }

    // Whether it may make way for another page.
    pub(crate) fn may_go(&self) -> bool
        ensures { result ≡ may_go self.now }
    {
        self.pins == 0 && !self.is_dirty() && !self.is_loading()
    }

    // Whether its page is dirty, and no flush of it is under way.
    pub(crate) fn is_waiting(&self) -> bool
        ensures { result ≡ is_waiting self.now }
    {
        self.is_dirty() && !is_begun(self.flush)
    }

    pub(crate) fn touch(&mut self, number: u64)
        ensures { self.new ≡ touched number self.old }
    {
        self.last_use = number;
    }

    pub(crate) fn pin(&mut self)
        requires { self.old.pins < 2 ^ 32 - 1 }
        ensures { self.new ≡ pinned self.old }
    {
        self.pins += 1;
    }

    pub(crate) fn unpin(&mut self)
        requires { 0 < self.old.pins }
        ensures { self.new ≡ unpinned self.old }
    {
        self.pins -= 1;
        if self.pins == 0 && is_fresh(self.content) {
            self.content = Content::Unused;
            self.last_use = 0;
        }
    }

    pub(crate) fn change(&mut self, entry: &Record, start: u64, end: u64)
        ensures { self.new ≡ changed entry.now start end self.old }
    {
        clone_mtr::apply(entry, &mut self.page, end);
        self.content = made(self.content);
        self.oldest = Some(self.oldest.unwrap_or(start));
        self.flush = noted(self.flush, start);
    }

    pub(crate) fn freshen(&mut self, name: PageName, number: u64)
        ensures { self.new ≡ freshened name number self.old }
    {
        self.content = Content::Fresh(name);
        self.page = Page::zero();
        self.pins = 1;
        self.last_use = number;
    }

    pub(crate) fn set_aside(&mut self, name: PageName)
        ensures { self.new ≡ aside_for name self.old }
    {
        self.content = Content::Loading(name);
        self.last_use = 0;
    }

    pub(crate) fn discard(&mut self)
        ensures { self.new ≡ discarded self.old }
    {
        self.content = Content::Unused;
        self.oldest = None;
        self.flush = Flush::Idle;
        self.last_use = 0;
    }

    pub(crate) fn begin_flush(&mut self)
        ensures { self.new ≡ begun self.old }
    {
        self.flush = Flush::Begun { later: None };
    }

    pub(crate) fn fail_flush(&mut self)
        ensures { self.new ≡ failed self.old }
    {
        self.flush = Flush::Failed;
    }

    pub(crate) fn land_flush(&mut self)
        ensures { self.new ≡ landed self.old }
    {
        self.oldest = later_in(self.flush);
        self.flush = Flush::Idle;
    }
}

fn is_begun(flush: Flush) -> bool
    ensures { result ≡ is_begun flush }
{
    match flush {
        Flush::Begun { .. } => true,
        Flush::Idle | Flush::Failed => false,
    }
}

fn is_fresh(content: Content) -> bool
    ensures { result ≡ is_fresh content }
{
    match content {
        Content::Fresh(_) => true,
        Content::Unused | Content::Held(_) | Content::Loading(_) => false,
    }
}

// What a frame has once a read into it failed.
pub(crate) fn left_in(content: Content) -> Content
    ensures { result ≡ left_in content }
{
    match content {
        Content::Loading(name) => Content::Loading(name),
        Content::Unused | Content::Fresh(_) | Content::Held(_) => Content::Unused,
    }
}

// A change makes a new page.
fn made(content: Content) -> Content
    ensures { result ≡ made content }
{
    match content {
        Content::Fresh(name) => Content::Held(name),
        other => other,
    }
}

// The first change after a flush began.
fn noted(flush: Flush, start: u64) -> Flush
    ensures { result ≡ noted start flush }
{
    match flush {
        Flush::Begun { later } => Flush::Begun {
            later: Some(later.unwrap_or(start)),
        },
        other => other,
    }
}

fn later_in(flush: Flush) -> Option<u64>
    ensures { result ≡ later_in flush }
{
    match flush {
        Flush::Begun { later } => later,
        Flush::Idle | Flush::Failed => None,
    }
}
