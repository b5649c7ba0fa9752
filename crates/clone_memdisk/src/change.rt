//! The changes of a disk in memory, as they are made and as they are kept.
ghost use Rattle.std.specs.Prelude.{◌≡◌, option_map};
ghost use Rattle.clone_memdisk.specs.Changes.{entry_of, kept, first_half, filled};

use clone_base::PAGE_SIZE;
use clone_outside::MARK_SIZE;

/// A stop with this choice keeps nothing that was changed since the last sync.
pub const NOTHING: u8 = 0;

/// All of it.
pub const ALL: u8 = 1;

/// All but the other halves of pages.
pub const FIRST_HALVES: u8 = 2;

/// All, with the byte 255 in each half of a page.
pub const FILLED: u8 = 3;

// What a half page has that was written, where a stop fills it.
const FILL: &[u8; PAGE_SIZE] = &[255; PAGE_SIZE];

/// A change, whose bytes are lent.
#[derive(Clone, Copy)]
pub enum Change<'a> {
    /// The first half of a page is written.
    Half {
        space: u32,
        page: u32,
        from: &'a [u8; PAGE_SIZE],
    },
    /// The other half of a page is written.
    Rest {
        space: u32,
        page: u32,
        from: &'a [u8; PAGE_SIZE],
    },
    /// A space has at least so many pages.
    Extend {
        space: u32,
        pages: u32,
    },
    /// A space is made, with so many pages of zero bytes.
    Create {
        space: u32,
        pages: u32,
    },
    /// A space is gone.
    Remove {
        space: u32,
    },
    /// These bytes are the mark.
    Mark {
        bytes: &'a [u8; MARK_SIZE],
    },
}

/// A change that is kept.
#[derive(Drop)]
pub enum Entry {
    Half {
        space: u32,
        page: u32,
        from: [u8; PAGE_SIZE],
    },
    Rest {
        space: u32,
        page: u32,
        from: [u8; PAGE_SIZE],
    },
    Extend {
        space: u32,
        pages: u32,
    },
    Create {
        space: u32,
        pages: u32,
    },
    Remove {
        space: u32,
    },
    Mark {
        bytes: [u8; MARK_SIZE],
    },
}

impl Entry {
    /// Keeps a change.
    pub fn of(change: &Change) -> Entry
        ensures { result ≡ entry_of change.now }
    {
        match *change {
            Change::Half { space, page, from } => Entry::Half {
                space,
                page,
                from: *from,
            },
            Change::Rest { space, page, from } => Entry::Rest {
                space,
                page,
                from: *from,
            },
            Change::Extend { space, pages } => Entry::Extend { space, pages },
            Change::Create { space, pages } => Entry::Create { space, pages },
            Change::Remove { space } => Entry::Remove { space },
            Change::Mark { bytes } => Entry::Mark { bytes: *bytes },
        }
    }

    /// The change.
    pub fn change(&self) -> Change<'_>
        ensures { entry_of result ≡ self.now }
    {
        match self {
            Entry::Half { space, page, from } => Change::Half {
                space: *space,
                page: *page,
                from,
            },
            Entry::Rest { space, page, from } => Change::Rest {
                space: *space,
                page: *page,
                from,
            },
            Entry::Extend { space, pages } => Change::Extend {
                space: *space,
                pages: *pages,
            },
            Entry::Create { space, pages } => Change::Create {
                space: *space,
                pages: *pages,
            },
            Entry::Remove { space } => Change::Remove { space: *space },
            Entry::Mark { bytes } => Change::Mark { bytes },
        }
    }
}

/// What a stop with this choice keeps of a change.
pub fn kept(choice: u8, change: Change<'_>) -> Option<Change<'_>>
    ensures { option_map entry_of result ≡ kept choice (entry_of change.entry) }
{
    match choice {
        NOTHING => None,
        FIRST_HALVES => first_half(change),
        FILLED => Some(filled(change)),
        _ => Some(change),
    }
}

// The change, unless it is of the other half of a page.
fn first_half(change: Change<'_>) -> Option<Change<'_>>
    ensures { option_map entry_of result ≡ first_half (entry_of change.entry) }
{
    match change {
        Change::Rest { .. } => None,
        _ => Some(change),
    }
}

// The change, with other bytes where it is of half a page.
fn filled(change: Change<'_>) -> Change<'_>
    ensures { entry_of result ≡ filled (entry_of change.entry) }
{
    match change {
        Change::Half { space, page, .. } => Change::Half {
            space,
            page,
            from: FILL,
        },
        Change::Rest { space, page, .. } => Change::Rest {
            space,
            page,
            from: FILL,
        },
        _ => change,
    }
}
