use clone_base::PAGE_SIZE;
use clone_chunk::{MOST_CHUNKS, MOST_PARTIAL};

/// The bytes of a frame's code and length.
pub const HEAD_BYTES: usize = 5;

/// The most bytes of a bitmap, which has 8 chunks a byte.
pub const MOST_BITMAP: usize = MOST_CHUNKS as usize / 8;

/// The bytes of REINIT's fields before the bitmap.
pub const REINIT_FIELDS: usize = 17;

/// The bytes of REINIT2's fields without the bitmap and the partial chunks.
pub const REINIT2_FIELDS: usize = 21;

/// The bytes of a partial chunk.
pub const PARTIAL_BYTES: usize = 5;

/// The most bytes of a bitmap and of partial chunks.
pub const MOST_TAKEN: usize = MOST_BITMAP + PARTIAL_BYTES * MOST_PARTIAL;

/// The bytes of STAGE's fields before the spaces.
pub const STAGE_FIELDS: usize = 43;

/// The bytes of PAGES's fields before the pages.
pub const PAGES_FIELDS: usize = 19;

/// The bytes of REDO's fields before the redo.
pub const REDO_FIELDS: usize = 30;

/// The bytes of a space and its number of pages.
pub const SPACE_BYTES: usize = 8;

/// The bytes of a page with its space and its number.
pub const PAGE_AT_BYTES: usize = 8 + PAGE_SIZE;
