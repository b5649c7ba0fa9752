/// How many bytes a page has.
pub const PAGE_SIZE: usize = 4_096;

/// The LSN at which the log begins.
pub const FIRST_LSN: u64 = 8_192;

/// Each log ends below this LSN.
pub const LSN_LIMIT: u64 = 1 << 39;

/// How many bytes the value of a row may have.
pub const VALUE_LIMIT: usize = 64;

/// How many tables there may be.
pub const TABLE_LIMIT: usize = 62;

/// How many transactions may be open. Their numbers are below it.
pub const TRANSACTION_LIMIT: u32 = 64;

/// How many changes a transaction may have.
pub const CHANGE_LIMIT: usize = 160;

/// How many tasks may copy one clone. There is at least one.
pub const MOST_TASKS: usize = 16;

/// The highest number of losses that a clone may be let off.
pub const MOST_LOSSES: u32 = 100;

/// The space of a recipient's disk that holds the redo bytes. It and the spaces behind it are no
/// tables.
pub const REDO_SPACE: u32 = 0xFFFF_FF00;

/// How many pages a block of a clone has at most.
pub const BLOCK_PAGES: usize = 8;

/// How many bytes of redo a block of a clone has at most.
pub const BLOCK_BYTES: usize = 16_384;

/// How many spaces there may be: those of the tables, and the system space.
pub const SPACE_LIMIT: usize = TABLE_LIMIT + 1;
