/// The highest number that a space of a STAGE or of a copied page may have.
pub const MOST_SPACE: u32 = 1_000_000;

/// How many pages PAGE COPY may have: as many as 63 spaces of 65,536 pages.
pub const MOST_COPIED: u64 = 4_128_768;
