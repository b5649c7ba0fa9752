//! What comes up in a walk, and how often.

/// How often each of these came.
#[derive(Clone, Copy, Drop)]
pub struct Counts {
    /// Clones that were compared.
    pub clones: u64,
    /// Blocks whose end wasn't archived yet.
    pub behind: u64,
    /// Pages of the copy of files that were read while half written.
    pub torn: u64,
    /// Blocks that were read while a flush was under way.
    pub open: u64,
    /// Blocks for which the disk failed.
    pub unread: u64,
    /// Calls that were refused because the log was full, while a clone was under way.
    pub full: u64,
    /// Flushes for which the disk failed where the file was to get longer.
    pub unheld: u64,
    /// Tables that were dropped, also where the disk failed to remove the file.
    pub dropped: u64,
    /// Pages that were made behind a chain's end, by the stages in which they were: without a
    /// clone, and in the copy of files, of pages and of redo.
    pub grown: [u64; STAGES],
    /// Flushes of such pages that began, for the first time or again, likewise.
    pub flushed: [u64; STAGES],
}

// No clone, and the stages of one.
const STAGES: usize = 4;

impl Counts {
    /// Nothing came yet.
    pub fn new() -> Counts {
        Counts {
            clones: 0,
            behind: 0,
            torn: 0,
            open: 0,
            unread: 0,
            full: 0,
            unheld: 0,
            dropped: 0,
            grown: [0; STAGES],
            flushed: [0; STAGES],
        }
    }
}

/// One more came in this stage.
pub fn count_in(numbers: &mut [u64; STAGES], stage: u8) {
    if let Some(number) = numbers.get_mut(stage as usize) {
        count(number);
    }
}

/// One more came.
pub fn count(number: &mut u64) {
    *number = number.saturating_add(1);
}

/// Some came in each stage, and without a clone.
pub fn came_in_each(numbers: &[u64; STAGES]) -> bool {
    let [without, files, pages, redo] = *numbers;
    without > 0 && files > 0 && pages > 0 && redo > 0
}
