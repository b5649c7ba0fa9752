//! The numbers of lines in their ranges: a table is from 1 to 1,000,000, and a number of buckets
//! is from 1 to 1,024. No value of these types is outside its range.
ghost use Rattle.std.specs.Prelude.{◌≡◌, ◌≤◌, ◌<◌, ◌⊎◌, IfSome, IfNone};

use std::marker::Model;

/// The highest number of a table. The lowest is 1.
pub const HIGHEST_TABLE: u32 = 1_000_000;

/// The most buckets that a table may have. It has at least one.
pub const MOST_BUCKETS: u32 = 1_024;

/// The most pages that a space may have. Their numbers are below it.
pub const MOST_PAGES: u32 = 65_536;

/// The highest number of a call that a line may let fail. The lowest is 1.
pub const MOST_CALLS: u32 = 1_000_000;

/// The number of a table, from 1 to 1,000,000.
#[derive(Clone, Copy, Debug, PartialEq, Eq)]
pub struct TableNumber {
    number: u32,
}

impl Model for TableNumber {
    ghost use Rattle.std.specs.Prelude.{ℕ, ◌≤◌};
    ghost use Rattle.clone_model.specs.declared.line.TheConstants.{HIGHEST_TABLE};

    ghost Value = { ℕ };

    ghost view = { λ t. t.number };

    ghost invariant = { λ t. (1 ≤ t.number) × (t.number ≤ HIGHEST_TABLE) };

    ghost inverse = { λ n. record { number = n } };
}

impl TableNumber {
    /// The table of this number, or none where it is out of range.
    pub fn new(number: u32) -> Option<TableNumber>
        ensures some { IfSome result (λ t. t ≡ number) }
        ensures none { IfNone result ((number ≡ 0) ⊎ (HIGHEST_TABLE < number)) }
    {
        if number == 0 || number > HIGHEST_TABLE {
            return None;
        }
        Some(TableNumber { number })
    }

    /// The number itself.
    pub fn get(self) -> u32
        ensures value { result ≡ self }
        ensures low { 1 ≤ self }
        ensures high { self ≤ HIGHEST_TABLE }
    {
        self.number
    }
}

/// A number of buckets, from 1 to 1,024.
#[derive(Clone, Copy, Debug, PartialEq, Eq)]
pub struct BucketCount {
    count: u32,
}

impl Model for BucketCount {
    ghost use Rattle.std.specs.Prelude.{ℕ, ◌≤◌};
    ghost use Rattle.clone_model.specs.declared.line.TheConstants.{MOST_BUCKETS};

    ghost Value = { ℕ };

    ghost view = { λ b. b.count };

    ghost invariant = { λ b. (1 ≤ b.count) × (b.count ≤ MOST_BUCKETS) };

    ghost inverse = { λ n. record { count = n } };
}

impl BucketCount {
    /// So many buckets, or none where that is out of range.
    pub fn new(count: u32) -> Option<BucketCount>
        ensures some { IfSome result (λ b. b ≡ count) }
        ensures none { IfNone result ((count ≡ 0) ⊎ (MOST_BUCKETS < count)) }
    {
        if count == 0 || count > MOST_BUCKETS {
            return None;
        }
        Some(BucketCount { count })
    }

    /// The number itself.
    pub fn get(self) -> u32
        ensures value { result ≡ self }
        ensures low { 1 ≤ self }
        ensures high { self ≤ MOST_BUCKETS }
    {
        self.count
    }
}
