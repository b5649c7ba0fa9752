ghost use Rattle.std.specs.Prelude.{◌≡◌, ◌≤◌, ◌<◌, ◌+◌, ◌*◌};
ghost use Rattle.clone_base.specs.declared.limits.TheConstants.{CHANGE_LIMIT};
ghost use Rattle.clone_follow.specs.declared.limits.TheConstants.{CHANGE_FIELDS, MOST_CHANGE};
ghost use Rattle.clone_follow.specs.Choices.{between, only, lengths, counts, kinds, sizes};
ghost use Rattle.clone_follow.specs.Choices.{sizes_of, has_between};

use crate::limits::{CHANGE_FIELDS, COMMIT_FIELDS, MOST_CHANGE};
use clone_base::{CHANGE_LIMIT, VALUE_LIMIT};

/// The numbers that may stand in a field: the least, and those from the next up to the most.
#[derive(Clone, Copy)]
pub(crate) struct Numbers {
    least: u64,
    next: u64,
    most: u64,
}

impl Numbers {
    pub(crate) fn between(least: u64, most: u64) -> Numbers
        ensures { result ≡ between least most }
    {
        Numbers {
            least,
            next: least,
            most,
        }
    }

    pub(crate) fn only(number: u64) -> Numbers
        ensures { result ≡ only number }
    {
        Numbers::between(number, number)
    }

    /// The lengths that a payload may have, by the code.
    pub(crate) fn lengths(code: u64) -> Numbers
        ensures { result ≡ lengths code }
    {
        if code != 33 {
            return Numbers::only(8);
        }
        Numbers {
            least: COMMIT_FIELDS as u64,
            next: (COMMIT_FIELDS + CHANGE_FIELDS) as u64,
            most: (COMMIT_FIELDS + MOST_CHANGE * CHANGE_LIMIT) as u64,
        }
    }

    /// How many changes may fill so many bytes.
    pub(crate) fn counts(long: usize) -> Numbers
        ensures { result ≡ counts long }
    {
        let least = long.div_ceil(MOST_CHANGE);
        let most = CHANGE_LIMIT.min(long / CHANGE_FIELDS);
        Numbers::between(least as u64, most as u64)
    }

    /// The kinds of a change that `more` follow, all of which fill so many bytes.
    pub(crate) fn kinds(more: usize, long: usize) -> Numbers
        requires few { more < CHANGE_LIMIT }
        requires fields { CHANGE_FIELDS * (more + 1) ≤ long }
        ensures { result ≡ kinds more long }
    {
        let least = if Numbers::sizes(more, long).least == 0 {
            0
        } else {
            1
        };
        Numbers::between(least, 1)
    }

    /// How many bytes the value of a change may have that `more` follow, all of which fill so many
    /// bytes.
    pub(crate) fn sizes(more: usize, long: usize) -> Numbers
        requires few { more < CHANGE_LIMIT }
        requires fields { CHANGE_FIELDS * (more + 1) ≤ long }
        ensures { result ≡ sizes more long }
    {
        let values = long - CHANGE_FIELDS;
        let least = values.saturating_sub(MOST_CHANGE * more);
        let most = VALUE_LIMIT.min(values - CHANGE_FIELDS * more);
        Numbers::between(least as u64, most as u64)
    }

    /// The same of a change of this kind.
    pub(crate) fn sizes_of(kind: u64, more: usize, long: usize) -> Numbers
        requires few { more < CHANGE_LIMIT }
        requires fields { CHANGE_FIELDS * (more + 1) ≤ long }
        ensures { result ≡ sizes_of kind more long }
    {
        if kind == 0 {
            return Numbers::only(0);
        }
        Numbers::sizes(more, long)
    }

    /// Whether one of them lies from `low` to `high`.
    pub(crate) fn has_between(self, low: u64, high: u64) -> bool
        ensures { result ≡ has_between self low high }
    {
        let has_least = low <= self.least && self.least <= high;
        has_least || self.next.max(low) <= self.most.min(high)
    }
}
