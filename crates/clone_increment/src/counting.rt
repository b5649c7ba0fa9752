//! Counts of pages that are made from others.
ghost use Rattle.std.specs.Prelude.{ℕ, ◌≡◌, ◌&&◌, IfOk, if◌then◌else◌, min, option_map, unwrap_or};
ghost use Rattle.std.specs.FinMap as finite;
ghost use Rattle.std.specs.FinSet as set;
ghost use Rattle.clone_increment.specs.Copies.{is_within};

use crate::changes::Changes;
use clone_base::Counts;
use std::alloc::{AllocError, Global};

/// Whether a page's number is below the count of its space.
pub(crate) fn is_within(counts: &Counts, place: (u32, u32)) -> bool
    ensures { result ≡ is_within counts.now place }
{
    match counts.get(place.0) {
        Some(count) => place.1 < count,
        None => false,
    }
}

/// The same counts once more.
pub(crate) fn copied(alloc: Global, counts: &Counts) -> Result<Counts, AllocError>
    ensures { IfOk result (λ copy. copy ≡ counts.now) }
{
    let mut copy = Counts::new(alloc);
    let list = counts.list(alloc)?;
    for entry in &list {
        copy.insert(entry.0, entry.1)?;
    }
    Ok(copy)
}

/// How many pages of each space stay: none where the space was made, and all elsewhere.
pub(crate) fn staying(
    alloc: Global,
    sizes: &Counts,
    changes: &Changes,
) -> Result<Counts, AllocError>
    ensures { IfOk result (λ stay. (space : ℕ) → finite.get stay space
        ≡ option_map (λ size. if set.contains changes.now.made space then 0 else size)
        (finite.get sizes.now space)) }
{
    let mut stay = Counts::new(alloc);
    let list = sizes.list(alloc)?;
    for entry in &list {
        stay.insert(entry.0, staying_in(changes, entry.0, entry.1))?;
    }
    Ok(stay)
}

fn staying_in(changes: &Changes, space: u32, size: u32) -> u32
    ensures { result ≡ (if set.contains changes.now.made space then 0 else size) }
{
    if changes.has_made(space) { 0 } else { size }
}

/// How many pages of each space stay that stay by both counts.
pub(crate) fn staying_by_both(
    alloc: Global,
    first: &Counts,
    second: &Counts,
) -> Result<Counts, AllocError>
    ensures { IfOk result (λ stay. (place : ℕ × ℕ) → is_within stay place
        ≡ (is_within first.now place && is_within second.now place)) }
{
    let mut stay = Counts::new(alloc);
    let list = second.list(alloc)?;
    for entry in &list {
        stay.insert(entry.0, at_most(first, entry.0, entry.1))?;
    }
    Ok(stay)
}

// The count, or that of the others where it is less.
fn at_most(others: &Counts, space: u32, count: u32) -> u32
    ensures { result ≡ min count (unwrap_or (finite.get others.now space) 0) }
{
    count.min(others.get(space).unwrap_or(0))
}
