ghost use Rattle.std.specs.Prelude.{◌≡◌, ℕ, List, Ok, Result};
ghost use Rattle.std.specs.declared.alloc.AllocError.{AllocError};
ghost use Rattle.clone_outside.specs.Disk.{DiskImage, half_written, rest_written, with_created, with_extended, with_mark, with_removed};
ghost use Rattle.clone_outside.specs.DiskCalls.{DiskState, Orders, Reads, Syncs, Takes, Writes};
ghost use Rattle.clone_outside.specs.Stops as change;
ghost use Rattle.clone_outside.specs.declared.Refusal.{Refusal};
ghost use Rattle.clone_outside.specs.declared.disk.DiskOrder.{DiskOrder};
ghost use Rattle.clone_increment.specs.Copies.{Copy, IsImageOf};
ghost use Rattle.clone_increment.specs.Histories.{ChangedOnly, IsHistory, Round, all_applied, last_image};
ghost use Rattle.clone_increment.specs.Increments.{AreSame, Delta, IsMerged, applied};
ghost use Rattle.clone_increment.specs.Noting.{ForBothTold, IsNoted, NoneReturns, both, with_first_written};
ghost use Rattle.clone_increment.specs.Tracked.{Changed, IsTaken, no_changes, with_made, with_written};

/// Where a disk changed only where that was noted, a full copy to which increments are applied in
/// order is the disk's image at the last of them, page for page.
pub fn increment_laws()
    ensures one { (copy : Copy) (old new : DiskImage) (changed : Changed) (delta : Delta)
        → IsImageOf copy old → ChangedOnly changed old new → IsTaken changed new delta
        → IsImageOf (applied copy delta) new }
    ensures all { (copy : Copy) (image : DiskImage) (rounds : List Round)
        → IsImageOf copy image → IsHistory image rounds
        → IsImageOf (all_applied copy rounds) (last_image image rounds) }
{}

/// Two increments as one make of a copy what the first makes of it and then the second.
pub fn merge_laws()
    ensures { (copy : Copy) (first second both : Delta) → IsMerged first second both
        → AreSame (applied copy both) (applied (applied copy first) second) }
{}

/// A call that only reads changes nothing, and nor does a sync, or an order that isn't the one to go
/// on after a stop.
pub fn still_laws()
    ensures read { (old new : DiskState) → Reads ⊥ old new
        → ForBothTold (IsNoted no_changes) old.told new.told }
    ensures sync { (old new : DiskState) (result : Result (Unit {0}) Refusal)
        → Syncs old new result → ForBothTold (IsNoted no_changes) old.told new.told }
    ensures order { (order : DiskOrder) (old new : DiskState)
        (result : Result (Unit {0}) AllocError) → Orders order old new result
        → ForBothTold (IsNoted no_changes) old.told new.told }
{}

/// A write of half a page changes that page alone, whatever it is answered.
pub fn write_laws()
    ensures half { (old new : DiskState) (space number : ℕ) (from : List ℕ)
        (result : Result (Unit {0}) Refusal)
        → Writes change.WriteHalf space number (half_written from) old new result
        → ForBothTold (IsNoted (with_written no_changes (space, number))) old.told new.told }
    ensures rest { (old new : DiskState) (space number : ℕ) (from : List ℕ)
        (result : Result (Unit {0}) Refusal)
        → Writes change.WriteRest space number (rest_written from) old new result
        → ForBothTold (IsNoted (with_written no_changes (space, number))) old.told new.told }
{}

/// A space that gets longer has new pages of zero bytes, and nothing else changes, whatever the
/// call is answered. Where a space was made all of its pages have zero bytes, and where the call
/// that was to make it failed no page changed but its own. No page appears when a space is removed
/// or a mark is written, and none changes.
pub fn space_laws()
    ensures extend { (old new : DiskState) (space count : ℕ) (result : Result (Unit {0}) Refusal)
        → Takes (change.Extend space count) (λ m. with_extended m space count) old new result
        → ForBothTold (ChangedOnly no_changes) old.told new.told }
    ensures made { (old new : DiskState) (space count : ℕ) (done : Unit {0})
        → Takes (change.Create space count) (λ m. with_created m space count) old new (Ok done)
        → ForBothTold (IsNoted (with_made no_changes space)) old.told new.told }
    ensures create { (old new : DiskState) (space count : ℕ) (result : Result (Unit {0}) Refusal)
        → Takes (change.Create space count) (λ m. with_created m space count) old new result
        → ForBothTold (IsNoted (with_first_written no_changes space count)) old.told new.told }
    ensures remove { (old new : DiskState) (space : ℕ) (result : Result (Unit {0}) Refusal)
        → Takes (change.Remove space) (λ m. with_removed m space) old new result
        → ForBothTold (IsNoted no_changes) old.told new.told }
    ensures mark { (old new : DiskState) (mark : List ℕ) (result : Result (Unit {0}) Refusal)
        → Takes (change.WriteMark mark) (λ m. with_mark m mark) old new result
        → ForBothTold (IsNoted no_changes) old.told new.told }
{}

/// What was noted of one call and what was noted of the next are noted of both, where no page comes
/// back. A page or a space that is noted joins what was noted before.
pub fn note_laws()
    ensures both { (first second : Changed) (old mid new : DiskImage) → ChangedOnly first old mid
        → ChangedOnly second mid new → NoneReturns (both first second) old mid new
        → ChangedOnly (both first second) old new }
    ensures none { (changed : Changed) → both changed no_changes ≡ changed }
    ensures written { (first second : Changed) (place : ℕ × ℕ)
        → both first (with_written second place) ≡ with_written (both first second) place }
    ensures made { (first second : Changed) (space : ℕ)
        → both first (with_made second space) ≡ with_made (both first second) space }
{}
