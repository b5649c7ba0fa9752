ghost use Rattle.std.specs.Prelude.{◌≡◌, ◌≢◌, ◌≤◌, ◌<◌, ◌+◌, ◌%◌, ◌^◌, List, [], ◌∷◌, ◌++◌, ℕ, Bool, true, false, length, None, Some};
ghost use Rattle.std.specs.List.{AllByRecursion};
ghost use Rattle.clone_page.specs.Header.{zero_page};
ghost use Rattle.clone_undo.specs.Entries.{UndoEntry, IsEntry};
ghost use Rattle.clone_undo.specs.Places as places;
ghost use Rattle.clone_undo.specs.Slots.{UndoSlot, count_of, entry_on, undo_slot};
ghost use Rattle.clone_undo.specs.Changes.{AreWhole, after, after_row, records_of_begin, records_of_change, records_of_taking_back, records_of_end, slot_before};

/// What the pages of an undo slot tell of it.
pub fn slot_laws()
    // Only its own four pages tell of a slot.
    ensures own { (s : ℕ) (p q : ℕ → List ℕ)
        → ((m : ℕ) → places.header_page s ≤ m → m < places.header_page s + 4 → p m ≡ q m)
        → undo_slot s p ≡ undo_slot s q }
    ensures count { (s : ℕ) (pages : ℕ → List ℕ) (slot : UndoSlot) → undo_slot s pages ≡ Some slot
        → count_of (pages (places.header_page s)) ≡ length slot.records }
    ensures last { (s : ℕ) (pages : ℕ → List ℕ) (slot : UndoSlot) (front : List UndoEntry)
        (last : UndoEntry) → undo_slot s pages ≡ Some slot → slot.records ≡ front ++ last ∷ []
        → last ≡ entry_on (length front) (pages (places.record_page s (length front))) }

    // Where the page of the next record is unused, that record is the first on a later page of the
    // slot.
    ensures unused { (s : ℕ) (pages : ℕ → List ℕ) (slot : UndoSlot) → undo_slot s pages ≡ Some slot
        → AllByRecursion IsEntry slot.records
        → pages (places.record_page s (length slot.records)) ≡ zero_page
        → (0 < length slot.records) × (length slot.records % places.records_on_page ≡ 0) }
{}

/// What it does to the undo slots and to the pages that a transaction begins.
pub fn begin_laws()
    // The slot is in use and has no records.
    ensures begun { (unused : Bool) (lsn s writer index : ℕ) (pages : ℕ → ℕ → List ℕ)
        → AreWhole s (pages 0) → writer < 2 ^ 32 → index < 2 ^ 64
        → undo_slot s (after lsn (records_of_begin unused s writer index) pages 0)
        ≡ Some (record { writer = writer; index = index; records = [] }) }
    ensures others { (unused : Bool) (lsn s writer index t : ℕ) (pages : ℕ → ℕ → List ℕ) → t ≢ s
        → undo_slot t (after lsn (records_of_begin unused s writer index) pages 0)
        ≡ undo_slot t (pages 0) }
    ensures pages { (unused : Bool) (lsn s writer index space page : ℕ) (pages : ℕ → ℕ → List ℕ)
        → (space ≡ 0 → page ≡ places.header_page s → ⊥)
        → after lsn (records_of_begin unused s writer index) pages space page ≡ pages space page }
{}

/// What it does to the undo slots and to the pages that a transaction ends.
pub fn end_laws()
    ensures free { (lsn s : ℕ) (pages : ℕ → ℕ → List ℕ) → AreWhole s (pages 0)
        → undo_slot s (after lsn (records_of_end s) pages 0) ≡ None }
    ensures others { (lsn s t : ℕ) (pages : ℕ → ℕ → List ℕ) → t ≢ s
        → undo_slot t (after lsn (records_of_end s) pages 0) ≡ undo_slot t (pages 0) }
    ensures pages { (lsn s space page : ℕ) (pages : ℕ → ℕ → List ℕ)
        → (space ≡ 0 → page ≡ places.header_page s → ⊥)
        → after lsn (records_of_end s) pages space page ≡ pages space page }
{}

/// What a change does to the undo slots and to the pages. The page of its record is unused only
/// where this is the first record on a later page of the slot.
pub fn change_laws()
    // The slot has one record more, at the end.
    ensures added { (unused row_unused : Bool) (lsn s : ℕ) (slot : UndoSlot) (e : UndoEntry)
        (image : List ℕ) (pages : ℕ → ℕ → List ℕ) → AreWhole s (pages 0) → IsEntry e
        → length slot.records < places.capacity → (unused ≡ true
        → (0 < length slot.records) × (length slot.records % places.records_on_page ≡ 0))
        → undo_slot s (pages 0) ≡ Some slot → undo_slot s
        (after lsn (records_of_change unused row_unused s (length slot.records) e image) pages 0)
        ≡ Some
        (record { writer = slot.writer; index = slot.index; records = slot.records ++ e ∷ [] }) }

    // The page of the row is changed by what is written to the slot that the undo record names.
    ensures row { (unused row_unused : Bool) (lsn s n : ℕ) (e : UndoEntry) (image : List ℕ)
        (pages : ℕ → ℕ → List ℕ) → IsEntry e
        → after lsn (records_of_change unused row_unused s n e image) pages e.table e.page
        ≡ after_row row_unused lsn e image (pages e.table e.page) }
    ensures others { (unused row_unused : Bool) (lsn s n t : ℕ) (e : UndoEntry) (image : List ℕ)
        (pages : ℕ → ℕ → List ℕ) → t ≢ s → n < places.capacity → IsEntry e
        → undo_slot t (after lsn (records_of_change unused row_unused s n e image) pages 0)
        ≡ undo_slot t (pages 0) }
    ensures pages { (unused row_unused : Bool) (lsn s n space page : ℕ) (e : UndoEntry)
        (image : List ℕ) (pages : ℕ → ℕ → List ℕ) → (space ≡ 0 → page ≡ places.header_page s → ⊥)
        → (space ≡ 0 → page ≡ places.record_page s n → ⊥) → (space ≡ e.table → page ≡ e.page → ⊥)
        → after lsn (records_of_change unused row_unused s n e image) pages space page
        ≡ pages space page }
{}

/// What it does to the undo slots and to the pages that the last change is taken back.
pub fn taking_back_laws()
    // The slot has lost the last of its records.
    ensures removed { (lsn s : ℕ) (slot : UndoSlot) (front : List UndoEntry) (last : UndoEntry)
        (pages : ℕ → ℕ → List ℕ) → AreWhole s (pages 0) → IsEntry last → length slot.records
        ≤ places.capacity → undo_slot s (pages 0) ≡ Some slot → slot.records ≡ front ++ last ∷ []
        → undo_slot s (after lsn (records_of_taking_back s (length slot.records) last) pages 0)
        ≡ Some (record { writer = slot.writer; index = slot.index; records = front }) }
    // The row slot that the record names has the state, the length and the value from before.
    ensures row { (lsn s n : ℕ) (e : UndoEntry) (pages : ℕ → ℕ → List ℕ) → IsEntry e
        → after lsn (records_of_taking_back s n e) pages e.table e.page
        ≡ after_row false lsn e (slot_before e) (pages e.table e.page) }
    ensures others { (lsn s n t : ℕ) (e : UndoEntry) (pages : ℕ → ℕ → List ℕ) → t ≢ s → IsEntry e
        → undo_slot t (after lsn (records_of_taking_back s n e) pages 0) ≡ undo_slot t (pages 0) }
    ensures pages { (lsn s n space page : ℕ) (e : UndoEntry) (pages : ℕ → ℕ → List ℕ)
        → (space ≡ 0 → page ≡ places.header_page s → ⊥) → (space ≡ e.table → page ≡ e.page → ⊥)
        → after lsn (records_of_taking_back s n e) pages space page ≡ pages space page }
{}
