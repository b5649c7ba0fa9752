ghost use Rattle.std.specs.Prelude.{◌≡◌, ◌<◌, ◌≤◌, ◌^◌, List, ℕ, length, replicate, slice_set, IfSome, None};
ghost use Rattle.std.specs.declared.option.Option.{Option};
ghost use Rattle.clone_base.specs.declared.limits.TheConstants.{PAGE_SIZE, VALUE_LIMIT};
ghost use Rattle.clone_page.specs.declared.kind.PageKind.{PageKind};
ghost use Rattle.clone_page.specs.Header.{zero_page, kind_of, IsWellFormed};
ghost use Rattle.clone_page.specs.Slots.{row_slot_count, slot, row_of};
ghost use Rattle.clone_mtr.specs.Patches.{Patched};
ghost use Rattle.clone_mtr.specs.Effects.{effect};
ghost use Rattle.clone_mtr.specs.declared.record.Record.TheVariants.{Init, Write};
ghost use Rattle.clone_row.specs.Slots.{slots, slot_of, slot_in, row_in, unused, row_slot, image};
ghost use Rattle.clone_row.specs.Chains.{behind};
ghost use Rattle.clone_row.specs.Writes.{WritesSlot, WritesHeader, SameHeader};

/// A write of a slot sets that slot. All others stay, and so does the header.
pub fn slot_write_laws()
    ensures slots { (lsn space number j key : ℕ) (value : Option (List ℕ)) (patch : Patched)
        (page : List ℕ) → WritesSlot j key value patch → length page ≡ PAGE_SIZE
        → slots (effect lsn (Write space number patch) page)
        ≡ slice_set (slots page) j (row_slot key value) }
    ensures header { (lsn space number j key : ℕ) (value : Option (List ℕ)) (patch : Patched)
        (page : List ℕ) → WritesSlot j key value patch → length page ≡ PAGE_SIZE
        → SameHeader page (effect lsn (Write space number patch) page) }
    ensures long { (lsn space number j key : ℕ) (value : Option (List ℕ)) (patch : Patched)
        (page : List ℕ) → WritesSlot j key value patch → length page ≡ PAGE_SIZE
        → length (effect lsn (Write space number patch) page) ≡ PAGE_SIZE }
    ensures well_formed { (lsn space number j key : ℕ) (value : Option (List ℕ)) (patch : Patched)
        (page : List ℕ) → WritesSlot j key value patch → length page ≡ PAGE_SIZE
        → IsWellFormed space number page
        → IsWellFormed space number (effect lsn (Write space number patch) page) }
{}

/// A write before the slots, as one of the next page, leaves every slot. The page stays of its kind
/// and in its place.
pub fn header_write_laws()
    ensures slots { (lsn space number : ℕ) (patch : Patched) (page : List ℕ) → WritesHeader patch
        → length page ≡ PAGE_SIZE
        → slots (effect lsn (Write space number patch) page) ≡ slots page }
    ensures kind { (lsn space number : ℕ) (patch : Patched) (page : List ℕ) → WritesHeader patch
        → length page ≡ PAGE_SIZE
        → kind_of (effect lsn (Write space number patch) page) ≡ kind_of page }
    ensures long { (lsn space number : ℕ) (patch : Patched) (page : List ℕ) → WritesHeader patch
        → length page ≡ PAGE_SIZE
        → length (effect lsn (Write space number patch) page) ≡ PAGE_SIZE }
    ensures well_formed { (lsn space number : ℕ) (patch : Patched) (page : List ℕ)
        → WritesHeader patch → length page ≡ PAGE_SIZE → IsWellFormed space number page
        → IsWellFormed space number (effect lsn (Write space number patch) page) }
{}

/// The slots of a page that is made, and of an unused one, were never used.
pub fn made_laws()
    ensures made { (lsn space number : ℕ) (kind : PageKind) (page : List ℕ)
        → slots (effect lsn (Init space number kind) page) ≡ replicate row_slot_count unused }
    ensures zero { slots zero_page ≡ replicate row_slot_count unused }
{}

/// What the list of the slots says of the bytes of each slot.
pub fn row_laws()
    ensures count { (page : List ℕ) → length (slots page) ≡ row_slot_count }
    ensures slot { (j : ℕ) (page : List ℕ) → j < row_slot_count
        → slot_in (slots page) j ≡ slot_of (slot j page) }
    ensures row { (j : ℕ) (page : List ℕ) → j < row_slot_count
        → row_in (slot_in (slots page) j) ≡ row_of (slot j page) }
    ensures image { (key : ℕ) (value : Option (List ℕ)) → key < 2 ^ 64 → IfSome value
        (λ v. length v ≤ VALUE_LIMIT) → slot_of (image key value) ≡ row_slot key value }
{}

/// What stands in the place of the next page: a write of a slot leaves it, a page that is made has
/// none, and a page of zero bytes has none.
pub fn chain_laws()
    ensures slots { (lsn space number j key : ℕ) (value : Option (List ℕ)) (patch : Patched)
        (page : List ℕ) → WritesSlot j key value patch → length page ≡ PAGE_SIZE
        → behind (effect lsn (Write space number patch) page) ≡ behind page }
    ensures made { (lsn space number : ℕ) (kind : PageKind) (page : List ℕ)
        → behind (effect lsn (Init space number kind) page) ≡ None }
    ensures zero { behind zero_page ≡ None }
{}
