ghost use Rattle.std.specs.Prelude.{◌≡◌, ◌≢◌, ◌≤◌, ◌<◌, ◌+◌, ◌^◌, ◌⊎◌, List, ℕ, length, replicate, None, Some};
ghost use Rattle.byteorder.specs.Endian.{big_bytes};
ghost use Rattle.clone_base.specs.declared.limits.TheConstants.{PAGE_SIZE, VALUE_LIMIT};
ghost use Rattle.clone_page.specs.declared.kind.PageKind.{PageKind};
ghost use Rattle.clone_page.specs.declared.layout.TheConstants.{ENTRY_BYTES, SLOT_BYTES};
ghost use Rattle.clone_page.specs.Bytes.{part, field, put_at};
ghost use Rattle.clone_page.specs.Kinds.{kind_number};
ghost use Rattle.clone_page.specs.Header.{zero_page, lsn_of, kind_of, with_lsn, initialised, IsAllowed, IsWellFormed};
ghost use Rattle.clone_page.specs.Slots.{slot, slot_at, row_slot_count, row_of, present_slot};
ghost use Rattle.clone_page.specs.Dictionary.{entry, entry_at, entry_count, entry_space, position_at};

/// What a write does to a part of a list of bytes, and to a number that is read there.
pub fn part_laws()
    ensures same { (at : ℕ) (piece bytes : List ℕ) → at ≤ length bytes
        → part at (length piece) (put_at at piece bytes) ≡ piece }
    ensures other { (a n at : ℕ) (piece bytes : List ℕ) → (a + n ≤ at) ⊎ (at + length piece ≤ a)
        → at ≤ length bytes → part a n (put_at at piece bytes) ≡ part a n bytes }
    ensures number { (at n x : ℕ) (bytes : List ℕ) → at ≤ length bytes → x < 256 ^ n
        → field at n (put_at at (big_bytes n x) bytes) ≡ x }
    ensures own { (at n : ℕ) (xs ys : List ℕ) → part at n xs ≡ part at n ys
        → field at n xs ≡ field at n ys }
    ensures long { (at : ℕ) (piece bytes : List ℕ) → at + length piece ≤ length bytes
        → length (put_at at piece bytes) ≡ length bytes }
{}

/// What stands in the header of a page that is made, that is written or that takes a page LSN.
pub fn header_laws()
    ensures made { (space number lsn : ℕ) (kind : PageKind) → space < 2 ^ 32 → number < 2 ^ 32
        → IsWellFormed space number (initialised space number kind lsn) }
    ensures kind { (space number lsn : ℕ) (kind : PageKind)
        → kind_of (initialised space number kind lsn) ≡ kind_number kind }
    ensures lsn { (lsn : ℕ) (page : List ℕ) → lsn < 2 ^ 64 → length page ≡ PAGE_SIZE
        → lsn_of (with_lsn lsn page) ≡ lsn }

    // A page stays well formed.
    ensures written { (space number at : ℕ) (piece page : List ℕ) → IsAllowed at (length piece)
        → length page ≡ PAGE_SIZE → IsWellFormed space number page
        → IsWellFormed space number (put_at at piece page) }
    ensures stamped { (space number lsn : ℕ) (page : List ℕ) → length page ≡ PAGE_SIZE
        → IsWellFormed space number page → IsWellFormed space number (with_lsn lsn page) }
{}

/// What the slots of a page are after a write, after a page LSN, and on a page that is made.
pub fn slot_laws()
    ensures same { (j : ℕ) (bytes page : List ℕ) → length bytes ≡ SLOT_BYTES
        → slot_at j ≤ length page → slot j (put_at (slot_at j) bytes page) ≡ bytes }
    ensures other { (j k : ℕ) (bytes page : List ℕ) → j ≢ k → length bytes ≡ SLOT_BYTES
        → slot_at k ≤ length page → slot j (put_at (slot_at k) bytes page) ≡ slot j page }
    ensures lsn { (j lsn : ℕ) (page : List ℕ) → j < row_slot_count → length page ≡ PAGE_SIZE
        → slot j (with_lsn lsn page) ≡ slot j page }
    ensures made { (j space number lsn : ℕ) (kind : PageKind) → j < row_slot_count
        → slot j (initialised space number kind lsn) ≡ replicate SLOT_BYTES 0 }
    ensures unused { (j : ℕ) → j < row_slot_count → slot j zero_page ≡ replicate SLOT_BYTES 0 }

    // Which row a slot holds.
    ensures present { (key : ℕ) (value : List ℕ) → key < 2 ^ 64 → length value ≤ VALUE_LIMIT
        → row_of (present_slot key value) ≡ Some (key, value) }
    ensures never { row_of (replicate SLOT_BYTES 0) ≡ None }
{}

/// What the dictionary lists after a write, after a page LSN, and on a page that is made.
pub fn dictionary_laws()
    ensures same { (j space buckets pages : ℕ) (page : List ℕ) → space < 2 ^ 32
        → entry_at j ≤ length page
        → entry_space j (put_at (entry_at j) (entry space buckets pages) page) ≡ space }
    ensures other { (j k : ℕ) (piece page : List ℕ) → j ≢ k → length piece ≡ ENTRY_BYTES
        → entry_at k ≤ length page
        → entry_space j (put_at (entry_at k) piece page) ≡ entry_space j page }
    ensures position { (j : ℕ) (piece page : List ℕ) → length piece ≡ 8 → position_at ≤ length page
        → entry_space j (put_at position_at piece page) ≡ entry_space j page }
    ensures lsn { (j lsn : ℕ) (page : List ℕ) → j < entry_count → length page ≡ PAGE_SIZE
        → entry_space j (with_lsn lsn page) ≡ entry_space j page }
    ensures made { (j space number lsn : ℕ) (kind : PageKind) → j < entry_count
        → entry_space j (initialised space number kind lsn) ≡ 0 }
{}
