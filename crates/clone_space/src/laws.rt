ghost use Rattle.std.specs.Prelude.{◌≡◌, ◌<◌, ◌^◌, List, ℕ, length, replicate, slice_set, IsSome};
ghost use Rattle.std.specs.declared.option.Option.{Option};
ghost use Rattle.std.specs.FinMap as finite;
ghost use Rattle.std.specs.Ordering.{nat_cmp};
ghost use Rattle.clone_base.specs.declared.limits.TheConstants.{PAGE_SIZE};
ghost use Rattle.clone_page.specs.declared.kind.PageKind.{PageKind};
ghost use Rattle.clone_page.specs.Header.{zero_page, next_of};
ghost use Rattle.clone_page.specs.Dictionary.{entry_count, entry_space};
ghost use Rattle.clone_mtr.specs.Patches.{Patched};
ghost use Rattle.clone_mtr.specs.Effects.{effect};
ghost use Rattle.clone_mtr.specs.declared.record.Record.TheVariants.{Init, Write};
ghost use Rattle.clone_space.specs.declared.entry.TableEntry.{TableEntry};
ghost use Rattle.clone_space.specs.Entries.{dictionary, entry_in, free, FindsFree, AreOnce, AreAmong, IsEntry};
ghost use Rattle.clone_space.specs.Records.{entry_record, size_record, free_record, link_record};
ghost use Rattle.clone_space.specs.Writes.{WritesBefore, Keeps, KeepsSystem};

/// An entry that is written is the entry with this number. All others stay.
pub fn entry_laws()
    ensures entry { (lsn entry_number : ℕ) (e : TableEntry) (page : List ℕ)
        → entry_number < entry_count → IsEntry e → length page ≡ PAGE_SIZE
        → dictionary (effect lsn (entry_record entry_number e) page)
        ≡ slice_set (dictionary page) entry_number e }
    ensures page { (lsn entry_number : ℕ) (e : TableEntry) (page : List ℕ)
        → entry_number < entry_count → length page ≡ PAGE_SIZE
        → KeepsSystem page (effect lsn (entry_record entry_number e) page) }
{}

/// A number of pages that is written is that of the entry with this number. Its table and its
/// buckets stay, and so do all other entries.
pub fn size_laws()
    ensures entry { (lsn entry_number pages : ℕ) (page : List ℕ) → entry_number < entry_count
        → pages < 2 ^ 32 → length page ≡ PAGE_SIZE
        → dictionary (effect lsn (size_record entry_number pages) page)
        ≡ slice_set (dictionary page) entry_number
        (record (entry_in (dictionary page) entry_number) { pages = pages }) }
    ensures page { (lsn entry_number pages : ℕ) (page : List ℕ) → entry_number < entry_count
        → length page ≡ PAGE_SIZE
        → KeepsSystem page (effect lsn (size_record entry_number pages) page) }
{}

/// An entry of zero bytes is free. All others stay.
pub fn free_laws()
    ensures entry { (lsn entry_number : ℕ) (page : List ℕ) → entry_number < entry_count
        → length page ≡ PAGE_SIZE
        → dictionary (effect lsn (free_record entry_number) page)
        ≡ slice_set (dictionary page) entry_number free }
    ensures page { (lsn entry_number : ℕ) (page : List ℕ) → entry_number < entry_count
        → length page ≡ PAGE_SIZE
        → KeepsSystem page (effect lsn (free_record entry_number) page) }
{}

/// The dictionary as a list: 62 entries, which are those of the bytes of the page. A write before
/// the entries leaves them, and on a page that is made, or is unused, each is free.
pub fn list_laws()
    ensures count { (page : List ℕ) → length (dictionary page) ≡ entry_count }
    ensures table { (j : ℕ) (page : List ℕ) → j < entry_count
        → (entry_in (dictionary page) j).table ≡ entry_space j page }
    ensures before { (lsn space number : ℕ) (patch : Patched) (page : List ℕ) → WritesBefore patch
        → length page ≡ PAGE_SIZE
        → dictionary (effect lsn (Write space number patch) page) ≡ dictionary page }
    ensures made { (lsn space number : ℕ) (kind : PageKind) (page : List ℕ)
        → dictionary (effect lsn (Init space number kind) page) ≡ replicate entry_count free }
    ensures unused { dictionary zero_page ≡ replicate entry_count free }
{}

/// Where the dictionary names tables of a map alone, each of them once, and these are fewer than it
/// has entries, one of them is free.
pub fn room_law()
    ensures { (tables : finite.FinMap nat_cmp ℕ) (page : List ℕ) (found : Option ℕ)
        → AreOnce (dictionary page) → AreAmong tables (dictionary page)
        → finite.len tables < entry_count → FindsFree (dictionary page) found → IsSome found }
{}

/// A page of a chain that gets another behind it: that is its next page, and the page stays whole,
/// of its kind and well formed.
pub fn link_laws()
    ensures next { (lsn table number next : ℕ) (page : List ℕ) → next < 2 ^ 32
        → length page ≡ PAGE_SIZE
        → next_of (effect lsn (link_record table number next) page) ≡ next }
    ensures page { (lsn table number next : ℕ) (page : List ℕ) → length page ≡ PAGE_SIZE
        → Keeps page (effect lsn (link_record table number next) page) }
{}
