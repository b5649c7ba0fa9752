ghost use Rattle.std.specs.Prelude.{◌≡◌, ◌<◌, ◌+◌, ◌^◌, ◌++◌, List, ℕ, length, Some, option_map};
ghost use Rattle.std.specs.List.{AllByRecursion};
ghost use Rattle.clone_mtr.specs.declared.record.Record.{Record};
ghost use Rattle.clone_mtr.specs.Records.{IsRecord};
ghost use Rattle.clone_mtr.specs.Spelling.{spelling, log_of};
ghost use Rattle.clone_undo.specs.Changes.{after};
ghost use Rattle.clone_image.specs.Image.{Image, page_of, with_edit, edited, after_records, EditsPages, all_pages, page_count, AreWholePages};
ghost use Rattle.clone_image.specs.Replay.{first_lsn, replayed, IsSpelled, Replays};
ghost use Rattle.clone_image.specs.Redone.{redone, standing_of};

/// What records that change pages alone do to an image, page by page.
pub fn page_laws()
    // A page that is there has what the records leave of it, and one that isn't there stays away.
    ensures pages { (lsn : ℕ) (image : Image) (records : List Record) (space number : ℕ)
        → AllByRecursion EditsPages records
        → page_of (after_records lsn image records) space number ≡ option_map
        (λ _. after lsn records (all_pages image) space number) (page_of image space number) }
    ensures counts { (lsn : ℕ) (image : Image) (records : List Record) (space : ℕ)
        → AllByRecursion EditsPages records
        → page_count (after_records lsn image records) space ≡ page_count image space }
    ensures whole { (lsn : ℕ) (image : Image) (records : List Record)
        → AllByRecursion IsRecord records → AreWholePages image
        → AreWholePages (after_records lsn image records) }

    // One page is edited.
    ensures edited { (image : Image) (space number : ℕ) (edit : List ℕ → List ℕ) (page : List ℕ)
        → page_of image space number ≡ Some page
        → page_of (with_edit image space (edited number edit)) space number ≡ Some (edit page) }
    ensures others { (image : Image) (space number s n : ℕ) (edit : List ℕ → List ℕ)
        → (s ≡ space → n ≡ number → ⊥)
        → page_of (with_edit image space (edited number edit)) s n ≡ page_of image s n }
    ensures edited_counts { (image : Image) (space number s : ℕ) (edit : List ℕ → List ℕ)
        → page_count (with_edit image space (edited number edit)) s ≡ page_count image s }
{}

/// What a log makes of an image is what it makes of each page by itself. A log of fewer than 2^64
/// bytes has only ends that fit a page LSN.
pub fn redone_laws()
    ensures { (mtrs : List (List Record)) (space number : ℕ) → first_lsn + length (log_of mtrs)
        < 2 ^ 64 → standing_of (replayed mtrs) space number ≡ redone space number mtrs }
{}

/// A log replays to one image, and to another once it is longer by a mini-transaction.
pub fn replay_laws()
    ensures once { (bytes : List ℕ) (i j : Image) → Replays bytes i → Replays bytes j → i ≡ j }
    ensures longer { (bytes : List ℕ) (image : Image) (m : List Record) → Replays bytes image
        → IsSpelled m → Replays (bytes ++ spelling m)
        (after_records (first_lsn + length (bytes ++ spelling m)) image m) }
{}
