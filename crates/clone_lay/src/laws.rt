ghost use Rattle.std.specs.Prelude.{◌≡◌, ◌<◌, ◌*◌, ◌+◌, ◌++◌, ◌∷◌, ◌==◌, ◌&&◌, ℕ, List, [], length, nat_lt, false, All, Contains, None, IsSome};
ghost use Rattle.std.specs.List.{list_any};
ghost use Rattle.std.specs.FinMap as finite;
ghost use Rattle.clone_base.specs.declared.limits.TheConstants.{REDO_SPACE};
ghost use Rattle.clone_outside.specs.Disk.{DiskImage, page_of, space_numbers, pages_in, IsSameBut};
ghost use Rattle.clone_lay.specs.declared.laying.TheConstants.{REDO_BLOCK};
ghost use Rattle.clone_lay.specs.Laid.{PageAt, laid_page, laid_pages, last_bytes, reaches_past, standing, with_room};
ghost use Rattle.clone_lay.specs.Redo.{laid_blocks, laid_redo, redo_block, redo_pages};
ghost use Rattle.clone_lay.specs.Sized.{AreSizes};

/// What stands where once pages were laid, and once room was made.
pub fn laid_laws()
    ensures pages { (m : DiskImage) (pages : List PageAt) (space number : ℕ)
        → page_of (laid_pages pages m) space number
        ≡ standing (last_bytes space number pages) (page_of m space number)
        (reaches_past space number pages) }
    ensures room { (m : DiskImage) (space count s n : ℕ) → page_of (with_room space count m) s n
        ≡ standing None (page_of m s n) (space == s && nat_lt n count) }

    // Room that was made for a page of the list doesn't show once it is laid.
    ensures unseen { (m : DiskImage) (pages : List PageAt) (space number : ℕ)
        → IsSome (last_bytes space number pages)
        → laid_pages pages (with_room space (number + 1) m) ≡ laid_pages pages m }

    // The page that is laid last.
    ensures more { (m : DiskImage) (pages : List PageAt) (page : PageAt)
        → laid_pages (pages ++ page ∷ []) m
        ≡ laid_page page.space page.number page.bytes (laid_pages pages m) }

    // Spaces in which no page was laid stay as they are, and the mark does.
    ensures others { (m : DiskImage) (pages : List PageAt) (space : ℕ)
        → list_any (λ page. page.space == space) pages ≡ false
        → finite.get (laid_pages pages m).spaces space ≡ finite.get m.spaces space }
    ensures mark { (m : DiskImage) (pages : List PageAt) → (laid_pages pages m).mark ≡ m.mark }
{}

/// All blocks of a redo, laid over no pages in any order, each once or more, are its pages.
pub fn block_laws()
    ensures pages { (m : DiskImage) (redo blocks : List ℕ) → pages_in m REDO_SPACE ≡ []
        → All (λ k. REDO_BLOCK * k < length redo) blocks
        → ((k : ℕ) → REDO_BLOCK * k < length redo → Contains blocks k)
        → pages_in (laid_blocks redo blocks m) REDO_SPACE ≡ redo_pages redo }
    ensures others { (m : DiskImage) (redo blocks : List ℕ)
        → IsSameBut REDO_SPACE m (laid_blocks redo blocks m) }

    // The block that is laid last.
    ensures more { (m : DiskImage) (redo blocks : List ℕ) (block : ℕ)
        → laid_blocks redo (blocks ++ block ∷ []) m
        ≡ laid_redo (REDO_BLOCK * block) (redo_block redo block) (laid_blocks redo blocks m) }
{}

/// On a disk without spaces no space has a size.
pub fn size_laws()
    ensures blank { (m : DiskImage) → m.spaces ≡ finite.empty → AreSizes finite.empty m }
    ensures listed { (m : DiskImage) → space_numbers m ≡ [] → AreSizes finite.empty m }
{}
