ghost use Rattle.std.specs.Prelude.{◌≡◌, ◌↔◌, ◌+◌, ◌<◌, ◌≤◌, ℕ, List, Some, length, slice_index};
ghost use Rattle.std.specs.Prelude.{All, Contains};
ghost use Rattle.std.specs.List.{flat_map};
ghost use Rattle.clone_chunk.specs.declared.masks.TheConstants.{CHUNK_BLOCKS};
ghost use Rattle.clone_snapshot.specs.StageLists.{StageList, Files, Redo, Part, PagePart, RedoPart};
ghost use Rattle.clone_snapshot.specs.StageLists.{chunks_of, chunk_count, blocks_of};
ghost use Rattle.clone_snapshot.specs.StageLists.{block_of, block_count, run, IsBlockSized};
ghost use Rattle.clone_snapshot.specs.StageLists.{pages_of, all_pages, bytes_of, all_bytes};
ghost use Rattle.clone_snapshot.specs.Resets.{IsLast};

/// The blocks of all chunks, in order, are the list: the pages of files and of a list of pages,
/// each as often as it is listed and in their order, and the bytes of redo without a gap.
pub fn blocks_are_the_list()
    ensures pages { (list : StageList) →
        flat_map pages_of (flat_map blocks_of (chunks_of list)) ≡ all_pages list }
    ensures bytes { (list : StageList) →
        flat_map bytes_of (flat_map blocks_of (chunks_of list)) ≡ all_bytes list }
{}

/// How many chunks there are; each of them, and no other, has blocks, as many at most as a mask has
/// bits; and each block has something, and no more than a block may have.
pub fn chunks_have_blocks()
    ensures chunks { (list : StageList) → length (chunks_of list) ≡ chunk_count list }
    ensures blocks { (list : StageList) (chunk : ℕ) →
        (0 < block_count list chunk) ↔ (chunk < chunk_count list) }
    ensures few { (list : StageList) (chunk : ℕ) → block_count list chunk ≤ CHUNK_BLOCKS }
    ensures sized { (list : StageList) (chunk block : ℕ) (part : Part) →
        block_of list chunk block ≡ Some part → IsBlockSized part }
{}

/// Each page of a block is listed, and those of a block of files are consecutive pages of one
/// space. A block of redo is one of a stage that copies redo, and lies between the LSNs of that.
pub fn blocks_lie_within()
    ensures pages { (list : StageList) (chunk block : ℕ) (pages : List (ℕ × ℕ)) →
        block_of list chunk block ≡ Some (PagePart pages) →
        All (Contains (all_pages list)) pages }
    ensures files { (spaces pages : List (ℕ × ℕ)) (chunk block : ℕ) →
        block_of (Files spaces) chunk block ≡ Some (PagePart pages) →
        (space : ℕ) × (first : ℕ) × (pages ≡ run space first (length pages)) }
    ensures kind { (list : StageList) (chunk block from count : ℕ) →
        block_of list chunk block ≡ Some (RedoPart from count) →
        (start : ℕ) × (end : ℕ) × (list ≡ Redo start end) }
    ensures redo { (start end chunk block from count : ℕ) → start ≤ end →
        block_of (Redo start end) chunk block ≡ Some (RedoPart from count) →
        (start ≤ from) × (from + count ≤ end) }
{}

/// Where no block of a chunk is kept, the last that is sent is the one with the greatest number.
pub fn last_of_all()
    ensures { (list : StageList) (kept : List ℕ) (chunk block : ℕ) → slice_index kept chunk ≡ 0 →
        IsLast list kept chunk block ↔ (block + 1 ≡ block_count list chunk) }
{}
