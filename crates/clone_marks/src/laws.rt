ghost use Rattle.std.specs.Prelude.{◌≡◌, ℕ, List, true, false, length, slice_get, slice_index};
ghost use Rattle.clone_snapshot.specs.StageLists.{StageList, block_count, chunk_count};
ghost use Rattle.clone_marks.specs.Blocks.{blocks_of, is_taken, is_finished_at};
ghost use Rattle.clone_marks.specs.Counts.{block_counts, unmarked};
ghost use Rattle.clone_marks.specs.Forgetting.{forgotten};
ghost use Rattle.clone_marks.specs.declared.chunk_marks.ChunkMarks.{ChunkMarks};

/// A stage has as many chunks, and each of them as many blocks, as it is cut into; and at its
/// beginning none was taken.
pub fn counting_laws()
    ensures chunks { (list : StageList) → length (block_counts list) ≡ chunk_count list }
    ensures blocks { (list : StageList) (chunk : ℕ) →
        slice_index (block_counts list) chunk ≡ block_count list chunk }
    ensures begun { (counts : List ℕ) → blocks_of (unmarked counts) ≡ counts }
    ensures none { (counts : List ℕ) (chunk block : ℕ) →
        is_taken (unmarked counts) chunk block ≡ false }
{}

/// What a loss leaves: the chunks stay, what was taken afterwards was taken before, and a finished
/// chunk is as it was.
pub fn forgetting_laws()
    ensures chunks { (kept : ℕ) (marks : List ChunkMarks) →
        blocks_of (forgotten kept marks) ≡ blocks_of marks }
    ensures taken { (kept : ℕ) (marks : List ChunkMarks) (chunk block : ℕ) →
        is_taken (forgotten kept marks) chunk block ≡ true → is_taken marks chunk block ≡ true }
    ensures finished { (kept : ℕ) (marks : List ChunkMarks) (chunk : ℕ) →
        is_finished_at marks chunk ≡ true →
        slice_get (forgotten kept marks) chunk ≡ slice_get marks chunk }
{}
