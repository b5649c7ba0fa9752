use clone_chunk::{MOST_PARTIAL, PartialChunk, SpaceSize, is_set};
use clone_marks::Marks;
use std::alloc::AllocError;

const SPACES: [SpaceSize; 3] = [
    SpaceSize {
        space: 0,
        pages: 257,
    },
    SpaceSize { space: 1, pages: 4 },
    SpaceSize {
        space: 9,
        pages: 65,
    },
];

// Whether the chunks of a stage have these numbers of blocks, none of which was taken.
fn has_blocks(marks: &Marks, blocks: &[u8]) -> bool {
    let mut same = marks.count() as usize == blocks.len() && marks.finished() == 0;
    for chunk in 0..marks.count() {
        let count = blocks.get(chunk as usize).copied().unwrap_or(0);
        for block in 0..9u8 {
            let is_left = marks.is_left(chunk, block);
            same = same && is_left == (block < count) && !marks.is_taken(chunk, block);
        }
    }
    same
}

// Takes a block, which has to be left.
fn take(marks: &mut Marks, chunk: u32, block: u8) -> bool {
    let is_left = marks.is_left(chunk, block);
    if is_left {
        marks.mark(chunk, block);
    }
    is_left
}

#[test]
fn blocks_of_files(rt: HostRuntime) -> Result<(), AllocError> {
    let files = Marks::of_files(rt.alloc(), &SPACES)?;
    assert!(rt; has_blocks(&files, &[8, 8, 8, 8, 1, 1, 8, 1]));
    Ok(())
}

#[test]
fn blocks_of_pages(rt: HostRuntime) -> Result<(), AllocError> {
    assert!(rt; has_blocks(&Marks::of_pages(rt.alloc(), 0)?, &[]));
    assert!(rt; has_blocks(&Marks::of_pages(rt.alloc(), 1)?, &[1]));
    assert!(rt; has_blocks(&Marks::of_pages(rt.alloc(), 64)?, &[8]));
    assert!(rt; has_blocks(&Marks::of_pages(rt.alloc(), 73)?, &[8, 2]));
    Ok(())
}

#[test]
fn blocks_of_redo(rt: HostRuntime) -> Result<(), AllocError> {
    assert!(rt; has_blocks(&Marks::of_redo(rt.alloc(), 8_192, 8_192)?, &[]));
    assert!(rt; has_blocks(&Marks::of_redo(rt.alloc(), 8_192, 8_193)?, &[1]));
    assert!(rt; has_blocks(&Marks::of_redo(rt.alloc(), 8_192, 24_577)?, &[2]));
    assert!(rt; has_blocks(&Marks::of_redo(rt.alloc(), 8_192, 73_729)?, &[4, 1]));
    Ok(())
}

// The chunk of four pages has one block, and the first chunk has eight.
#[test]
fn chunks_finish_with_their_last_block(rt: HostRuntime) -> Result<(), AllocError> {
    let mut marks = Marks::of_files(rt.alloc(), &SPACES)?;
    assert!(rt; take(&mut marks, 5, 0) && !take(&mut marks, 5, 0) && !take(&mut marks, 5, 1));
    for block in [3, 1, 0, 2, 7, 5, 4] {
        assert!(rt; take(&mut marks, 2, block) && !take(&mut marks, 2, block));
        assert!(rt; marks.finished() == 1 && !marks.is_finished(2));
    }
    assert!(rt; take(&mut marks, 2, 6) && marks.finished() == 2 && marks.is_finished(2));
    assert!(rt; !marks.is_finished(8) && !marks.is_taken(8, 0) && !take(&mut marks, 8, 0));
    let bits = marks.finished_bits(rt.alloc())?;
    assert!(rt; bits.count() == 8 && bits.bytes() == [0b0010_0100].as_slice());
    Ok(())
}

// Chunk 0 is finished, chunk 1 untouched, and of each of 1,700 further chunks one block was taken.
#[test]
fn a_loss_keeps_the_first_partial_chunks(rt: HostRuntime) -> Result<(), AllocError> {
    let mut marks = Marks::of_pages(rt.alloc(), 1_702 * 64)?;
    for block in 0..8u8 {
        assert!(rt; take(&mut marks, 0, block));
    }
    for chunk in 2..1_702u32 {
        assert!(rt; take(&mut marks, chunk, 6));
    }
    marks.forget(MOST_PARTIAL);
    for chunk in 2..1_702u32 {
        assert!(rt; marks.is_taken(chunk, 6) == (chunk < 1_618));
    }
    let taken = marks.taken_blocks(rt.alloc())?;
    assert!(rt; is_set(taken.finished().bytes(), 0) && !is_set(taken.finished().bytes(), 1));
    let partials = taken.partials().as_slice();
    let first = PartialChunk { chunk: 2, mask: 64 };
    let last = PartialChunk {
        chunk: 1_617,
        mask: 64,
    };
    assert!(rt; partials.len() == 1_616);
    assert!(rt; partials.first() == Some(&first) && partials.last() == Some(&last));
    marks.forget(0);
    assert!(rt; marks.is_finished(0) && marks.finished() == 1 && take(&mut marks, 2, 6));
    Ok(())
}
