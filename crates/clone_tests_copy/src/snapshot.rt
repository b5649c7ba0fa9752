use clone_chunk::{PartialChunk, Partials, Stage};
use clone_snapshot::{PageBlock, RedoBlock, Snapshot, page_chunks, redo_chunks};
use std::alloc::{AllocError, Global};

// How many pages a block has, and its first and last one.
fn ends_of(block: Option<PageBlock>) -> Option<(usize, (u32, u32), (u32, u32))> {
    let block = block?;
    Some((
        block.len(),
        *block.as_slice().first()?,
        *block.as_slice().last()?,
    ))
}

// Spaces of 257, 64 and 65 pages have 5, 1 and 2 chunks.
#[test]
fn blocks_of_files(rt: HostRuntime) -> Result<(), AllocError> {
    let spaces = Vec::from_slice(rt.alloc(), &[(0, 257), (5, 64), (7, 65)])?;
    let snapshot = Snapshot::start(rt.alloc(), spaces)?;
    assert!(rt; snapshot.stage() == Stage::FileCopy && snapshot.count() == 8);
    let blocks = [
        (1, 2, Some((8, (0, 80), (0, 87)))),
        (4, 0, Some((1, (0, 256), (0, 256)))),
        (4, 1, None),
        (5, 7, Some((8, (5, 56), (5, 63)))),
        (5, 8, None),
        (7, 0, Some((1, (7, 64), (7, 64)))),
        (8, 0, None),
    ];
    for (chunk, block, ends) in blocks {
        assert!(rt;
            ends_of(snapshot.page_block(chunk, block)) == ends,
            "at {chunk}"
        );
    }
    assert!(rt; snapshot.is_last(4, 0) && snapshot.is_last(5, 7) && !snapshot.is_last(5, 6));
    Ok(())
}

// PAGE COPY of pages 0 to 64 of space 9, or None where they aren't cut into two chunks.
fn page_copy(alloc: Global) -> Result<Option<Snapshot>, AllocError> {
    let mut pages = Vec::new(alloc);
    for number in 0..65 {
        pages.push((9, number))?;
    }
    if pages.len() != 65 || page_chunks(65) != 2 {
        return Ok(None);
    }
    let mut snapshot = Snapshot::start(alloc, Vec::new(alloc))?;
    snapshot.reserve(2)?;
    snapshot.page_copy(pages);
    Ok(Some(snapshot))
}

// A chunk of 64 pages and one of a single page.
#[test]
fn blocks_of_pages(rt: HostRuntime) -> Result<(), AllocError> {
    let Some(snapshot) = page_copy(rt.alloc())? else {
        assert!(rt; false);
        return Ok(());
    };
    assert!(rt; snapshot.stage() == Stage::PageCopy && snapshot.count() == 2);
    let blocks = [
        (0, 7, Some((8, (9, 56), (9, 63)))),
        (0, 8, None),
        (1, 0, Some((1, (9, 64), (9, 64)))),
        (1, 1, None),
    ];
    for (chunk, block, ends) in blocks {
        assert!(rt;
            ends_of(snapshot.page_block(chunk, block)) == ends,
            "at {chunk}"
        );
    }
    Ok(())
}

// REDO COPY of 65,537 bytes, or None where they aren't cut into two chunks.
fn redo_copy(alloc: Global) -> Result<Option<Snapshot>, AllocError> {
    if redo_chunks(10_000, 75_537) != 2 {
        return Ok(None);
    }
    let mut snapshot = Snapshot::start(alloc, Vec::new(alloc))?;
    snapshot.reserve(2)?;
    snapshot.redo_copy(10_000, 75_537);
    Ok(Some(snapshot))
}

// A chunk of four blocks and one of a single byte.
#[test]
fn blocks_of_redo(rt: HostRuntime) -> Result<(), AllocError> {
    let Some(snapshot) = redo_copy(rt.alloc())? else {
        assert!(rt; false);
        return Ok(());
    };
    assert!(rt; snapshot.stage() == Stage::RedoCopy && snapshot.count() == 2);
    let last = RedoBlock {
        from: 59_152,
        length: 16_384,
    };
    let single = RedoBlock {
        from: 75_536,
        length: 1,
    };
    let blocks = [
        (0, 3, Some(last)),
        (0, 4, None),
        (1, 0, Some(single)),
        (1, 1, None),
    ];
    for (chunk, block, redo) in blocks {
        assert!(rt; snapshot.redo_block(chunk, block) == redo, "at {chunk}");
    }
    Ok(())
}

// A list of these partial chunks, as far as they ascend.
fn partials(alloc: Global, chunks: &[(u32, u8)]) -> Result<Partials, AllocError> {
    let mut list = Partials::new(alloc);
    for (chunk, mask) in chunks {
        let partial = PartialChunk {
            chunk: *chunk,
            mask: *mask,
        };
        let above = list.as_slice().iter().all(|p| p.chunk < partial.chunk);
        if above && 1 <= *mask && *mask <= 254 && !list.is_full() {
            list.push(partial)?;
        }
    }
    Ok(list)
}

// Chunks of 8, 8, 1, 8 and 1 blocks. Chunk 0 is finished by its bit and chunk 2 by its mask. Of
// chunk 1 the blocks 0 and 7 are kept. The mask of chunk 4 has a block that the chunk doesn't have,
// and there is no chunk 5.
#[test]
fn reset_to_blocks(rt: HostRuntime) -> Result<(), AllocError> {
    let spaces = Vec::from_slice(rt.alloc(), &[(0, 129), (5, 65)])?;
    let mut snapshot = Snapshot::start(rt.alloc(), spaces)?;
    assert!(rt; snapshot.claim(1) == Some(0) && snapshot.claim(1) == Some(1));
    let masks = [
        (1, 0b1000_0001),
        (2, 0b0000_1001),
        (4, 0b0000_0010),
        (5, 0b0000_0001),
    ];
    let list = partials(rt.alloc(), &masks)?;
    snapshot.reset_blocks(&[0b1110_0001], list.as_slice());
    for (chunk, mask) in [(0, 0), (1, 0b1000_0001), (2, 1), (3, 0), (4, 0), (5, 0)] {
        assert!(rt; snapshot.kept(chunk) == mask, "at {chunk}");
    }
    assert!(rt; snapshot.left() == 3 && !snapshot.is_claimed_by(1, 1));
    for chunk in [1, 3, 4] {
        assert!(rt; snapshot.claim(2) == Some(chunk));
    }
    assert!(rt; snapshot.is_last(1, 6) && !snapshot.is_last(1, 5) && snapshot.is_last(3, 7));
    snapshot.reset_to(&[0b0000_0010]);
    assert!(rt; snapshot.left() == 4 && snapshot.kept(1) == 0 && snapshot.claim(2) == Some(0));
    Ok(())
}
