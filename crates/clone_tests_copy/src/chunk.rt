use clone_chunk::{ChunkMap, is_kept};
use std::alloc::AllocError;

// Ten chunks, of which 0, 3 and 9 are finished. A bit past the last chunk is no chunk's, and a
// claim from before the reset doesn't stay.
#[test]
fn reset_to_a_bitmap(rt: HostRuntime) -> Result<(), AllocError> {
    let mut map = ChunkMap::new(rt.alloc(), 10)?;
    assert!(rt; map.claim(2) == Some(0) && map.claim(1) == Some(1));
    map.reset_to(&[0b0000_1001, 0b1000_0010]);
    assert!(rt; map.left() == 7 && !map.finish(1, 1));
    for chunk in [1, 2, 4, 5, 6, 7, 8] {
        assert!(rt; map.claim(2) == Some(chunk));
    }
    assert!(rt; map.claim(2).is_none());
    Ok(())
}

// Of a chunk of four blocks the bits past them are dropped. A chunk whose mask has each of its
// blocks is finished, and one past the last is no chunk.
#[test]
fn keep_blocks(rt: HostRuntime) -> Result<(), AllocError> {
    let mut map = ChunkMap::new(rt.alloc(), 4)?;
    map.keep(0, 0b1111_0101, 4);
    map.keep(1, 0b0000_0111, 3);
    map.keep(2, 0b1111_1110, 8);
    map.keep(4, 0b0000_0001, 8);
    for (chunk, mask) in [(0, 0b0101), (1, 0b0111), (2, 0b1111_1110), (3, 0), (4, 0)] {
        assert!(rt; map.kept(chunk) == mask, "at {chunk}");
    }
    assert!(rt; map.left() == 3 && map.finished(1) && map.count() == 4);
    assert!(rt; is_kept(map.kept(2), 7) && !is_kept(map.kept(2), 0) && !is_kept(255, 8));
    map.restart(3);
    assert!(rt; map.left() == 3 && map.kept(2) == 0);
    Ok(())
}

// A map has room for what was reserved, and begins anew with as many chunks.
#[test]
fn reserve_and_restart(rt: HostRuntime) -> Result<(), AllocError> {
    let mut map = ChunkMap::new(rt.alloc(), 1)?;
    map.reserve(5)?;
    assert!(rt; map.count() == 1 && map.claim(0) == Some(0));
    map.restart(5);
    assert!(rt; map.count() == 5 && map.claim(0) == Some(0));
    Ok(())
}
