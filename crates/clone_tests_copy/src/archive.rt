ghost use Rattle.std.specs.Prelude.{◌≤◌, IsSome};
ghost use Rattle.std.specs.Option.{ForSome};
ghost use Rattle.std.specs.Bool.{OnTrue};
ghost use Rattle.clone_ring.specs.Window.{end_of};
ghost use Rattle.clone_archive.specs.Archived.{kept_from, end_in};

use clone_archive::{Archive, ArchiveBehind};
use clone_ring::Ring;
use std::alloc::AllocError;

/// The byte of the log at an LSN.
fn byte_at(lsn: u64) -> u8 {
    (lsn % 251) as u8
}

/// Whether these are the bytes of the log from an LSN on.
fn is_log(from: u64, bytes: &[u8]) -> bool {
    bytes
        .iter()
        .enumerate()
        .all(|(i, byte)| *byte == byte_at(from.wrapping_add(i as u64)))
}

/// Appends so many pieces of 500 bytes of the log, as far as there is room.
fn append(ring: &mut Ring, pieces: u32) {
    for _ in 0..pieces {
        let end = ring.end();
        let mut piece = [0; 500];
        for (i, byte) in piece.iter_mut().enumerate() {
            *byte = byte_at(end.wrapping_add(i as u64));
        }
        let _ = ring.append(&piece);
    }
}

fn raise_floor(ring: &mut Ring, lsn: u64) {
    if ring.floor() <= lsn && lsn <= ring.end() {
        ring.raise_floor(lsn);
    }
}

/// Whether the ring has what the archive needs of it.
fn has_next(archive: &Archive, ring: &Ring) -> bool
    ensures { OnTrue result (ForSome (kept_from archive.now)
        (λ lsn. (ring.now.floor ≤ lsn) × (lsn ≤ end_of ring.now))) }
{
    match archive.kept_from() {
        Some(lsn) => ring.floor() <= lsn && lsn <= ring.end(),
        None => true,
    }
}

/// Whether the archive ends in the ring, as far as its end is fixed.
fn has_end(archive: &Archive, ring: &Ring) -> bool
    ensures { OnTrue result (ForSome (end_in archive.now) (λ end. end ≤ end_of ring.now)) }
{
    match archive.end() {
        Some(end) => end <= ring.end(),
        None => true,
    }
}

fn stands(archive: &Archive) -> bool
    ensures { OnTrue result (IsSome archive.now) }
{
    archive.first().is_some()
}

/// Copies some bytes, or answers None where the ring doesn't have what the archive lacks.
fn copy_some(archive: &mut Archive, ring: &Ring, limit: u64) -> Result<Option<u64>, AllocError> {
    if stands(archive) && has_next(archive, ring) && has_end(archive, ring) {
        return Ok(Some(archive.copy_some(ring, limit)?));
    }
    Ok(None)
}

/// Copies some bytes, which the ring gives up for 5,000 new ones, and answers how far the archive
/// reaches then.
fn copy_and_append(
    archive: &mut Archive,
    ring: &mut Ring,
    limit: u64,
) -> Result<Option<u64>, AllocError> {
    let reached = copy_some(archive, ring, limit)?;
    if let Some(lsn) = reached {
        raise_floor(ring, lsn);
    }
    append(ring, 10);
    Ok(reached)
}

/// Fixes the end, where the archive isn't past it.
fn stop(archive: &mut Archive, end: u64) -> bool {
    let Some(archived) = archive.archived() else {
        return false;
    };
    if stands(archive) && archived <= end && end < 1 << 39 {
        archive.stop(end);
        return true;
    }
    false
}

/// Reads bytes, or answers None where the archive doesn't stand or starts behind them.
fn read(archive: &Archive, from: u64, into: &mut [u8]) -> Option<Result<(), ArchiveBehind>> {
    let first = archive.first()?;
    if stands(archive) && first <= from && from < 1 << 39 {
        return Some(archive.read(from, into));
    }
    None
}

/// Whether the archive gives eight bytes of the log from an LSN on.
fn gives_log(archive: &Archive, from: u64) -> bool {
    let mut bytes = [0; 8];
    read(archive, from, &mut bytes) == Some(Ok(())) && is_log(from, &bytes)
}

// The archive's bytes lie in blocks of 16,384, of which the second begins at 24,576.
#[test]
fn copies_across_blocks(rt: HostRuntime) -> Result<(), AllocError> {
    let mut ring = Ring::new(rt.alloc(), 25_000)?;
    let mut archive = Archive::new(rt.alloc());
    archive.start(8_192);
    append(&mut ring, 40);
    let copies = [
        (1, 8_193),
        (16_383, 24_576),
        (16_384, 38_192),
        (4_000, 42_192),
    ];
    for (limit, reached) in copies {
        assert!(rt; copy_and_append(&mut archive, &mut ring, limit)? == Some(reached));
    }
    for from in [8_192, 24_568, 24_572, 24_576, 42_184] {
        assert!(rt; gives_log(&archive, from));
    }
    let behind = ArchiveBehind {
        archived: 42_192,
        until: 42_193,
    };
    assert!(rt; read(&archive, 42_185, &mut [0; 8]) == Some(Err(behind)));
    Ok(())
}

/// Where the archive ends, and from where on it needs the ring.
fn ends_of(archive: &Archive) -> (Option<u64>, Option<u64>) {
    (archive.end(), archive.kept_from())
}

#[test]
fn ends_where_it_is_stopped(rt: HostRuntime) -> Result<(), AllocError> {
    let mut ring = Ring::new(rt.alloc(), 25_000)?;
    let mut archive = Archive::new(rt.alloc());
    archive.start(8_192);
    append(&mut ring, 4);
    assert!(rt; stop(&mut archive, 9_192));
    assert!(rt; ends_of(&archive) == (Some(9_192), Some(8_192)));
    for (limit, reached) in [(400, 8_592), (5_000, 9_192), (5_000, 9_192)] {
        assert!(rt; copy_and_append(&mut archive, &mut ring, limit)? == Some(reached));
    }
    assert!(rt; ends_of(&archive) == (Some(9_192), None));
    assert!(rt; gives_log(&archive, 9_184));
    Ok(())
}
