use clone_stream::*;
use clone_wire::*;
use std::alloc::{AllocError, Global};
use std::test::*;

// INIT, EXECUTE and EXIT, one after the other.
const COMMANDS: [u8; 36] = [
    1, 0, 0, 0, 20, 0, 1, 0, 0, 16, 0, 0, 1, 0, 0, 0, 0, 0, 0, 0, 1, 0, 0, 0, 1, //
    4, 0, 0, 0, 1, 1, 6, 0, 0, 0, 0,
];

// A piece comes after the bytes before it, and the frames that are now there whole are taken and
// put to be sent again.
fn take_piece(
    alloc: Global,
    received: &mut Vec<u8>,
    sent: &mut Vec<u8>,
    piece: &[u8],
) -> Result<(), AllocError> {
    received.extend_from_slice(piece)?;
    for _ in 0..3 {
        if let Ok(Some(frame)) = take_frame(alloc, received, Side::Command) {
            put_frame(alloc, sent, &frame)?;
        }
    }
    Ok(())
}

// Wherever the commands are cut, they are taken in their order. Put to be sent again, they are the
// same bytes.
#[test]
fn two_pieces(rt: HostRuntime) -> Result<(), Fail> {
    let alloc = rt.alloc();
    for cut in 0..COMMANDS.len() {
        let (front, back) = COMMANDS.split_at(cut);
        let mut received = Vec::new(alloc);
        let mut sent = Vec::new(alloc);
        take_piece(alloc, &mut received, &mut sent, front)?;
        take_piece(alloc, &mut received, &mut sent, back)?;
        assert!(rt; received.is_empty());
        assert_eq!(rt; sent.as_slice(), COMMANDS.as_slice());
    }
    Ok(())
}

#[test]
fn single_bytes(rt: HostRuntime) -> Result<(), Fail> {
    let alloc = rt.alloc();
    let mut received = Vec::new(alloc);
    let mut sent = Vec::new(alloc);
    for byte in COMMANDS {
        take_piece(alloc, &mut received, &mut sent, &[byte])?;
    }
    assert!(rt; received.is_empty());
    assert_eq!(rt; sent.as_slice(), COMMANDS.as_slice());
    Ok(())
}

/// Bytes that are garbled, and how many of them are kept.
type Garbled = (&'static [u8], usize);

// A flag of 2 ends by the length of INIT, and a command that there isn't ends nowhere.
const GARBLED: [Garbled; 5] = [
    (&[4, 0, 0, 0, 1, 9, 6, 0, 0, 0, 0], 6),
    (&[8, 0, 0, 0, 1, 9, 6, 0, 0, 0, 0], 11),
    (&[4, 0, 0, 0, 2, 9, 6, 0, 0, 0, 0], 11),
    (
        &[1, 0, 0, 0, 20, 0, 1, 0, 0, 16, 0, 2, 1, 0, 0, 0, 0, 0],
        16,
    ),
    (
        &[9, 0, 0, 0, 20, 0, 1, 0, 0, 16, 0, 2, 1, 0, 0, 0, 0, 0],
        16,
    ),
];

#[test]
fn what_is_kept(rt: HostRuntime) -> Result<(), Fail> {
    let alloc = rt.alloc();
    for (bytes, long) in GARBLED {
        let mut received = Vec::from_slice(alloc, bytes)?;
        let taken = take_frame(alloc, &mut received, Side::Command).err();
        assert!(rt; taken == Some(StreamRefusal::Garbled));
        assert_eq!(rt; received.as_slice(), bytes);
        let kept = keep_front(alloc, &received, Side::Command)?;
        assert!(rt; Some(kept.as_slice()) == bytes.get(..long));
    }
    Ok(())
}
