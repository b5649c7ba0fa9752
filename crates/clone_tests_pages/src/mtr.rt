//! The bytes that are no mini-transaction, and why each of them is refused.

use clone_mtr::{DecodeRefusal, decode};
use std::test::*;

/// The front of a log, and why no mini-transaction is read there.
type Refused = (&'static [u8], DecodeRefusal);

const REFUSED: [Refused; 17] = [
    (&[], DecodeRefusal::Short),
    // an end mark without a record, and two bytes that begin none
    (&[6], DecodeRefusal::BadKind { at: 0 }),
    (&[0], DecodeRefusal::BadKind { at: 0 }),
    (&[7], DecodeRefusal::BadKind { at: 0 }),
    // a space is gone, and then comes a byte that begins no record
    (&[5, 0, 0, 0, 0, 0], DecodeRefusal::BadKind { at: 5 }),
    // a space is made, and then comes a byte that begins no record, or nothing
    (
        &[4, 0, 0, 0, 0, 0, 0, 1, 1, 0],
        DecodeRefusal::BadKind { at: 9 },
    ),
    (
        &[4, 0, 0, 0, 0, 0, 0, 1, 1, 255],
        DecodeRefusal::BadKind { at: 9 },
    ),
    (&[4, 0, 0, 0, 0, 0, 0, 1, 1], DecodeRefusal::Short),
    // a page of kind 0, of kind 5, of kind 256, and of kind 65,280
    (
        &[1, 0, 0, 0, 0, 0, 0, 0, 0, 0, 0],
        DecodeRefusal::BadKind { at: 9 },
    ),
    (
        &[1, 0, 0, 0, 0, 0, 0, 0, 0, 0, 5],
        DecodeRefusal::BadKind { at: 9 },
    ),
    (
        &[1, 0, 0, 0, 0, 0, 0, 0, 0, 1],
        DecodeRefusal::BadKind { at: 9 },
    ),
    (
        &[1, 0, 0, 0, 0, 0, 0, 0, 0, 255],
        DecodeRefusal::BadKind { at: 9 },
    ),
    // a page of kind 4, and then nothing, no end mark, or a byte that begins no record
    (&[1, 0, 0, 0, 0, 0, 0, 0, 0, 0, 4], DecodeRefusal::Short),
    (
        &[1, 0, 0, 0, 0, 0, 0, 0, 0, 0, 4, 0],
        DecodeRefusal::BadKind { at: 11 },
    ),
    (
        &[1, 0, 0, 0, 0, 0, 0, 0, 0, 0, 4, 7],
        DecodeRefusal::BadKind { at: 11 },
    ),
    // a second record has its kind and its offset where they stand in the whole
    (
        &[5, 0, 0, 0, 0, 1, 0, 0, 0, 0, 0, 0, 0, 0, 0, 5],
        DecodeRefusal::BadKind { at: 14 },
    ),
    (
        &[5, 0, 0, 0, 0, 2, 0, 0, 0, 0, 0, 0, 0, 0, 0, 1],
        DecodeRefusal::OutOfPage { at: 14 },
    ),
];

/// Why a write at an offset of page 0 of space 0, of a number of bytes, isn't read, before those
/// bytes come. Offset and length have two bytes each.
type RefusedWrite = ([u8; 4], DecodeRefusal);

const OUT: DecodeRefusal = DecodeRefusal::OutOfPage { at: 9 };

const REFUSED_WRITES: [RefusedWrite; 14] = [
    // the numbers of the pages before and behind stand from 8 to 15
    ([0, 7, 0, 1], OUT),
    ([0, 8, 0, 0], OUT),
    ([0, 8, 0, 8], DecodeRefusal::Short),
    ([0, 8, 0, 9], OUT),
    ([0, 15, 0, 1], DecodeRefusal::Short),
    ([0, 15, 0, 2], OUT),
    ([0, 16, 0, 1], OUT),
    // the body goes from 38 to 4,087
    ([0, 37, 0, 1], OUT),
    ([0, 38, 0, 0], OUT),
    ([15, 247, 0, 1], DecodeRefusal::Short),
    ([15, 247, 0, 2], OUT),
    ([15, 248, 0, 1], OUT),
    // with 1,010 bytes the mini-transaction has 1,024
    ([0, 38, 3, 242], DecodeRefusal::Short),
    ([0, 38, 3, 243], DecodeRefusal::TooLong),
];

// Whether the bytes are refused so.
fn is_refused(bytes: &[u8], refusal: DecodeRefusal) -> bool {
    decode(bytes).err() == Some(refusal)
}

#[test]
fn bytes_of_no_mini_transaction(rt: HostRuntime) {
    for (bytes, refusal) in &REFUSED {
        assert!(rt; is_refused(bytes, *refusal));
    }
}

// The front of a write on page 0 of space 0, with this offset and this length.
fn front(field: &[u8; 4]) -> [u8; 13] {
    let mut bytes = [0; 13];
    bytes[0] = 2;
    bytes[9..].copy_from_slice(field);
    bytes
}

#[test]
fn writes_of_no_mini_transaction(rt: HostRuntime) {
    for (field, refusal) in &REFUSED_WRITES {
        assert!(rt; is_refused(&front(field), *refusal));
    }
}
