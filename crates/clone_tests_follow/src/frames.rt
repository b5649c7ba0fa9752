use clone_follow::*;
use clone_model::{Change, Changes, Commit, Value};
use std::alloc::{AllocError, Global};
use std::test::*;

const WANT: [u8; 13] = [32, 0, 0, 0, 8, 0, 0, 0, 0, 0, 0, 0, 1];

// Writer 0, its transaction 1: row 2 of table 1 gets the value bb.
const COMMIT: [u8; 42] = [
    33, 0, 0, 0, 37, 0, 0, 0, 0, 0, 0, 0, 2, 0, 0, 0, 0, 0, 0, 0, 0, 0, 0, 0, 1, 0, 1, //
    0, 0, 0, 1, 0, 0, 0, 0, 0, 0, 0, 2, 1, 1, 0xBB,
];

// A row is removed, one gets the empty value, and one a value of two bytes.
const THREE: [u8; 71] = [
    33, 0, 0, 0, 66, 0, 0, 0, 0, 0, 0, 0, 9, 0, 0, 0, 5, 0, 0, 0, 0, 0, 0, 0, 6, 0, 3, //
    0, 0, 0, 1, 0, 0, 0, 0, 0, 0, 0, 2, 0, 0, //
    0, 0, 0, 7, 0, 0, 0, 0, 0, 0, 0, 8, 1, 0, //
    0, 0, 0, 3, 0, 0, 0, 0, 0, 0, 0, 4, 1, 2, 0xCC, 0xDD,
];

// No changes.
const NOTHING: [u8; 27] = [
    33, 0, 0, 0, 22, 0, 0, 0, 0, 0, 0, 0, 1, 0, 0, 0, 0, 0, 0, 0, 0, 0, 0, 0, 0, 0, 0,
];

const CURRENT: [u8; 13] = [34, 0, 0, 0, 8, 0, 0, 0, 0, 0, 0, 0, 2];

fn vectors() -> [&'static [u8]; 5] {
    [&WANT, &COMMIT, &THREE, &NOTHING, &CURRENT]
}

fn change(table: u32, key: u64, value: Option<&[u8]>) -> Change {
    Change {
        table,
        key,
        value: value.and_then(Value::new),
    }
}

fn sent(
    position: u64,
    writer: u32,
    index: u64,
    changes: Changes,
) -> Result<FollowFrame, AllocError> {
    let commit = Commit {
        writer,
        index,
        changes,
    };
    let commit = SentCommit::new(commit).ok_or(AllocError)?;
    Ok(FollowFrame::Commit { position, commit })
}

// The frames of `vectors`, in its order.
fn frames(alloc: Global) -> Result<Vec<FollowFrame>, AllocError> {
    let one = Changes::with(alloc, change(1, 2, Some(&[0xBB])))?;
    let mut three = Changes::with(alloc, change(1, 2, None))?;
    three.push(change(7, 8, Some(&[])))?;
    three.push(change(3, 4, Some(&[0xCC, 0xDD])))?;
    let mut list = Vec::new(alloc);
    list.push(FollowFrame::Want { position: 1 })?;
    list.push(sent(2, 0, 1, one)?)?;
    list.push(sent(9, 5, 6, three)?)?;
    list.push(sent(1, 0, 0, Changes::new(alloc))?)?;
    list.push(FollowFrame::Current { position: 2 })?;
    Ok(list)
}

// Whether the bytes begin with the spelling of a frame, which is of this length.
fn is_read(alloc: Global, bytes: &[u8], long: usize) -> bool {
    let Ok((frame, read)) = decode(alloc, bytes) else {
        return false;
    };
    let Ok(text) = encode(alloc, &frame) else {
        return false;
    };
    read == long && bytes.get(..long) == Some(text.as_slice())
}

fn why(alloc: Global, bytes: &[u8]) -> Option<FrameRefusal> {
    decode(alloc, bytes).err()
}

// Each frame has its spelling, and the spelling is read as a frame of that spelling, whatever
// follows it.
#[test]
fn spells(rt: HostRuntime) -> Result<(), Fail> {
    let alloc = rt.alloc();
    for (frame, vector) in frames(alloc)?.iter().zip(vectors()) {
        let text = encode(alloc, frame)?;
        assert_eq!(rt; text.as_slice(), vector);
        assert!(rt; is_read(alloc, vector, vector.len()));
        let mut more = Vec::from_slice(alloc, vector)?;
        more.extend_from_slice(&[255; 3])?;
        assert!(rt; is_read(alloc, &more, vector.len()));
    }
    Ok(())
}

// Each front of a frame needs 5 bytes, or those of the frame.
#[test]
fn needs_more(rt: HostRuntime) {
    for vector in vectors() {
        for n in 0..vector.len() {
            let need = if n < 5 { 5 } else { vector.len() };
            assert!(rt; why(rt.alloc(), &vector[..n]) == Some(FrameRefusal::NotYet { need }));
        }
    }
}

// Where a frame of five bytes of head and a position is garbled that had another byte.
fn short_garbled(offset: usize, value: u8) -> Option<usize> {
    match (offset, value) {
        (0, 32) | (0, 34) => None,
        (0, 33) => Some(1),
        (0, _) => Some(0),
        (1..5, _) => Some(1),
        _ => None,
    }
}

// Where the frame of one change of one byte is garbled that had another byte. 22 is the length
// without changes, 36 to 100 are those with one, and 12,502 is the greatest.
fn commit_garbled(offset: usize, value: u8) -> Option<usize> {
    match (offset, value) {
        (0, 32) | (0, 34) => Some(1),
        (0, _) => Some(0),
        (1..3, _) => Some(1),
        (3, 0..49) => Some(25),
        (3, _) => Some(1),
        (4, 22) => Some(25),
        (4, 0..36) => Some(1),
        (4, 36..101) => Some(40),
        (4, _) => Some(25),
        (25..27, _) => Some(25),
        (39, _) => Some(39),
        (40, _) => Some(40),
        _ => None,
    }
}

// The frame with another byte at the offset.
fn changed(alloc: Global, vector: &[u8], offset: usize, value: u8) -> Result<Vec<u8>, AllocError> {
    let mut bytes = Vec::from_slice(alloc, vector)?;
    if let Some(byte) = bytes.get_mut(offset) {
        *byte = value;
    }
    Ok(bytes)
}

// Whether the fronts of the bytes, from the shortest on, need more, and from one on either all are
// garbled at one offset or all begin with one frame.
fn is_decided_once(alloc: Global, bytes: &[u8]) -> bool {
    let mut decided = None;
    for n in 0..bytes.len() + 1 {
        let Some(front) = bytes.get(..n) else {
            return false;
        };
        let now = match decode(alloc, front) {
            Ok((_, long)) => Some(Ok(long)),
            Err(FrameRefusal::NotYet { .. }) => None,
            Err(refusal) => Some(Err(refusal)),
        };
        if decided.is_some() && decided != now {
            return false;
        }
        decided = now;
    }
    true
}

// Each byte changed to each other value.
fn is_answered(
    alloc: Global,
    vector: &[u8],
    garbled_at: fn(usize, u8) -> Option<usize>,
) -> Result<bool, AllocError>
    requires { IsAlwaysCallable garbled_at }
{
    for offset in 0..vector.len() {
        for value in 0..=255_u8 {
            if vector.get(offset) == Some(&value) {
                continue;
            }
            let bytes = changed(alloc, vector, offset, value)?;
            let right = match garbled_at(offset, value) {
                Some(at) => why(alloc, &bytes) == Some(FrameRefusal::Garbled { at }),
                None => is_read(alloc, &bytes, vector.len()),
            };
            if !right {
                return Ok(false);
            }
        }
    }
    Ok(true)
}

#[test]
fn changed_bytes(rt: HostRuntime) -> Result<(), Fail> {
    let alloc = rt.alloc();
    assert!(rt; is_answered(alloc, &WANT, short_garbled)?);
    assert!(rt; is_answered(alloc, &CURRENT, short_garbled)?);
    assert!(rt; is_answered(alloc, &COMMIT, commit_garbled)?);
    Ok(())
}

// Bytes changed to a few values, in frames with no change, with one and with three.
#[test]
fn decided_once(rt: HostRuntime) -> Result<(), Fail> {
    let alloc = rt.alloc();
    for vector in vectors() {
        for offset in 0..vector.len() {
            for value in [0, 1, 2, 33, 255] {
                let bytes = changed(alloc, vector, offset, value)?;
                assert!(rt; is_decided_once(alloc, &bytes));
            }
        }
    }
    Ok(())
}

// A frame with so many changes, whose values have so many bytes each.
fn many(alloc: Global, count: usize, size: usize) -> Result<FollowFrame, AllocError> {
    let bytes = [7; 64];
    let mut changes = Changes::new(alloc);
    for key in 0..count {
        changes.push(change(1, key as u64, bytes.get(..size)))?;
    }
    sent(1, 0, 0, changes)
}

// There are at most 160 changes, whose values have at most 64 bytes each.
#[test]
fn most_changes(rt: HostRuntime) -> Result<(), Fail> {
    let alloc = rt.alloc();
    let text = encode(alloc, &many(alloc, 160, 64)?)?;
    assert_eq!(rt; text.len(), 12_507);
    assert!(rt; is_read(alloc, &text, 12_507));
    let front = text.get(..12_506).ok_or("a front")?;
    assert!(rt; why(alloc, front) == Some(FrameRefusal::NotYet { need: 12_507 }));
    let least = encode(alloc, &many(alloc, 160, 0)?)?;
    assert_eq!(rt; least.len(), 2_267);
    assert!(rt; is_read(alloc, &least, 2_267));
    assert!(rt; many(alloc, 161, 0).is_err());
    Ok(())
}

// The lengths of COMMIT: 22, and 36 to 12,502.
#[test]
fn lengths(rt: HostRuntime) {
    for long in 0..13_000_u32 {
        let [_, _, high, low] = long.to_be_bytes();
        let refusal = if long == 22 || (36..12_503).contains(&long) {
            FrameRefusal::NotYet {
                need: 5 + long as usize,
            }
        } else {
            FrameRefusal::Garbled { at: 1 }
        };
        assert!(rt; why(rt.alloc(), &[33, 0, 0, high, low]) == Some(refusal));
    }
}
