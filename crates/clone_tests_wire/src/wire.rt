use clone_base::BLOCK_PAGES;
use clone_chunk::{
    Bitmap, CloneCause, CopyStage, MOST_PARTIAL, PartialChunk, Partials, RedoBytes, SpaceSize,
    Spaces, StagePlan, TakenBlocks,
};
use clone_page::{Page, PageAt, Pages};
use clone_wire::*;
use std::alloc::{AllocError, Global};
use std::test::*;

const ATTEMPT: Attempt = Attempt {
    session: 1,
    incarnation: 1,
};

/// The bytes of a frame of a side.
#[derive(Drop)]
struct Vector<'a> {
    name: &'static str,
    side: Side,
    bytes: &'a [u8],
}

const INIT: [u8; 25] = [
    1, 0, 0, 0, 20, 0, 1, 0, 0, 16, 0, 0, 1, 0, 0, 0, 0, 0, 0, 0, 1, 0, 0, 0, 1,
];

const ATTACH: [u8; 18] = [2, 0, 0, 0, 13, 0, 0, 0, 0, 0, 0, 0, 1, 0, 0, 0, 1, 3];

const REINIT: [u8; 23] = [
    3, 0, 0, 0, 18, 0, 0, 0, 0, 0, 0, 0, 1, 0, 0, 0, 1, 1, 0, 0, 0, 6, 5,
];

const EXECUTE: [u8; 6] = [4, 0, 0, 0, 1, 1];

const ACK: [u8; 14] = [5, 0, 0, 0, 9, 1, 0, 0, 0, 0, 0, 0, 0, 0];

const EXIT: [u8; 5] = [6, 0, 0, 0, 0];

// Of six chunks none is finished; block 0 of chunk 0 was taken.
const REINIT2: [u8; 32] = [
    7, 0, 0, 0, 27, 0, 0, 0, 0, 0, 0, 0, 1, 0, 0, 0, 2, 1, 0, 0, 0, 6, 0, //
    0, 0, 0, 1, 0, 0, 0, 0, 1,
];

// Of six chunks 0 and 2 are finished; of chunk 1 four blocks were taken, and of chunk 9, which is
// past the count, all but the first.
const REINIT2_OF_TWO: [u8; 37] = [
    7, 0, 0, 0, 32, 0, 0, 0, 0, 0, 0, 0, 1, 0, 0, 0, 2, 2, 0, 0, 0, 6, 5, //
    0, 0, 0, 2, 0, 0, 0, 1, 15, 0, 0, 0, 9, 254,
];

const STAGE_OF_FILES: [u8; 64] = [
    16, 0, 0, 0, 59, 0, 0, 0, 0, 0, 0, 0, 1, 0, 0, 0, 1, 1, 0, 0, 0, 6, //
    0, 0, 0, 0, 0, 0, 0, 0, 0, 0, 0, 0, 0, 0, 0, 0, 0, 0, 0, 0, 0, 0, 0, 0, 0, 2, //
    0, 0, 0, 0, 0, 0, 1, 1, 0, 0, 0, 1, 0, 0, 0, 4,
];

const STAGE_OF_PAGES: [u8; 48] = [
    16, 0, 0, 0, 43, 0, 0, 0, 0, 0, 0, 0, 1, 0, 0, 0, 1, 2, 0, 0, 0, 1, //
    0, 0, 0, 0, 0, 0, 0, 0, 0, 0, 0, 0, 0, 0, 0, 0, 0, 0, 0, 0, 0, 0, 0, 5, 0, 0,
];

// A space that was created since has the number 2, and 2 pages.
const STAGE_WITH_SPACE: [u8; 56] = [
    16, 0, 0, 0, 51, 0, 0, 0, 0, 0, 0, 0, 1, 0, 0, 0, 1, 2, 0, 0, 0, 1, //
    0, 0, 0, 0, 0, 0, 0, 0, 0, 0, 0, 0, 0, 0, 0, 0, 0, 0, 0, 0, 0, 0, 0, 5, 0, 1, //
    0, 0, 0, 2, 0, 0, 0, 2,
];

const STAGE_OF_REDO: [u8; 48] = [
    16, 0, 0, 0, 43, 0, 0, 0, 0, 0, 0, 0, 1, 0, 0, 0, 1, 3, 0, 0, 0, 1, //
    0, 0, 0, 0, 0, 0, 32, 0, 0, 0, 0, 0, 0, 0, 33, 125, 0, 0, 0, 0, 0, 0, 0, 1, 0, 0,
];

const STAGE_DONE: [u8; 48] = [
    16, 0, 0, 0, 43, 0, 0, 0, 0, 0, 0, 0, 1, 0, 0, 0, 1, 4, 0, 0, 0, 0, //
    0, 0, 0, 0, 0, 0, 32, 0, 0, 0, 0, 0, 0, 0, 33, 125, 0, 0, 0, 0, 0, 0, 0, 1, 0, 0,
];

const REDO: [u8; 38] = [
    18, 0, 0, 0, 33, 0, 0, 0, 0, 0, 0, 0, 1, 0, 0, 0, 1, 3, 0, 0, 0, 2, 1, //
    0, 0, 0, 0, 0, 0, 32, 0, 0, 0, 0, 3, 7, 8, 9,
];

const END: [u8; 18] = [19, 0, 0, 0, 13, 0, 0, 0, 0, 0, 0, 0, 1, 0, 0, 0, 1, 2];

const REFUSED_9: [u8; 22] = [
    20, 0, 0, 0, 17, 9, 0, 0, 0, 0, 0, 0, 0, 3, 0, 0, 0, 0, 0, 0, 0, 0,
];

const REFUSED_6: [u8; 22] = [
    20, 0, 0, 0, 17, 6, 0, 0, 0, 0, 0, 0, 0, 0, 0, 0, 0, 0, 0, 0, 0, 0,
];

// The front of PAGES with eight pages, whose payload has 32,851 bytes.
const PAGES: [u8; 24] = [
    17, 0, 0, 128, 83, 0, 0, 0, 0, 0, 0, 0, 1, 0, 0, 0, 1, 1, 0, 0, 0, 0, 0, 8,
];

/// A field of a payload that may not have every number: the frame, the offset where the field
/// begins, its bytes, and the least and the most that it may have. A count of chunks from 41 to 48
/// would go with the lengths of REINIT2 too, but no change makes one.
type Field = (&'static str, usize, usize, u64, u64);

const FIELDS: [Field; 45] = [
    ("INIT", 11, 1, 0, 1),
    ("REINIT", 17, 1, 1, 3),
    ("REINIT", 18, 4, 1, 8),
    ("REINIT", 22, 1, 0, 63),
    ("EXECUTE", 5, 1, 1, 3),
    ("ACK", 5, 1, 1, 3),
    ("REINIT2", 17, 1, 1, 3),
    ("REINIT2", 18, 4, 1, 8),
    ("REINIT2", 22, 1, 0, 63),
    ("REINIT2", 23, 4, 1, 1),
    ("REINIT2", 31, 1, 1, 254),
    ("REINIT2 of two", 17, 1, 1, 3),
    ("REINIT2 of two", 18, 4, 1, 8),
    ("REINIT2 of two", 22, 1, 0, 63),
    ("REINIT2 of two", 23, 4, 2, 2),
    ("REINIT2 of two", 31, 1, 1, 254),
    ("REINIT2 of two", 36, 1, 1, 254),
    ("STAGE of files", 17, 1, 1, 2),
    ("STAGE of files", 22, 8, 0, 0),
    ("STAGE of files", 30, 8, 0, 0),
    ("STAGE of files", 38, 8, 0, 0),
    ("STAGE of files", 46, 2, 2, 2),
    ("STAGE of pages", 17, 1, 1, 4),
    ("STAGE of pages", 22, 8, 0, 0),
    ("STAGE of pages", 30, 8, 0, 0),
    ("STAGE of pages", 46, 2, 0, 0),
    ("STAGE with a space", 17, 1, 1, 2),
    ("STAGE with a space", 22, 8, 0, 0),
    ("STAGE with a space", 30, 8, 0, 0),
    ("STAGE with a space", 46, 2, 1, 1),
    ("STAGE of redo", 17, 1, 1, 4),
    ("STAGE of redo", 46, 2, 0, 0),
    ("STAGE, done", 17, 1, 1, 4),
    ("STAGE, done", 18, 4, 0, 0),
    ("STAGE, done", 46, 2, 0, 0),
    ("PAGES", 17, 1, 1, 2),
    ("PAGES", 23, 1, 8, 8),
    ("REDO", 17, 1, 3, 3),
    ("REDO", 31, 4, 3, 3),
    ("END", 17, 1, 1, 3),
    ("REFUSED 9", 5, 1, 1, 12),
    ("REFUSED 9", 14, 8, 0, 0),
    ("REFUSED 6", 5, 1, 1, 12),
    ("REFUSED 6", 6, 8, 0, 0),
    ("REFUSED 6", 14, 8, 0, 0),
];

/// A change that is in its own field's range and is wrong by a later field: the frame, the changed
/// byte's offset, its value, and the offset where the later field begins. Another code of the side
/// goes with another length. Another length that the code has goes with another number of chunks in
/// REINIT and REINIT2, with another number of spaces, which stages after the second don't have, in
/// STAGE, and with another length of the redo in REDO. A chunk whose bit is set isn't partial, nor
/// one that isn't above the chunk before it. Nothing is left to copy in the last stage.
type Later = (&'static str, usize, u8, usize);

const LATER: [Later; 50] = [
    ("INIT", 0, 2, 1),
    ("ATTACH", 0, 3, 1),
    ("REINIT", 0, 4, 1),
    ("REINIT", 2, 1, 18),
    ("REINIT", 3, 1, 18),
    ("REINIT", 3, 255, 18),
    ("REINIT", 4, 19, 18),
    ("REINIT", 4, 255, 18),
    ("EXECUTE", 0, 5, 1),
    ("ACK", 0, 6, 1),
    ("EXIT", 0, 7, 1),
    ("REINIT2", 2, 1, 18),
    ("REINIT2", 3, 1, 18),
    ("REINIT2", 3, 255, 18),
    ("REINIT2", 4, 28, 18),
    ("REINIT2", 4, 255, 18),
    ("REINIT2", 22, 1, 27),
    ("REINIT2 of two", 2, 1, 18),
    ("REINIT2 of two", 3, 1, 18),
    ("REINIT2 of two", 3, 255, 18),
    ("REINIT2 of two", 4, 33, 18),
    ("REINIT2 of two", 4, 255, 18),
    ("REINIT2 of two", 22, 6, 27),
    ("REINIT2 of two", 27, 1, 32),
    ("REINIT2 of two", 27, 255, 32),
    ("REINIT2 of two", 28, 1, 32),
    ("REINIT2 of two", 28, 255, 32),
    ("REINIT2 of two", 29, 1, 32),
    ("REINIT2 of two", 29, 255, 32),
    ("REINIT2 of two", 30, 0, 27),
    ("REINIT2 of two", 30, 2, 27),
    ("REINIT2 of two", 30, 255, 32),
    ("REINIT2 of two", 35, 0, 32),
    ("STAGE of files", 0, 17, 1),
    ("STAGE of files", 3, 1, 46),
    ("STAGE of pages", 0, 17, 1),
    ("STAGE of pages", 3, 1, 46),
    ("STAGE with a space", 0, 17, 1),
    ("STAGE with a space", 3, 1, 46),
    ("STAGE of redo", 0, 17, 1),
    ("STAGE of redo", 3, 1, 17),
    ("STAGE of redo", 17, 4, 18),
    ("STAGE, done", 0, 17, 1),
    ("STAGE, done", 3, 1, 17),
    ("PAGES", 0, 18, 1),
    ("REDO", 0, 19, 1),
    ("REDO", 3, 1, 31),
    ("REDO", 4, 34, 31),
    ("REDO", 4, 255, 31),
    ("END", 0, 20, 1),
];

fn command<'a>(name: &'static str, bytes: &'a [u8]) -> Vector<'a> {
    Vector {
        name,
        side: Side::Command,
        bytes,
    }
}

fn answer<'a>(name: &'static str, bytes: &'a [u8]) -> Vector<'a> {
    Vector {
        name,
        side: Side::Answer,
        bytes,
    }
}

fn vectors() -> [Vector<'static>; 17] {
    [
        command("INIT", &INIT),
        command("ATTACH", &ATTACH),
        command("REINIT", &REINIT),
        command("EXECUTE", &EXECUTE),
        command("ACK", &ACK),
        command("EXIT", &EXIT),
        command("REINIT2", &REINIT2),
        answer("STAGE of files", &STAGE_OF_FILES),
        answer("STAGE of pages", &STAGE_OF_PAGES),
        answer("STAGE with a space", &STAGE_WITH_SPACE),
        answer("STAGE of redo", &STAGE_OF_REDO),
        answer("STAGE, done", &STAGE_DONE),
        answer("REDO", &REDO),
        answer("END", &END),
        answer("REFUSED 9", &REFUSED_9),
        answer("REFUSED 6", &REFUSED_6),
        command("REINIT2 of two", &REINIT2_OF_TWO),
    ]
}

// The frames of commands.
fn commands(alloc: Global) -> Result<Vec<Frame>, AllocError> {
    let mut finished = Bitmap::new(alloc, 6)?;
    finished.set(0);
    finished.set(2);
    Ok(Vec::from_array(
        alloc,
        [
            Frame::Init {
                attempt: ATTEMPT,
                version: 1,
                page_size: 4096,
                compressed: false,
                tasks: 1,
            },
            Frame::Attach {
                attempt: ATTEMPT,
                task: 3,
            },
            Frame::Reinit {
                attempt: ATTEMPT,
                stage: CopyStage::FileCopy,
                finished,
            },
            Frame::Execute {
                stage: CopyStage::FileCopy,
            },
            Frame::Ack {
                stage: CopyStage::FileCopy,
                floor: 0,
            },
            Frame::Exit,
            Frame::Reinit2 {
                attempt: Attempt {
                    session: 1,
                    incarnation: 2,
                },
                stage: CopyStage::FileCopy,
                taken: first_block(alloc)?,
            },
        ],
    )?)
}

// Of six chunks none is finished, and the first block of the first was taken.
fn first_block(alloc: Global) -> Result<TakenBlocks, AllocError> {
    let mut partials = Partials::new(alloc);
    partials.push(PartialChunk { chunk: 0, mask: 1 })?;
    Ok(TakenBlocks::new(Bitmap::new(alloc, 6)?, partials))
}

fn stage(plan: StagePlan) -> Frame {
    Frame::Stage {
        attempt: ATTEMPT,
        plan,
    }
}

// What a donor says of each stage.
fn stages(alloc: Global) -> Result<Vec<Frame>, AllocError> {
    let mut spaces = Spaces::new(alloc);
    spaces.push(SpaceSize {
        space: 0,
        pages: 257,
    })?;
    spaces.push(SpaceSize { space: 1, pages: 4 })?;
    let mut created = Spaces::new(alloc);
    created.push(SpaceSize { space: 2, pages: 2 })?;
    Ok(Vec::from_array(
        alloc,
        [
            stage(StagePlan::FileCopy { chunks: 6, spaces }),
            stage(StagePlan::PageCopy {
                chunks: 1,
                position: 5,
                spaces: Spaces::new(alloc),
            }),
            stage(StagePlan::PageCopy {
                chunks: 1,
                position: 5,
                spaces: created,
            }),
            stage(StagePlan::RedoCopy {
                chunks: 1,
                checkpoint: 8192,
                lsn: 8573,
                position: 1,
            }),
            stage(StagePlan::Done {
                checkpoint: 8192,
                lsn: 8573,
                position: 1,
            }),
        ],
    )?)
}

// The other answers, without blocks of pages.
fn others(alloc: Global) -> Result<Vec<Frame>, AllocError> {
    Ok(Vec::from_array(
        alloc,
        [
            Frame::Redo {
                attempt: ATTEMPT,
                chunk: 2,
                block: 1,
                from: 8192,
                bytes: RedoBytes::new(alloc, &[7, 8, 9])?,
            },
            Frame::End {
                attempt: ATTEMPT,
                stage: CopyStage::PageCopy,
            },
            Frame::Refused {
                cause: CloneCause::ChunksLeft { count: 3 },
            },
            Frame::Refused {
                cause: CloneCause::NoSuchSession,
            },
        ],
    )?)
}

// The frames of `vectors`, in its order, but for the last of them.
fn frames(alloc: Global) -> Result<Vec<Frame>, AllocError> {
    let mut list = commands(alloc)?;
    list.append(&mut stages(alloc)?)?;
    list.append(&mut others(alloc)?)?;
    Ok(list)
}

// Each frame has its spelling, and the spelling is read as a frame of that spelling.
#[test]
fn spells(rt: HostRuntime) -> Result<(), Fail> {
    let alloc = rt.alloc();
    let list = frames(alloc)?;
    for (frame, vector) in list.iter().zip(vectors()) {
        let text = encode(alloc, frame)?;
        assert_eq!(rt; text.as_slice(), vector.bytes);
    }
    for vector in vectors() {
        assert!(rt; is_read(alloc, &vector, vector.bytes));
    }
    Ok(())
}

// Whether all of the bytes are the spelling of a frame of the vector's side.
fn is_read(alloc: Global, vector: &Vector, bytes: &[u8]) -> bool {
    let Ok((frame, long)) = decode(alloc, bytes, vector.side) else {
        return false;
    };
    let Ok(text) = encode(alloc, &frame) else {
        return false;
    };
    long == bytes.len() && text.as_slice() == bytes
}

// Each front of a frame needs 5 bytes, or those of the frame.
#[test]
fn needs_more(rt: HostRuntime) {
    for vector in vectors() {
        for n in 0..vector.bytes.len() {
            let need = if n < 5 { 5 } else { vector.bytes.len() };
            let refusal = decode(rt.alloc(), &vector.bytes[..n], vector.side).err();
            assert!(rt; refusal == Some(WireRefusal::NotYet { need }));
        }
    }
}

// Each byte of each frame, changed to 0, to 255 and by one.
#[test]
fn changed_bytes(rt: HostRuntime) {
    for vector in vectors() {
        for offset in 0..vector.bytes.len() {
            assert!(rt; is_told_at(rt.alloc(), &vector, offset));
        }
    }
}

fn is_told_at(alloc: Global, vector: &Vector, offset: usize) -> bool {
    let Some(byte) = vector.bytes.get(offset) else {
        return false;
    };
    for value in [0, 255, byte.wrapping_add(1)] {
        if value != *byte && !is_told(alloc, vector, offset, value) {
            return false;
        }
    }
    true
}

// Whether a change of one byte is answered as the tables say.
fn is_told(alloc: Global, vector: &Vector, offset: usize, value: u8) -> bool {
    let Ok(mut bytes) = Vec::from_slice(alloc, vector.bytes) else {
        return false;
    };
    let Some(byte) = bytes.get_mut(offset) else {
        return false;
    };
    *byte = value;
    match garbled_at(vector.name, &bytes, offset, value) {
        Some(at) => decode(alloc, &bytes, vector.side).err() == Some(WireRefusal::Garbled { at }),
        None => is_read(alloc, vector, &bytes),
    }
}

// Where a frame is garbled after a change of one byte, by the tables.
fn garbled_at(name: &str, bytes: &[u8], offset: usize, value: u8) -> Option<usize> {
    for (of, at, byte, later) in LATER {
        if of == name && at == offset && byte == value {
            return Some(later);
        }
    }
    if offset < 5 {
        return Some(offset.min(1));
    }
    for (of, at, width, least, most) in FIELDS {
        let number = number_at(bytes, at, width);
        if of == name && (number < least || most < number) {
            return Some(at);
        }
    }
    None
}

fn number_at(bytes: &[u8], at: usize, width: usize) -> u64 {
    let mut number: u64 = 0;
    for byte in bytes.iter().skip(at).take(width) {
        number = number.wrapping_mul(256).wrapping_add(*byte as u64);
    }
    number
}

fn why(alloc: Global, bytes: &[u8], side: Side) -> Option<WireRefusal> {
    decode(alloc, bytes, side).err()
}

#[test]
fn garbled(rt: HostRuntime) {
    let alloc = rt.alloc();
    let at = |at: usize| Some(WireRefusal::Garbled { at });
    assert!(rt; why(alloc, &[9, 0, 0, 0, 0], Side::Answer) == at(0));
    assert!(rt; why(alloc, &INIT, Side::Answer) == at(0));
    assert!(rt; why(alloc, &[0x11, 0, 1, 0, 0], Side::Answer) == at(1));
    assert!(rt; why(alloc, &[0x11, 0, 1], Side::Answer) == at(1));
    assert!(rt; why(alloc, &[0x11, 0, 0, 0x11], Side::Answer) == at(1));
    assert!(rt; why(alloc, &[0x10, 0, 0, 0, 44], Side::Answer) == at(1));
    assert!(rt; why(alloc, &[4, 0, 0, 0, 1, 4], Side::Command) == at(5));
    assert!(rt; why(alloc, &[4, 0, 0, 0, 1, 0], Side::Command) == at(5));
}

/// The front of a frame, and the bytes after it: the first garbled field begins at the offset, if
/// there is one, and else more bytes are needed.
type Front = (usize, &'static [u8], Option<usize>);

// Fronts of REINIT2 of two partial chunks with other bytes after them, which end within a field.
// No chunk is above the last, and none that begins with 0 is above 16,777,216.
const FRONTS: [Front; 10] = [
    (18, &[0], None),
    (18, &[1], Some(18)),
    (18, &[0, 0, 0], None),
    (18, &[0, 0, 1], Some(18)),
    (27, &[255, 255, 255], None),
    (27, &[255, 255, 255, 254], None),
    (27, &[255, 255, 255, 255], Some(27)),
    (27, &[1, 0, 0, 0, 15, 0], Some(32)),
    (27, &[0, 255, 255, 255, 15, 0], Some(32)),
    (27, &[1, 0, 0, 0, 15, 1], None),
];

#[test]
fn partial_fields(rt: HostRuntime) -> Result<(), Fail> {
    let alloc = rt.alloc();
    for (long, after, garbled) in FRONTS {
        let mut bytes = Vec::from_slice(alloc, REINIT2_OF_TWO.get(..long).ok_or("a front")?)?;
        bytes.extend_from_slice(after)?;
        let refusal = match garbled {
            Some(at) => WireRefusal::Garbled { at },
            None => WireRefusal::NotYet { need: 37 },
        };
        assert!(rt; why(alloc, &bytes, Side::Command) == Some(refusal));
    }
    Ok(())
}

// The front of a frame up to its partial chunks: of 2,048 chunks each is finished.
fn all_finished(alloc: Global) -> Result<Vec<u8>, AllocError> {
    let mut bytes = Vec::from_slice(alloc, &[7, 0, 0, 1, 26])?;
    bytes.extend_from_slice(&[0, 0, 0, 0, 0, 0, 0, 1, 0, 0, 0, 2, 1, 0, 0, 8, 0])?;
    bytes.extend_from_slice(&[255; 256])?;
    bytes.extend_from_slice(&[0, 0, 0, 1])?;
    Ok(bytes)
}

// Chunks from 0 to 2,047 can't be partial, so three bytes of them are garbled, and two aren't.
#[test]
fn finished_chunks(rt: HostRuntime) -> Result<(), Fail> {
    let alloc = rt.alloc();
    let mut bytes = all_finished(alloc)?;
    bytes.extend_from_slice(&[0, 0])?;
    assert!(rt; why(alloc, &bytes, Side::Command) == Some(WireRefusal::NotYet { need: 287 }));
    bytes.extend_from_slice(&[7])?;
    assert!(rt; why(alloc, &bytes, Side::Command) == Some(WireRefusal::Garbled { at: 282 }));
    let mut other = all_finished(alloc)?;
    other.extend_from_slice(&[0, 0, 8, 0, 3])?;
    assert!(rt; is_read(alloc, &command("2,048 finished", &other), &other));
    Ok(())
}

// A frame of so many partial chunks, without a bitmap.
fn many(alloc: Global, count: u16) -> Result<Vec<u8>, AllocError> {
    let [high, low] = count.to_be_bytes();
    let [_, _, long, short] = (21 + 5 * count as u32).to_be_bytes();
    let mut bytes = Vec::from_slice(alloc, &[7, 0, 0, long, short])?;
    bytes.extend_from_slice(&[0, 0, 0, 0, 0, 0, 0, 1, 0, 0, 0, 2, 1, 0, 0, 0, 0])?;
    bytes.extend_from_slice(&[0, 0, high, low])?;
    for chunk in 0..count {
        let [above, below] = chunk.to_be_bytes();
        bytes.extend_from_slice(&[0, 0, above, below, 254])?;
    }
    Ok(bytes)
}

// There are at most 1,616 partial chunks. One more would go with a bitmap alone.
#[test]
fn most_partial_chunks(rt: HostRuntime) -> Result<(), Fail> {
    let alloc = rt.alloc();
    let most = many(alloc, MOST_PARTIAL as u16)?;
    assert!(rt; is_read(alloc, &command("1,616 partial", &most), &most));
    let more = many(alloc, 1_617)?;
    assert!(rt; why(alloc, &more, Side::Command) == Some(WireRefusal::Garbled { at: 18 }));
    Ok(())
}

#[test]
fn heads(rt: HostRuntime) {
    assert!(rt; matches!(read_head(&INIT, Side::Command), Ok((1, 20))));
    assert!(rt;
        matches!(
            read_head(&INIT[..4], Side::Command),
            Err(HeadRefusal::NotYet { need: 5 })
        )
    );
    assert!(rt;
        matches!(
            read_head(&INIT, Side::Answer),
            Err(HeadRefusal::Garbled { at: 0 })
        )
    );
    assert!(rt;
        matches!(
            read_head(&[1, 1], Side::Command),
            Err(HeadRefusal::Garbled { at: 1 })
        )
    );
}

// Page n of eight is filled with the number n.
fn pages_bytes(alloc: Global) -> Result<Vec<u8>, AllocError> {
    let mut bytes = Vec::from_slice(alloc, &PAGES)?;
    for number in 0..8 {
        bytes.extend_from_slice(&[0, 0, 0, 1, 0, 0, 0, number])?;
        bytes.extend_from_slice(&[number; 4096])?;
    }
    Ok(bytes)
}

fn pages_frame(alloc: Global) -> Result<Frame, AllocError> {
    let mut list = Vec::with_capacity(alloc, 8)?;
    for number in 0..8_u8 {
        list.push(PageAt {
            space: 1,
            number: number as u32,
            page: Page::from_bytes(&[number; 4096]),
        })?;
    }
    if list.is_empty() || list.len() > BLOCK_PAGES {
        return Err(AllocError);
    }
    Ok(Frame::Pages {
        attempt: ATTEMPT,
        stage: PageStage::FileCopy,
        chunk: 0,
        block: 0,
        pages: Pages::new(list),
    })
}

// Of the 32,856 bytes of a frame of eight pages those of the head are changed, those of the first
// and the last page's place, the first and last bytes of these pages, and two between.
#[test]
fn eight_pages(rt: HostRuntime) -> Result<(), Fail> {
    let alloc = rt.alloc();
    let bytes = pages_bytes(alloc)?;
    assert_eq!(rt; bytes.len(), 32_856);
    let text = encode(alloc, &pages_frame(alloc)?)?;
    assert!(rt; text == bytes);
    let vector = answer("PAGES", &bytes);
    assert!(rt; is_read(alloc, &vector, &bytes));
    let offsets = (0..33)
        .chain([4127, 4128, 16_000])
        .chain(28_751..28_761)
        .chain([32_855]);
    for offset in offsets {
        assert!(rt; is_told_at(alloc, &vector, offset));
        let front = bytes.get(..offset).ok_or("a front")?;
        let need = if offset < 5 { 5 } else { 32_856 };
        assert!(rt; decode(alloc, front, Side::Answer).err() == Some(WireRefusal::NotYet { need }));
    }
    Ok(())
}
