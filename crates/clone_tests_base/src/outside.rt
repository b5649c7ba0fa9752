use clone_outside::{CloneEnd, Mark, MemSink, MemSource, Refusal, Sink, Source, write_all};
use std::alloc::AllocError;

#[test]
fn reads_on_after_a_fault(rt: HostRuntime) -> Result<(), AllocError> {
    let mut source = MemSource::new(rt.alloc(), b"abc".to_vec(rt.alloc())?);
    source.fail_at(2)?;
    let mut piece = [0; 2];
    let outcomes = [
        (Ok(2), *b"ab"),
        (Err(Refusal::Fault), *b"ab"),
        (Ok(1), *b"cb"),
        (Ok(0), *b"cb"),
    ];
    for (outcome, bytes) in outcomes {
        assert!(rt; source.read(&mut piece) == outcome && piece == bytes);
    }
    assert!(rt; source.faults() == 1);
    Ok(())
}

// Takes one byte a call.
#[derive(Drop)]
struct ByteByByte {
    sink: MemSink,
}

impl Sink for ByteByByte {
    ghost use Rattle.std.specs.Prelude.{Some};

    ghost taken = { λ s. Some s.sink.bytes };

    ghost failures = { λ s. s.sink.calls.faults };

    fn faults(&self) -> u64 {
        self.sink.faults()
    }

    fn write(&mut self, from: &[u8]) -> Result<usize, Refusal> {
        self.sink.write(&from[..from.len().min(1)])
    }
}

// The fifth call, and with it the second byte of the second text, fails.
#[test]
fn writes_on_until_all_is_taken(rt: HostRuntime) -> Result<(), AllocError> {
    let mut slow = ByteByByte {
        sink: MemSink::new(rt.alloc()),
    };
    slow.sink.fail_at(5)?;
    assert!(rt; write_all(&mut slow, b"abc") == Ok(()));
    assert!(rt; write_all(&mut slow, b"def") == Err(Refusal::Fault));
    assert!(rt; slow.sink.bytes() == b"abcd".as_slice() && slow.faults() == 1);
    Ok(())
}

/// The mark of a clone of session 1 that is complete: its letters and its kind, zeros up to 16, the
/// session, the checkpoint 8,192, the LSN 8,213 and the position 258, and zeros.
const COMPLETE: [u8; 64] = [
    b'C', b'L', b'O', b'N', b'M', b'A', b'R', b'K', 2, 0, 0, 0, 0, 0, 0, 0, //
    0, 0, 0, 0, 0, 0, 0, 1, 0, 0, 0, 0, 0, 0, 0x20, 0, //
    0, 0, 0, 0, 0, 0, 0x20, 0x15, 0, 0, 0, 0, 0, 0, 1, 2, //
    0, 0, 0, 0, 0, 0, 0, 0, 0, 0, 0, 0, 0, 0, 0, 0,
];

#[test]
fn a_complete_mark_has_these_bytes(rt: HostRuntime) {
    let mark = Mark::Complete(CloneEnd {
        session: 1,
        checkpoint: 8_192,
        lsn: 8_213,
        position: 258,
    });
    assert!(rt; mark.to_bytes() == COMPLETE);
    assert!(rt; Mark::from_bytes(&COMPLETE) == Some(mark));
}

// A letter, no kind, another kind, a zero in front, a checkpoint above the LSN, an LSN of 2^39, and
// the last zero.
#[test]
fn other_bytes_are_no_mark(rt: HostRuntime) {
    let others = [
        (0, b'c'),
        (8, 0),
        (8, 5),
        (9, 1),
        (30, 0x21),
        (35, 128),
        (63, 1),
    ];
    for (at, byte) in others {
        let mut bytes = COMPLETE;
        bytes[at] = byte;
        assert!(rt; Mark::from_bytes(&bytes).is_none(), "at {at}");
    }
}

// The kinds of marks that have an end.
#[test]
fn a_mark_of_each_kind(rt: HostRuntime) {
    for kind in 1..5 {
        let mut bytes = COMPLETE;
        bytes[8] = kind;
        let mark = Mark::from_bytes(&bytes);
        let is_right = match (kind, mark) {
            (1, Some(Mark::Ending(_))) => true,
            (2, Some(Mark::Complete(_))) => true,
            (3, Some(Mark::Recovered(_))) => true,
            (4, Some(Mark::Staged(_))) => true,
            _ => false,
        };
        assert!(rt; is_right, "kind {kind}");
    }
}
