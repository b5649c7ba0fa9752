use crate::script::{Noted, Script};
use clone_chunk::CloneCause;
use clone_serve::{ServeAnswer, ServeCore};
use std::alloc::{AllocError, Global};

const INIT: [u8; 25] = [
    1, 0, 0, 0, 20, 0, 1, 0, 0, 16, 0, 0, 1, 0, 0, 0, 0, 0, 0, 0, 1, 0, 0, 0, 1,
];

const ATTACH: [u8; 18] = [2, 0, 0, 0, 13, 0, 0, 0, 0, 0, 0, 0, 1, 0, 0, 0, 1, 3];

const REINIT: [u8; 23] = [
    3, 0, 0, 0, 18, 0, 0, 0, 0, 0, 0, 0, 1, 0, 0, 0, 1, 1, 0, 0, 0, 6, 5,
];

// Of session 1 in its second incarnation: of six chunks none is finished, and block 0 of chunk 0 is
// there.
const REINIT2: [u8; 32] = [
    7, 0, 0, 0, 27, 0, 0, 0, 0, 0, 0, 0, 1, 0, 0, 0, 2, 1, 0, 0, 0, 6, 0, //
    0, 0, 0, 1, 0, 0, 0, 0, 1,
];

const EXIT: [u8; 5] = [6, 0, 0, 0, 0];

const STAGE_OF_FILES: [u8; 64] = [
    16, 0, 0, 0, 59, 0, 0, 0, 0, 0, 0, 0, 1, 0, 0, 0, 1, 1, 0, 0, 0, 6, //
    0, 0, 0, 0, 0, 0, 0, 0, 0, 0, 0, 0, 0, 0, 0, 0, 0, 0, 0, 0, 0, 0, 0, 0, 0, 2, //
    0, 0, 0, 0, 0, 0, 1, 1, 0, 0, 0, 1, 0, 0, 0, 4,
];

const STAGE_OF_PAGES: [u8; 48] = [
    16, 0, 0, 0, 43, 0, 0, 0, 0, 0, 0, 0, 1, 0, 0, 0, 1, 2, 0, 0, 0, 1, //
    0, 0, 0, 0, 0, 0, 0, 0, 0, 0, 0, 0, 0, 0, 0, 0, 0, 0, 0, 0, 0, 0, 0, 5, 0, 0,
];

const STAGE_OF_REDO: [u8; 48] = [
    16, 0, 0, 0, 43, 0, 0, 0, 0, 0, 0, 0, 1, 0, 0, 0, 1, 3, 0, 0, 0, 1, //
    0, 0, 0, 0, 0, 0, 32, 0, 0, 0, 0, 0, 0, 0, 33, 125, 0, 0, 0, 0, 0, 0, 0, 1, 0, 0,
];

const STAGE_DONE: [u8; 48] = [
    16, 0, 0, 0, 43, 0, 0, 0, 0, 0, 0, 0, 1, 0, 0, 0, 1, 4, 0, 0, 0, 0, //
    0, 0, 0, 0, 0, 0, 32, 0, 0, 0, 0, 0, 0, 0, 33, 125, 0, 0, 0, 0, 0, 0, 0, 1, 0, 0,
];

const REDO: [u8; 38] = [
    18, 0, 0, 0, 33, 0, 0, 0, 0, 0, 0, 0, 1, 0, 0, 0, 1, 3, 0, 0, 0, 0, 0, //
    0, 0, 0, 0, 0, 0, 32, 0, 0, 0, 0, 3, 7, 8, 9,
];

fn execute(stage: u8) -> [u8; 6] {
    [4, 0, 0, 0, 1, stage]
}

fn ack(stage: u8, floor: u8) -> [u8; 14] {
    [5, 0, 0, 0, 9, stage, 0, 0, 0, 0, 0, 0, 0, floor]
}

fn end(stage: u8) -> [u8; 18] {
    [19, 0, 0, 0, 13, 0, 0, 0, 0, 0, 0, 0, 1, 0, 0, 0, 1, stage]
}

fn refused(number: u8, first: u8, second: u8) -> [u8; 22] {
    [
        20, 0, 0, 0, 17, number, 0, 0, 0, 0, 0, 0, 0, first, 0, 0, 0, 0, 0, 0, 0, second,
    ]
}

// PAGES with page 3 of space 2, whose bytes are zero: 24 bytes, the page's place, and the page.
fn pages(alloc: Global, stage: u8, chunk: u8, block: u8) -> Result<Vec<u8>, AllocError> {
    let front = [
        17, 0, 0, 16, 27, 0, 0, 0, 0, 0, 0, 0, 1, 0, 0, 0, 1, stage, 0, 0, 0, chunk, block, 1, //
        0, 0, 0, 2, 0, 0, 0, 3,
    ];
    let mut frame = Vec::from_slice(alloc, &front)?;
    frame.resize(32 + 4_096, 0)?;
    Ok(frame)
}

/// What a step says: a word, and up to three numbers.
type Said = (&'static str, u64, u64, u64);

const IDLE: Said = ("idle", 0, 0, 0);

const GARBLED: &str = "garbled";

fn said(says: &ServeAnswer) -> Said {
    match says {
        ServeAnswer::Idle => IDLE,
        ServeAnswer::SentPages { chunk, block } => ("pages", *chunk as u64, *block as u64, 0),
        ServeAnswer::SentRedo { chunk, block } => ("redo", *chunk as u64, *block as u64, 0),
        ServeAnswer::SentEnd => ("end", 0, 0, 0),
        ServeAnswer::Answered {
            stage,
            lsn,
            position,
        } => ("stage", *stage as u64, *lsn, *position),
        ServeAnswer::Execute => ("execute", 0, 0, 0),
        ServeAnswer::Exit => ("exit", 0, 0, 0),
        ServeAnswer::Refused(cause) => (
            "refused",
            cause.number() as u64,
            cause.first(),
            cause.second(),
        ),
        ServeAnswer::DiskFault => ("fault", 0, 0, 0),
        ServeAnswer::Garbled { kept } => (GARBLED, kept.as_slice().len() as u64, 0, 0),
        ServeAnswer::NoMemory => ("no memory", 0, 0, 0),
    }
}

/// A donor's side over a script, with what was received and not taken, and what a step sent.
#[derive(Drop)]
struct Side {
    core: ServeCore,
    donor: Script,
    received: Vec<u8>,
    sent: Vec<u8>,
}

impl Side {
    fn new(alloc: Global) -> Side {
        Side {
            core: ServeCore::new(),
            donor: Script::new(alloc),
            received: Vec::new(alloc),
            sent: Vec::new(alloc),
        }
    }

    // These bytes come, and a step is made. Whether it says that, makes these calls and sends that.
    fn steps(
        &mut self,
        alloc: Global,
        comes: &[u8],
        says: Said,
        calls: &[Noted],
        sends: &[u8],
    ) -> bool {
        self.sent.clear();
        self.donor.noted.clear();
        if self.received.extend_from_slice(comes).is_err() {
            return false;
        }
        let answer = self
            .core
            .step(alloc, &mut self.donor, &mut self.received, &mut self.sent);
        said(&answer) == says
            && self.donor.noted.as_slice() == calls
            && self.sent.as_slice() == sends
    }
}

const OPENS: [Noted; 1] = [("init", 1, 1, 1, 1, 4_096)];

const FILES: Said = ("stage", 1, 0, 0);

// A side whose session is open.
fn open(alloc: Global) -> Side {
    let mut side = Side::new(alloc);
    let _ = side.steps(alloc, &INIT, FILES, &OPENS, &STAGE_OF_FILES);
    side
}

// A side that serves an EXECUTE of a stage.
fn serving(alloc: Global, stage: u8) -> Side {
    let mut side = open(alloc);
    let call = ("execute", 1, 1, 0, stage as u64, 0);
    let _ = side.steps(alloc, &execute(stage), ("execute", 0, 0, 0), &[call], &[]);
    side
}

// A call of the one task.
fn call(name: &'static str, first: u64, second: u64) -> Noted {
    (name, 1, 1, 0, first, second)
}

fn archive(limit: u64) -> Noted {
    ("archive", 0, 0, 0, limit, 0)
}

// Each command in its turn, and the blocks of two stages.
#[test]
fn a_clone_of_one_task(rt: HostRuntime) -> Result<(), AllocError> {
    let alloc = rt.alloc();
    let mut side = Side::new(alloc);
    assert!(rt; side.steps(alloc, &INIT, FILES, &OPENS, &STAGE_OF_FILES));
    let says = ("execute", 0, 0, 0);
    assert!(rt; side.steps(alloc, &execute(1), says, &[call("execute", 1, 0)], &[]));
    side.donor.last = 1;
    let calls = [call("claim", 1, 0), call("kept", 1, 0), call("read", 0, 0)];
    assert!(rt;
        side.steps(
            alloc,
            &[],
            ("pages", 0, 0, 0),
            &calls,
            &pages(alloc, 1, 0, 0)?
        )
    );
    let calls = [call("read", 0, 1)];
    assert!(rt;
        side.steps(
            alloc,
            &[],
            ("pages", 0, 1, 0),
            &calls,
            &pages(alloc, 1, 0, 1)?
        )
    );
    assert!(rt;
        side.steps(
            alloc,
            &[],
            ("end", 0, 0, 0),
            &[call("claim", 1, 0)],
            &end(1)
        )
    );
    let says = ("stage", 2, 0, 5);
    assert!(rt;
        side.steps(
            alloc,
            &ack(1, 0),
            says,
            &[call("ack", 1, 0)],
            &STAGE_OF_PAGES
        )
    );
    let says = ("stage", 3, 8_573, 1);
    assert!(rt;
        side.steps(
            alloc,
            &ack(2, 7),
            says,
            &[call("ack", 2, 7)],
            &STAGE_OF_REDO
        )
    );
    let says = ("stage", 4, 8_573, 1);
    assert!(rt; side.steps(alloc, &ack(3, 7), says, &[call("ack", 3, 7)], &STAGE_DONE));
    assert!(rt; side.steps(alloc, &EXIT, ("exit", 0, 0, 0), &[call("exit", 0, 0)], &[]));
    assert!(rt; side.steps(alloc, &EXIT, IDLE, &[], &[]));
    Ok(())
}

// The first command of a connection binds its task and its incarnation.
#[test]
fn first_commands(rt: HostRuntime) {
    let alloc = rt.alloc();
    let mut later = STAGE_OF_FILES;
    later[16] = 2;
    let firsts: [(&[u8], Noted, &[u8], Noted); 3] = [
        (
            &ATTACH,
            ("attach", 1, 1, 3, 0, 0),
            &STAGE_OF_FILES,
            ("exit", 1, 1, 3, 0, 0),
        ),
        (
            &REINIT,
            ("reinit", 1, 1, 0, 1, 6),
            &STAGE_OF_FILES,
            ("exit", 1, 1, 0, 0, 0),
        ),
        (
            &REINIT2,
            ("reinit_blocks", 1, 2, 0, 1, 1),
            &later,
            ("exit", 1, 2, 0, 0, 0),
        ),
    ];
    for (bytes, first, stage, exit) in firsts {
        let mut side = Side::new(alloc);
        assert!(rt; side.steps(alloc, bytes, FILES, &[first], stage));
        assert!(rt; side.steps(alloc, &EXIT, ("exit", 0, 0, 0), &[exit], &[]));
    }
}

// The requester has blocks 0, 2 and 3 of the chunk, whose last is 4.
#[test]
fn blocks_that_are_there_are_passed_over(rt: HostRuntime) -> Result<(), AllocError> {
    let alloc = rt.alloc();
    let mut side = serving(alloc, 2);
    side.donor.kept = 0b0000_1101;
    side.donor.last = 4;
    let calls = [call("claim", 2, 0), call("kept", 2, 0), call("read", 0, 1)];
    assert!(rt;
        side.steps(
            alloc,
            &[],
            ("pages", 0, 1, 0),
            &calls,
            &pages(alloc, 2, 0, 1)?
        )
    );
    let calls = [call("read", 0, 4)];
    assert!(rt;
        side.steps(
            alloc,
            &[],
            ("pages", 0, 4, 0),
            &calls,
            &pages(alloc, 2, 0, 4)?
        )
    );
    assert!(rt;
        side.steps(
            alloc,
            &[],
            ("end", 0, 0, 0),
            &[call("claim", 2, 0)],
            &end(2)
        )
    );
    Ok(())
}

// Redo that isn't archived is archived in the same step. Where it isn't even then, nothing is sent,
// and the next step reads again.
#[test]
fn redo_is_archived_first(rt: HostRuntime) {
    let alloc = rt.alloc();
    for raises in [true, false] {
        let mut side = serving(alloc, 3);
        side.donor.archived = 8_190;
        side.donor.raises = raises;
        let read = call("read", 0, 0);
        let calls = [
            call("claim", 3, 0),
            call("kept", 3, 0),
            read,
            archive(5),
            read,
        ];
        if !raises {
            assert!(rt; side.steps(alloc, &[], IDLE, &calls, &[]));
            side.donor.raises = true;
            let calls = [read, archive(5), read];
            assert!(rt; side.steps(alloc, &[], ("redo", 0, 0, 0), &calls, &REDO));
        } else {
            assert!(rt; side.steps(alloc, &[], ("redo", 0, 0, 0), &calls, &REDO));
        }
        assert!(rt;
            side.steps(
                alloc,
                &[],
                ("end", 0, 0, 0),
                &[call("claim", 3, 0)],
                &end(3)
            )
        );
    }
}

// Each call that may be refused, for one of its causes: the refusal is sent, and it is over.
#[test]
fn refusals_end_it(rt: HostRuntime) {
    let alloc = rt.alloc();
    let busy = CloneCause::Busy { session: 2 };
    let mut side = Side::new(alloc);
    side.donor.refuse("", busy);
    assert!(rt;
        side.steps(
            alloc,
            &INIT,
            ("refused", 1, 2, 0),
            &OPENS,
            &refused(1, 2, 0)
        )
    );
    assert!(rt; side.steps(alloc, &INIT, IDLE, &[], &[]));
    let other = CloneCause::StageMismatch {
        donor: 2,
        recipient: 1,
    };
    let commands: [(&[u8], Noted); 3] = [
        (&execute(1), call("execute", 1, 0)),
        (&ack(1, 0), call("ack", 1, 0)),
        (&EXIT, call("exit", 0, 0)),
    ];
    for (bytes, asks) in commands {
        let mut side = open(alloc);
        side.donor.refuse("", other);
        assert!(rt;
            side.steps(
                alloc,
                bytes,
                ("refused", 8, 2, 1),
                &[asks],
                &refused(8, 2, 1)
            )
        );
        assert!(rt; side.steps(alloc, bytes, IDLE, &[], &[]));
    }
}

// Within an EXECUTE a claim, the kept blocks or a block are refused.
#[test]
fn refusals_within_an_execute(rt: HostRuntime) {
    let alloc = rt.alloc();
    let names = ["claim", "kept", "read"];
    for (i, name) in names.iter().enumerate() {
        let mut side = serving(alloc, 1);
        side.donor.refuse(name, CloneCause::NotClaimed);
        let calls = [call("claim", 1, 0), call("kept", 1, 0), call("read", 0, 0)];
        let calls = &calls[..=i];
        assert!(rt; side.steps(alloc, &[], ("refused", 11, 0, 0), calls, &refused(11, 0, 0)));
        assert!(rt; side.steps(alloc, &[], IDLE, &[], &[]));
    }
}

// After a fault of the disk, and where no memory is found, nothing is sent.
#[test]
fn faults_end_it(rt: HostRuntime) {
    let alloc = rt.alloc();
    let calls = [call("claim", 1, 0), call("kept", 1, 0), call("read", 0, 0)];
    let mut side = serving(alloc, 1);
    side.donor.fault = true;
    assert!(rt; side.steps(alloc, &[], ("fault", 0, 0, 0), &calls, &[]));
    assert!(rt; side.steps(alloc, &EXIT, IDLE, &[], &[]));
    let mut side = serving(alloc, 1);
    side.donor.no_memory = true;
    assert!(rt; side.steps(alloc, &[], ("no memory", 0, 0, 0), &calls, &[]));
    assert!(rt; side.steps(alloc, &EXIT, IDLE, &[], &[]));
    let mut side = Side::new(alloc);
    side.donor.no_memory = true;
    assert!(rt; side.steps(alloc, &INIT, ("no memory", 0, 0, 0), &OPENS, &[]));
}

// What can't become a command in turn, first and later, and how much of it is kept: the frame, or
// its first 16 bytes, or what is there of it.
#[test]
fn garbled(rt: HostRuntime) {
    let alloc = rt.alloc();
    let mut flags = INIT;
    flags[11] = 2;
    let firsts: [(&[u8], u64); 9] = [
        (&execute(1), 6),
        (&[4], 1),
        (&EXIT, 5),
        (&STAGE_OF_FILES, 16),
        (&end(1)[..3], 3),
        (&[0], 1),
        (&[8, 0, 0, 0, 0, 0, 0], 7),
        (&[1, 0, 0, 0, 21], 5),
        (&flags, 16),
    ];
    for (bytes, kept) in firsts {
        let mut side = Side::new(alloc);
        assert!(rt; side.steps(alloc, bytes, (GARBLED, kept, 0, 0), &[], &[]));
        assert!(rt; side.received.as_slice() == bytes);
        assert!(rt; side.steps(alloc, &INIT, IDLE, &[], &[]));
    }
    let laters: [(&[u8], u64); 7] = [
        (&INIT, 16),
        (&[1], 1),
        (&ATTACH, 16),
        (&REINIT, 16),
        (&REINIT2[..1], 1),
        (&execute(4), 6),
        (&[4, 0, 0, 0, 1, 0, 6, 0, 0, 0, 0], 6),
    ];
    for (bytes, kept) in laters {
        let mut side = open(alloc);
        assert!(rt; side.steps(alloc, bytes, (GARBLED, kept, 0, 0), &[], &[]));
        assert!(rt; side.received.as_slice() == bytes);
        assert!(rt; side.steps(alloc, &EXIT, IDLE, &[], &[]));
    }
}

// A command that comes byte by byte is taken once it is whole, and the next one stays.
#[test]
fn in_pieces(rt: HostRuntime) -> Result<(), AllocError> {
    let alloc = rt.alloc();
    let mut side = Side::new(alloc);
    for n in 0..24 {
        assert!(rt; side.steps(alloc, &INIT[n..n + 1], IDLE, &[], &[]));
    }
    let mut rest = Vec::from_slice(alloc, &INIT[24..])?;
    rest.extend_from_slice(&ack(1, 0))?;
    assert!(rt; side.steps(alloc, &rest, FILES, &OPENS, &STAGE_OF_FILES));
    assert!(rt; side.received.as_slice() == ack(1, 0).as_slice());
    let says = ("stage", 2, 0, 5);
    assert!(rt; side.steps(alloc, &[], says, &[call("ack", 1, 0)], &STAGE_OF_PAGES));
    assert!(rt; side.steps(alloc, &[], IDLE, &[], &[]));
    Ok(())
}

// A frame is put after bytes that aren't read yet.
#[test]
fn after_unread_bytes(rt: HostRuntime) -> Result<(), AllocError> {
    let alloc = rt.alloc();
    let mut donor = Script::new(alloc);
    let mut core = ServeCore::new();
    let mut received = Vec::from_slice(alloc, &INIT)?;
    let mut sent = Vec::from_slice(alloc, &end(1))?;
    let mut wants = sent.clone()?;
    wants.extend_from_slice(&STAGE_OF_FILES)?;
    let _ = core.step(alloc, &mut donor, &mut received, &mut sent);
    assert!(rt; received.is_empty());
    assert!(rt; sent.as_slice() == wants.as_slice());
    Ok(())
}
