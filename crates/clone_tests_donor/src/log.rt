//! The bytes that calls of an engine write to its log.

mod vectors;

use crate::log::vectors::{NEXT_OF_CHAIN, NEXT_PAGE, ONE_ROW, TAKING_BACK};
use clone_base::FIRST_LSN;
use clone_donor::Donor;
use clone_engine::{Engine, OpenRefusal};
use clone_memdisk::MemDisk;
use clone_model::{BucketCount, Config, TableNumber};
use clone_plain::EngineRefusal;
use std::alloc::Global;
use std::process::Abort;
use std::test::Fail;

const CONFIG: Config = Config {
    pool: 256,
    ring: 65_536,
};

/// A call. Changes are those of transaction 0 in table 1.
#[derive(Clone, Copy)]
enum Step {
    // makes the table, of so many buckets
    Create(u32),
    // begins the transaction of a writer with this index
    Begin(u32, u64),
    Put(u64, &'static [u8]),
    // gives key 7 the value "hi" so often
    PutAgain(u32),
    // gives so many keys the value "hi", from 1 on each second one
    PutOdd(u64),
    Undo,
    Commit,
}

/// Calls of a new engine, and what its log has after so many bytes.
type Case = (&'static [Step], u64, &'static [&'static [u8]]);

const CASES: [Case; 4] = [
    (&ROW_COMMITTED, 0, &ONE_ROW),
    (&ROW_TAKEN_BACK, 330, &TAKING_BACK),
    // after 39 puts of 218 bytes
    (&CHANGE_ON_NEXT_PAGE, 330 + 39 * 218, &NEXT_PAGE),
    // after 52 puts, of which three begin a page, of undo records or of a bucket
    (
        &ROW_BEHIND_A_FULL_PAGE,
        21 + 39 + 41 + 3 * 229 + 49 * 218,
        &NEXT_OF_CHAIN,
    ),
];

const ROW_COMMITTED: [Step; 5] = [
    Step::Create(4),
    Step::Begin(0, 0),
    Step::Put(7, b"hi"),
    Step::Commit,
    Step::Begin(3, 1),
];

const ROW_TAKEN_BACK: [Step; 7] = [
    Step::Create(4),
    Step::Begin(0, 0),
    Step::Put(7, b"hi"),
    Step::Put(7, b"ho"),
    Step::Undo,
    Step::Undo,
    Step::Undo,
];

const CHANGE_ON_NEXT_PAGE: [Step; 5] = [
    Step::Create(4),
    Step::Begin(0, 0),
    Step::Put(7, b"hi"),
    Step::PutAgain(39),
    Step::Put(6, b"hi"),
];

const ROW_BEHIND_A_FULL_PAGE: [Step; 6] = [
    Step::Create(2),
    Step::Begin(0, 0),
    Step::PutOdd(50),
    Step::Put(99, b"ho"),
    Step::Put(100, b"ho"),
    Step::Put(101, b"hi"),
];

fn opened(alloc: Global) -> Result<Donor<MemDisk>, Fail> {
    match Donor::open(alloc, MemDisk::new(alloc), CONFIG) {
        Ok(donor) => Ok(donor),
        Err(refusal) => {
            let OpenRefusal { cause: _, disk: _ } = refusal;
            Err(Fail::from("not opened"))
        }
    }
}

fn create(donor: &mut Donor<MemDisk>, buckets: u32) -> Result<(), Fail> {
    let table = TableNumber::new(1).ok_or("no number of a table")?;
    let buckets = BucketCount::new(buckets).ok_or("no number of buckets")?;
    Ok(donor.create(table, buckets).ok().ok_or("not created")?)
}

fn put_again(donor: &mut Donor<MemDisk>, count: u32) -> Result<(), EngineRefusal> {
    for _ in 0..count {
        donor.put(0, 1, 7, b"hi")?;
    }
    Ok(())
}

fn put_odd(donor: &mut Donor<MemDisk>, count: u64) -> Result<(), EngineRefusal> {
    for n in 0..count {
        donor.put(0, 1, n.saturating_mul(2).saturating_add(1), b"hi")?;
    }
    Ok(())
}

fn make(alloc: Global, donor: &mut Donor<MemDisk>, step: Step) -> Result<(), Fail> {
    let is_made = match step {
        Step::Create(buckets) => return create(donor, buckets),
        Step::Begin(writer, index) => donor.begin(alloc, writer, index).is_ok(),
        Step::Put(key, value) => donor.put(0, 1, key, value).is_ok(),
        Step::PutAgain(count) => put_again(donor, count).is_ok(),
        Step::PutOdd(count) => put_odd(donor, count).is_ok(),
        Step::Undo => donor.undo_one(0).is_ok(),
        Step::Commit => donor.commit(0).is_ok(),
    };
    if !is_made {
        return Err(Fail::from("a call is refused"));
    }
    Ok(())
}

// The bytes of the log from an LSN on, all of which are kept.
fn log_from(alloc: Global, engine: &Engine, from: u64) -> Result<Vec<u8>, Fail> {
    let ring = engine.buffer.ring();
    if from < ring.floor() || ring.end() < from {
        return Err(Fail::from("no such LSN in the log"));
    }
    let mut bytes = Vec::new(alloc);
    bytes.resize((ring.end() - from) as usize, 0)?;
    ring.read(from, &mut bytes);
    Ok(bytes)
}

// Whether the bytes are these parts.
fn are(bytes: &[u8], parts: &[&[u8]]) -> bool {
    let mut rest = bytes;
    for part in parts {
        match rest.strip_prefix(*part) {
            Some(behind) => rest = behind,
            None => return false,
        }
    }
    rest.is_empty()
}

fn expect_log(
    rt: &impl Abort,
    alloc: Global,
    engine: &Engine,
    length: u64,
    parts: &[&[u8]],
) -> Result<(), Fail> {
    let log = log_from(alloc, engine, FIRST_LSN.saturating_add(length))?;
    assert!(rt; are(&log, parts));
    Ok(())
}

fn make_all(alloc: Global, donor: &mut Donor<MemDisk>, steps: &[Step]) -> Result<(), Fail> {
    for step in steps {
        make(alloc, donor, *step)?;
    }
    Ok(())
}

// A case begins with a new engine.
fn try_case(rt: &impl Abort, alloc: Global, case: &Case) -> Result<(), Fail> {
    let (steps, length, parts) = *case;
    let mut donor = opened(alloc)?;
    let made = make_all(alloc, &mut donor, steps);
    let (engine, _disk) = donor.into_parts();
    made?;
    expect_log(rt, alloc, &engine, length, parts)
}

#[test]
fn the_bytes_of_the_log(rt: HostRuntime) -> Result<(), Fail> {
    for case in &CASES {
        try_case(&rt, rt.alloc(), case)?;
    }
    Ok(())
}
