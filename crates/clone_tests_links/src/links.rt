ghost use Rattle.std.specs.Prelude.{◌≡◌, true, OnOk};

use clone_memlink::{MemEnd, MemNet, ROOM};
use clone_outside::{Link, LinkRefusal, Net, Received};
use std::alloc::{AllocError, Global};
use std::sync::Wait;
use std::test::Fail;
use std::thread;
use std::thread::{Threads, join};

const ALL: usize = 300_000;

const STEP: usize = 4_000;

// What an end received, and how often it found a loss.
#[derive(Drop)]
struct Heard {
    bytes: Vec<u8>,
    faults: u64,
}

impl Heard {
    // Whether these are the first bytes that either end sends.
    fn is_front(&self) -> bool {
        self.bytes
            .iter()
            .enumerate()
            .all(|(offset, byte)| *byte == (offset % 251) as u8)
    }
}

// The bytes that either end sends from here on.
fn piece(from: usize) -> [u8; STEP] {
    let mut bytes = [0; STEP];
    for (offset, byte) in bytes.iter_mut().enumerate() {
        *byte = (from.wrapping_add(offset) % 251) as u8;
    }
    bytes
}

// Receives what is on the way. Answers whether the connection is lost.
fn drain<R: Wait + Copy>(end: &mut MemEnd<R>, received: &mut Vec<u8>) -> Result<bool, AllocError>
    requires { end.old.is_open ≡ true }
    ensures { OnOk result (end.new.is_open ≡ true) }
{
    let mut into = [0; 4_096];
    for _ in 0..100 {
        match end.receive(&mut into) {
            Ok(Received::Bytes(n)) => received.extend_from_slice(&into[..n])?,
            Ok(Received::Nothing) => return Ok(false),
            Ok(Received::Lost) | Err(_) => return Ok(true),
        }
    }
    Ok(false)
}

// Sends 300,000 bytes, and receives what comes meanwhile.
fn send_all<R: Wait + Copy>(end: &mut MemEnd<R>, received: &mut Vec<u8>) -> Result<(), AllocError>
    requires { end.old.is_open ≡ true }
    ensures { OnOk result (end.new.is_open ≡ true) }
{
    for turn in 0..ALL / STEP {
        if end.send(&piece(turn * STEP)).is_err() {
            return Ok(());
        }
        drain(end, received)?;
    }
    Ok(())
}

// Sends 300,000 bytes, and receives as many or up to a loss.
fn talk<R: Wait + Copy + Drop>(
    rt: &R,
    alloc: Global,
    mut end: MemEnd<R>,
) -> Result<Heard, AllocError>
    requires { end.is_open ≡ true }
{
    let mut bytes = Vec::new(alloc);
    send_all(&mut end, &mut bytes)?;
    for _ in rt.forever() {
        if drain(&mut end, &mut bytes)? || bytes.len() >= ALL {
            break;
        }
        thread::yield_now();
    }
    let faults = end.faults();
    Ok(Heard { bytes, faults })
}

// Both ends of a connection talk, each in a thread. The answer is what the donor and the requester
// heard.
fn talk_by_two<R: Threads + Wait + Sync + Send + Copy + Drop>(
    rt: &R,
    alloc: Global,
    net: &mut MemNet<R>,
) -> Result<(Heard, Heard), Fail> {
    let (donor, requester) = net.pair()?;
    let (one, two) = join(
        rt,
        || -> Result<Heard, AllocError>
            requires { donor.is_open ≡ true }
        { talk(rt, alloc, donor) },
        || -> Result<Heard, AllocError>
            requires { requester.is_open ≡ true }
        { talk(rt, alloc, requester) },
    );
    Ok((one?, two?))
}

// Whether a send of more than there is room for found a loss.
fn send_past_room<R: Wait + Copy + Drop>(
    alloc: Global,
    mut end: MemEnd<R>,
) -> Result<bool, AllocError>
    requires { end.is_open ≡ true }
{
    let mut bytes = Vec::new(alloc);
    bytes.resize(ROOM + 1, 7)?;
    Ok(end.send(&bytes) == Err(LinkRefusal::Lost) && end.faults() == 1)
}

// Closes the end after some time.
fn close_later<R: Wait + Copy + Drop>(mut end: MemEnd<R>) {
    for _ in 0..1_000 {
        thread::yield_now();
    }
    end.close();
}

// Whether the donor's send past the room was refused when the requester's end was closed.
fn send_until_closed<R: Threads + Wait + Sync + Send + Copy + Drop>(
    rt: &R,
    alloc: Global,
    net: &mut MemNet<R>,
) -> Result<bool, Fail> {
    let (donor, requester) = net.pair()?;
    let (one, ()) = join(
        rt,
        || -> Result<bool, AllocError>
            requires { donor.is_open ≡ true }
        { send_past_room(alloc, donor) },
        || close_later(requester),
    );
    Ok(one?)
}

#[test]
fn a_planned_cut_ends_both_ways(rt: HostRuntime) -> Result<(), Fail> {
    let mut net = MemNet::new(rt, rt.alloc());
    net.plan_cuts(1);
    let (donor, requester) = talk_by_two(&rt, rt.alloc(), &mut net)?;
    assert_eq!(rt; requester.bytes.len(), 100_000);
    assert!(rt; donor.is_front() && requester.is_front());
    assert!(rt; donor.faults >= 1 && requester.faults >= 1);
    Ok(())
}

#[test]
fn without_a_cut_all_bytes_come(rt: HostRuntime) -> Result<(), Fail> {
    let mut net = MemNet::new(rt, rt.alloc());
    let (donor, requester) = talk_by_two(&rt, rt.alloc(), &mut net)?;
    assert_eq!(rt; donor.bytes.len(), ALL);
    assert_eq!(rt; requester.bytes.len(), ALL);
    assert!(rt; donor.is_front() && requester.is_front());
    assert!(rt; donor.faults == 0 && requester.faults == 0);
    Ok(())
}

#[test]
fn a_close_wakes_a_send_that_waits(rt: HostRuntime) -> Result<(), Fail> {
    let mut net = MemNet::new(rt, rt.alloc());
    assert!(rt; send_until_closed(&rt, rt.alloc(), &mut net)?);
    Ok(())
}

#[test]
fn the_faults_of_both_ends_are_the_nets(rt: HostRuntime) -> Result<(), Fail> {
    let mut net = MemNet::new(rt, rt.alloc());
    net.cut_at(0, 0, 9)?;
    let (mut donor, mut requester) = net.pair()?;
    assert_eq!(rt; donor.send(b"never"), Err(LinkRefusal::Lost));
    assert_eq!(rt; requester.receive(&mut [0; 4]), Ok(Received::Lost));
    net.settle(donor, requester);
    assert_eq!(rt; net.faults(), 2);
    Ok(())
}
