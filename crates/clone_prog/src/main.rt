//! The program: it does what its words ask for, over disks and connections in memory or real ones,
//! and writes the output and the binlog.
#![tactic(auto)]

use clone_memdisk::MemDisk;
use clone_memlink::MemNet;
use clone_outside::{Crew, MemSink, NoGate, Refusal, write_all};
use clone_real::{AnyDisk, AnyNet, FileDisk, SocketNet, StdSink, StdSource};
use clone_run::{RunDisk, RunNet};
use clone_top::{Status, clone_main};
use clone_words::places;
use std::alloc::AllocError;
use std::env;
use std::env::Env;
use std::io::ErrorKind;
use std::process::ExitCode;
use std::sync::{Arc, Wait};
use std::thread::Threads;
use std::time::Clock;

fn main(rt: HostRuntime) -> ExitCode {
    let status = match run_program(rt, rt, rt) {
        Ok(status) => status,
        Err(refusal) => Status::from(refusal).number(),
    };
    ExitCode::from(status)
}

/// Does what the words ask for, and says with which status. The output waits in a buffer, and the
/// binlog goes out once the whole output has. The crew starts threads by the one handle, and jobs
/// wait by the other.
fn run_program<T, H>(rt: HostRuntime, threads: T, waits: H) -> Result<u8, Refusal>
where
    T: Threads + Drop,
    H: Wait + Clock + Copy + Send + Sync + Drop + 'static,
{
    let alloc = rt.alloc();
    let words = words_of(&rt)?;
    let place = places(alloc, &words)?;
    let donor = disk_in(rt, place.dir, "donor")?;
    let recipient = disk_in(rt, place.dir, "recipient")?;
    let gate = Arc::new(alloc, NoGate)?;
    let mut crew = Crew::new(threads);
    let mut source = StdSource::new(rt.stdin());
    let mut out = StdSink::new(alloc, rt.stdout())?;
    let mut commits = MemSink::new(alloc);
    let ended = clone_main(
        waits,
        alloc,
        &words,
        &mut source,
        &mut out,
        &mut commits,
        donor,
        recipient,
        net_of(rt, waits, place.tcp),
        &mut crew,
        gate,
    );
    out.flush()?;
    let mut binlog = StdSink::new(alloc, rt.stderr())?;
    write_all(&mut binlog, commits.bytes())?;
    binlog.flush()?;
    Ok(ended.status)
}

/// The disk of this name in a directory, or one in memory where there is no directory.
fn disk_in(rt: HostRuntime, directory: Option<&str>, name: &str) -> Result<RunDisk, AllocError> {
    let alloc = rt.alloc();
    let Some(directory) = directory else {
        return Ok(AnyDisk::Memory(MemDisk::new(alloc)));
    };
    let path = format!(in alloc; "{directory}/{name}")?;
    Ok(AnyDisk::Real(FileDisk::new(rt, path.as_str())?))
}

/// What makes the connections: over sockets, or in memory.
fn net_of<H: Wait + Drop>(rt: HostRuntime, waits: H, tcp: bool) -> RunNet<H> {
    if tcp {
        AnyNet::Real(SocketNet::new(rt))
    } else {
        AnyNet::Memory(MemNet::new(waits, rt.alloc()))
    }
}

/// The words of the command line after the program's name, or none where one of them is no text.
fn words_of(rt: &(impl Env + AllocGlobal)) -> Result<Vec<String>, AllocError> {
    match env::args(rt) {
        Ok(words) => words.skip(1).collect(rt.alloc()),
        Err(error) if error.kind() == ErrorKind::OutOfMemory => Err(AllocError),
        Err(_) => Ok(Vec::new(rt.alloc())),
    }
}
