//! A connection that is served. Between two turns there are no bytes to be sent.
ghost use Rattle.std.specs.Prelude.{◌≡◌, ◌≤◌, [], true, IfErr, OnOk};
ghost use Rattle.clone_outside.specs.Bytes.{TakesSome, appended};
ghost use Rattle.clone_serve.specs.declared.doing.Doing.TheVariants.{New};
ghost use Rattle.clone_links.specs.Calling.{Works};
ghost use Rattle.clone_links.specs.Ending.{IsOfLink, RoseIfLost};
ghost use Rattle.clone_links.specs.Turning.{IsLast, IsTurn, TakesIn};

use crate::{ServeEnd, Server};
use clone_outside::{Gate, Link, LinkRefusal, PageDisk, Received};
use clone_serve::{ServeAnswer, ServeCore};
use std::alloc::Global;
use std::sync::Wait;

// How many bytes are received at once.
const PIECE: usize = 1024;

/// The donor's side of a connection, the bytes that were received and not taken yet, and those that
/// are to be sent.
#[derive(Drop)]
pub(crate) struct Service {
    core: ServeCore,
    received: Vec<u8>,
    sent: Vec<u8>,
}

impl Service {
    /// That of a new connection.
    pub(crate) fn new(alloc: Global) -> Service
        ensures core { result.core ≡ New }
        ensures received { result.received.items ≡ [] }
        ensures sent { result.sent.items ≡ [] }
    {
        Service {
            core: ServeCore::new(),
            received: Vec::new(alloc),
            sent: Vec::new(alloc),
        }
    }

    /// A turn: where the run goes on, what is to be done next is done, and where that was nothing,
    /// more bytes are received. The error is the end.
    pub(crate) fn turn<D: PageDisk + Send + Drop, G: Gate, H: Wait, L: Link>(
        &mut self,
        alloc: Global,
        server: &mut Server<D, G, H>,
        link: &mut L,
    ) -> Result<(), ServeEnd>
        requires open { L.is_open link.old ≡ true }
        requires sent { self.old.sent.items ≡ [] }
        ensures goes_on { OnOk result (Works (IsTurn self.old.core self.new.core
            self.old.received.items self.new.received.items (L.received link.old)
            (L.received link.new) (L.sent link.old) (L.sent link.new)) server.old server.new) }
        ensures ends { IfErr result (λ end. Works (IsLast end self.old.core
            self.old.received.items (L.received link.old) (L.received link.new)
            (L.sent link.old) (L.sent link.new)) server.old server.new) }
        ensures sent { OnOk result (self.new.sent.items ≡ []) }
        ensures lost { IfErr result (λ end. RoseIfLost end (L.failures link.old)
            (L.failures link.new)) }
        ensures count { L.failures link.old ≤ L.failures link.new }
        ensures name { ◌≡◌ (L.name link.new) (L.name link.old) }
        ensures side { L.side link.new ≡ L.side link.old }
        ensures open { L.is_open link.new ≡ L.is_open link.old }
    {
        if server.is_halted() {
            return Err(ServeEnd::Halted);
        }
        match self.go_on(alloc, server, link) {
            Ok(true) => take_in(server, link, &mut self.received),
            Ok(false) => Ok(()),
            Err(end) => Err(end),
        }
    }

    // A step, whose frames are sent. The answer is whether there was nothing to do.
    fn go_on<D: PageDisk + Send + Drop, G: Gate, H: Wait, L: Link>(
        &mut self,
        alloc: Global,
        server: &mut Server<D, G, H>,
        link: &mut L,
    ) -> Result<bool, ServeEnd>
        requires open { L.is_open link.old ≡ true }
        requires sent { self.old.sent.items ≡ [] }
        ensures goes_on { OnOk result (Works (IsTurn self.old.core self.new.core
            self.old.received.items self.new.received.items (L.received link.old)
            (L.received link.new) (L.sent link.old) (L.sent link.new)) server.old server.new) }
        ensures ends { IfErr result (λ end. Works (IsLast end self.old.core
            self.old.received.items (L.received link.old) (L.received link.new)
            (L.sent link.old) (L.sent link.new)) server.old server.new) }
        ensures sent { OnOk result (self.new.sent.items ≡ []) }
        ensures lost { IfErr result (λ end. RoseIfLost end (L.failures link.old)
            (L.failures link.new)) }
        ensures count { L.failures link.old ≤ L.failures link.new }
        ensures name { ◌≡◌ (L.name link.new) (L.name link.old) }
        ensures side { L.side link.new ≡ L.side link.old }
        ensures open { L.is_open link.new ≡ L.is_open link.old }
    {
        let says = server.step(alloc, &mut self.core, &mut self.received, &mut self.sent);
        let idle = matches!(says, ServeAnswer::Idle);
        if let Err(end) = send_out(link, &mut self.sent) {
            return Err(end);
        }
        match ServeEnd::after(says) {
            Some(end) => Err(end),
            None => Ok(idle),
        }
    }
}

// Sends the bytes, and none are left to be sent then.
fn send_out<L: Link>(link: &mut L, sent: &mut Vec<u8>) -> Result<(), ServeEnd>
    requires { L.is_open link.old ≡ true }
    ensures all { OnOk result (L.sent link.new ≡ appended (L.sent link.old) sent.old.items) }
    ensures some { TakesSome (L.sent link.old) (L.sent link.new) sent.old.items }
    ensures none { OnOk result (sent.new.items ≡ []) }
    ensures ends { IfErr result IsOfLink }
    ensures lost { IfErr result (λ end. RoseIfLost end (L.failures link.old) (L.failures link.new)) }
    ensures count { L.failures link.old ≤ L.failures link.new }
    ensures received { L.received link.new ≡ L.received link.old }
    ensures name { ◌≡◌ (L.name link.new) (L.name link.old) }
    ensures side { L.side link.new ≡ L.side link.old }
    ensures open { L.is_open link.new ≡ L.is_open link.old }
{
    match link.send(sent) {
        Ok(()) => {
            sent.clear();
            Ok(())
        }
        Err(LinkRefusal::Lost) => Err(ServeEnd::Lost),
        Err(LinkRefusal::NoMemory) => Err(ServeEnd::NoMemory),
    }
}

// Receives what is there, after what was received before, or sleeps where nothing is.
fn take_in<D: PageDisk + Send + Drop, G: Gate, H: Wait, L: Link>(
    server: &Server<D, G, H>,
    link: &mut L,
    received: &mut Vec<u8>,
) -> Result<(), ServeEnd>
    requires { L.is_open link.old ≡ true }
    ensures received { TakesIn (L.received link.old) received.old.items result
        (L.received link.new) received.new.items }
    ensures ends { IfErr result IsOfLink }
    ensures lost { IfErr result (λ end. RoseIfLost end (L.failures link.old) (L.failures link.new)) }
    ensures count { L.failures link.old ≤ L.failures link.new }
    ensures sent { L.sent link.new ≡ L.sent link.old }
    ensures name { ◌≡◌ (L.name link.new) (L.name link.old) }
    ensures side { L.side link.new ≡ L.side link.old }
    ensures open { L.is_open link.new ≡ L.is_open link.old }
{
    let mut into = [0; PIECE];
    match link.receive(&mut into) {
        Ok(Received::Bytes(n)) => match received.extend_from_slice(&into[..n]) {
            Ok(()) => Ok(()),
            Err(_) => Err(ServeEnd::NoMemory),
        },
        Ok(Received::Nothing) => {
            server.rest();
            Ok(())
        }
        Ok(Received::Lost) | Err(LinkRefusal::Lost) => Err(ServeEnd::Lost),
        Err(LinkRefusal::NoMemory) => Err(ServeEnd::NoMemory),
    }
}
