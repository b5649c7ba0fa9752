//! A conversation over a connection. What is put out is sent, and what comes is received and kept
//! until it is taken. Once the connection is found lost nothing more is sent or received.
ghost use Rattle.std.specs.Prelude.{◌≡◌, [], true, false, OnOk};
ghost use Rattle.clone_copying.specs.Passing.{GoesOn, Passes, Stays, state_of};

use clone_outside::{Link, LinkRefusal, Received};
use clone_tasks::Link as LinkState;
use std::alloc::{AllocError, Global};

// How many bytes are received at most by one call.
const PIECE: usize = 16_384;

/// A task's end of a connection, what came over it and wasn't taken yet, and whether the connection
/// is lost.
pub(crate) struct Talk<L> {
    pub(crate) end: L,
    pub(crate) left: Vec<u8>,
    pub(crate) lost: bool,
}

impl<L: Link> Talk<L> {
    pub(crate) fn new(alloc: Global, end: L) -> Talk<L>
        ensures end { result.end ≡ end }
        ensures left { result.left.items ≡ [] }
        ensures lost { result.lost ≡ false }
    {
        Talk {
            end,
            left: Vec::new(alloc),
            lost: false,
        }
    }

    /// The state of the connection, as a step is given it.
    pub(crate) fn state(&self) -> LinkState
        ensures { result ≡ state_of self.now.lost }
    {
        if self.lost {
            LinkState::Lost
        } else {
            LinkState::Up
        }
    }

    /// Sends the bytes, unless the connection is lost. The error is out of memory.
    pub(crate) fn send(&mut self, bytes: &[u8]) -> Result<(), AllocError>
        requires { L.is_open self.old.end ≡ true }
        ensures passes { Passes L.Link self.old self.new.end [] bytes.now }
        ensures goes { OnOk result (GoesOn L.Link self.old self.new [] bytes.now) }
    {
        if self.lost || bytes.is_empty() {
            return Ok(());
        }
        match self.end.send(bytes) {
            Ok(()) => Ok(()),
            Err(LinkRefusal::Lost) => {
                self.lost = true;
                Ok(())
            }
            Err(LinkRefusal::NoMemory) => Err(AllocError),
        }
    }

    /// Receives what is there, after what came before. Answers whether anything came, bytes or a
    /// loss. The error is out of memory.
    pub(crate) fn receive(&mut self) -> Result<bool, AllocError>
        requires { L.is_open self.old.end ≡ true }
        ensures passes { Passes L.Link self.old self.new.end [] [] }
        ensures goes { OnOk result (GoesOn L.Link self.old self.new [] []) }
    {
        if self.lost {
            return Ok(false);
        }
        let mut into = [0; PIECE];
        match self.end.receive(&mut into) {
            Ok(Received::Bytes(count)) => {
                self.left.extend_from_slice(&into[..count])?;
                Ok(true)
            }
            Ok(Received::Nothing) => Ok(false),
            Ok(Received::Lost) => {
                self.lost = true;
                Ok(true)
            }
            Err(LinkRefusal::Lost) => {
                self.lost = true;
                Ok(true)
            }
            Err(LinkRefusal::NoMemory) => Err(AllocError),
        }
    }

    /// Closes the end, and gives it back.
    pub(crate) fn close(self) -> L
        ensures { Stays L.Link self.end result }
    {
        let Talk {
            mut end,
            left: _,
            lost: _,
        } = self;
        end.close();
        end
    }
}
