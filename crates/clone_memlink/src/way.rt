//! The bytes on the way to one end lie in a buffer with room for twice as many as may be on the
//! way. Those in front of `at` were received; they are dropped once they are as many as may be on
//! the way, so that a byte is moved once at most.
ghost use Rattle.std.specs.Prelude.{◌≡◌, ◌++◌, ◌≤◌, ◌↔◌, [], take, drop, length, min, IfOk, OnErr, IsTrue};
ghost use Rattle.clone_memlink.specs.Ways.{IsCut, room_for, with_bytes};

use crate::piece::{PIECE, Piece};
use std::alloc::{AllocError, Global};
use std::marker::Model;

/// The most bytes that are on the way to one end.
pub const ROOM: usize = 65_536;

/// What is on the way to one end: the bytes that were delivered and not yet received, and how many
/// more are delivered before the connection is cut.
#[derive(Drop)]
pub struct Way {
    bytes: Vec<u8>,
    at: usize,
    left: Option<u64>,
}

impl Model for Way {
    ghost use Rattle.std.specs.Prelude.{◌≤◌, drop, length};
    ghost use Rattle.clone_memlink.specs.declared.way.TheConstants.{ROOM};
    ghost use Rattle.clone_memlink.specs.Ways.{WayModel};

    ghost Value = { WayModel };

    ghost view = { λ w. record { waiting = drop w.at w.bytes.items; left = w.left } };

    ghost invariant = { λ w. (w.at ≤ length w.bytes.items)
        × (length (drop w.at w.bytes.items) ≤ ROOM) };
}

impl Way {
    /// Nothing is on the way, and the connection is cut after so many bytes.
    pub fn new(alloc: Global, left: Option<u64>) -> Result<Way, AllocError>
        ensures { IfOk result (λ w. w ≡ record { waiting = []; left = left }) }
    {
        Ok(Way {
            bytes: Vec::with_capacity(alloc, 2 * ROOM)?,
            at: 0,
            left,
        })
    }

    /// Whether so many bytes were delivered that the connection is cut.
    pub fn is_cut(&self) -> bool
        ensures { IsTrue result ↔ IsCut self.now }
    {
        self.left == Some(0)
    }

    // How many of so many bytes are delivered: as many as there is room for, up to the cut.
    fn room_for(&self, bytes: usize) -> usize
        ensures { result ≡ room_for self.now bytes }
    {
        let room = bytes.min(ROOM - (self.bytes.len() - self.at));
        match self.left {
            None => room,
            Some(left) => (room as u64).min(left) as usize,
        }
    }

    // Drops the bytes that were received, once they are many.
    fn make_room(&mut self)
        ensures { self.new ≡ self.old }
    {
        if self.at >= ROOM {
            self.bytes.drain(..self.at);
            self.at = 0;
        }
    }

    /// Delivers bytes from the front, as many as there is room for, up to the cut.
    pub fn deliver(&mut self, from: &[u8]) -> Result<usize, AllocError>
        ensures count { IfOk result (λ n. n ≡ room_for self.old (length from.now)) }
        ensures bytes { IfOk result (λ n. self.new ≡ with_bytes self.old (take n from.now)) }
        ensures refused { OnErr result (self.new ≡ self.old) }
    {
        let n = self.room_for(from.len());
        self.make_room();
        self.bytes.extend_from_slice(&from[..n])?;
        if let Some(left) = self.left {
            self.left = Some(left - n as u64);
        }
        Ok(n)
    }

    /// Takes at most so many bytes from the front of those that wait.
    pub fn receive(&mut self, most: usize) -> Piece
        ensures bytes { self.old.waiting ≡ result ++ self.new.waiting }
        ensures count { length result ≡ min (min most PIECE) (length self.old.waiting) }
        ensures left { self.new.left ≡ self.old.left }
    {
        let n = most.min(PIECE).min(self.bytes.len() - self.at);
        let piece = Piece::new(&self.bytes[self.at..self.at + n]);
        self.at += n;
        piece
    }

    /// Whether no byte waits.
    pub fn is_empty(&self) -> bool
        ensures { IsTrue result ↔ (length self.now.waiting ≡ 0) }
    {
        self.at == self.bytes.len()
    }
}
