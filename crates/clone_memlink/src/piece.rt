//! A piece of what is sent: room for 4,096 bytes in place, of which the first `len` count. `len`
//! is at most 4,096, and what stands behind it means nothing.
ghost use Rattle.std.specs.Prelude.{◌≡◌, ◌≤◌, length, take};

use std::marker::Model;

/// The most bytes that one call carries.
pub const PIECE: usize = 4_096;

/// At most 4,096 bytes, kept in place. Contracts see it as their list.
#[derive(Drop)]
pub struct Piece {
    bytes: [u8; PIECE],
    len: usize,
}

impl Model for Piece {
    ghost use Rattle.std.specs.Prelude.{List, ℕ, ◌≤◌, take};
    ghost use Rattle.clone_memlink.specs.declared.piece.TheConstants.{PIECE};

    ghost Value = { List ℕ };

    ghost view = { λ p. take p.len p.bytes };

    ghost invariant = { λ p. p.len ≤ PIECE };
}

impl Piece {
    /// The piece with these bytes.
    pub fn new(from: &[u8]) -> Piece
        requires { length from.now ≤ PIECE }
        ensures { result ≡ from.now }
    {
        let mut bytes = [0; PIECE];
        bytes[..from.len()].copy_from_slice(from);
        Piece {
            bytes,
            len: from.len(),
        }
    }

    pub fn as_slice(&self) -> &[u8]
        ensures { result.now ≡ self.now }
    {
        &self.bytes[..self.len]
    }
}
