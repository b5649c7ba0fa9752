//! The bytes of redo in a block: 1 to 16,384 of them, in the order of the log. There is no list of
//! none, nor of more.
ghost use Rattle.std.specs.Prelude.{◌≡◌, ◌≤◌, length, IfOk};
ghost use Rattle.clone_base.specs.declared.limits.TheConstants.{BLOCK_BYTES};

use std::alloc::{AllocError, Global};
use std::marker::Model;

/// A list of 1 to 16,384 bytes of redo.
#[derive(Drop)]
pub struct RedoBytes {
    bytes: Vec<u8>,
}

impl Model for RedoBytes {
    ghost use Rattle.clone_base.specs.declared.limits.TheConstants.{BLOCK_BYTES};
    ghost use Rattle.std.specs.Prelude.{List, ℕ, length, ◌≤◌};

    ghost Value = { List ℕ };

    ghost view = { λ r. r.bytes.items };

    ghost invariant = { λ r. (1 ≤ length r.bytes.items) × (length r.bytes.items ≤ BLOCK_BYTES) };
}

impl RedoBytes {
    /// A copy of these bytes.
    pub fn new(alloc: Global, bytes: &[u8]) -> Result<RedoBytes, AllocError>
        requires some { 1 ≤ length bytes.now }
        requires few { length bytes.now ≤ BLOCK_BYTES }
        ensures { IfOk result (λ redo. redo ≡ bytes.now) }
    {
        Ok(RedoBytes {
            bytes: Vec::from_slice(alloc, bytes)?,
        })
    }

    /// These bytes, which aren't copied.
    pub fn of(bytes: Vec<u8>) -> RedoBytes
        requires some { 1 ≤ length bytes.items }
        requires few { length bytes.items ≤ BLOCK_BYTES }
        ensures { result ≡ bytes.items }
    {
        RedoBytes { bytes }
    }

    /// The bytes in their order.
    pub fn as_slice(&self) -> &[u8]
        ensures value { result.now ≡ self.now }
        ensures some { 1 ≤ length self.now }
        ensures few { length self.now ≤ BLOCK_BYTES }
    {
        &self.bytes
    }
}
