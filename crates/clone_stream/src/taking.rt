//! Bytes that were received and not yet taken. The first of them begins a frame, whatever pieces
//! the bytes came in, since a frame is taken whole or not at all.
ghost use Rattle.std.specs.Prelude.{◌≡◌, ◌≤◌, IfOk, drop, length};
ghost use Rattle.clone_stream.specs.Taking.{EndsAt, IsKept, Takes};

use clone_wire::{Frame, HEAD_BYTES, Side, WireRefusal, decode, read_head};
use std::alloc::{AllocError, Global};
use std::marker::Model;

/// How many bytes are kept of what is garbled, at most.
pub const MOST_KEPT: usize = 16;

/// Why no frame was taken.
#[derive(Clone, Copy, Debug, PartialEq, Eq)]
pub enum StreamRefusal {
    /// No further bytes would make a frame.
    Garbled,
    /// There was no memory.
    NoMemory,
}

/// Takes a frame of this side from the front, or answers that none is there yet. After a refusal
/// the bytes are as before.
pub fn take_frame(
    alloc: Global,
    received: &mut Vec<u8>,
    side: Side,
) -> Result<Option<Frame>, StreamRefusal>
    ensures { Takes side received.old.items received.new.items result }
{
    match decode(alloc, received, side) {
        Ok((frame, long)) => {
            drop_front(received, long);
            Ok(Some(frame))
        }
        Err(WireRefusal::NotYet { .. }) => Ok(None),
        Err(WireRefusal::Garbled { .. }) => Err(StreamRefusal::Garbled),
        Err(WireRefusal::NoMemory) => Err(StreamRefusal::NoMemory),
    }
}

// Drops so many bytes at the front.
fn drop_front(bytes: &mut Vec<u8>, long: usize)
    requires { long ≤ length bytes.old.items }
    ensures { bytes.new.items ≡ drop long bytes.old.items }
{
    let left = bytes.len() - long;
    bytes.copy_within(long.., 0);
    bytes.truncate(left);
}

/// What is kept of bytes that are garbled.
#[derive(Drop)]
pub struct Kept {
    bytes: Vec<u8>,
}

impl Model for Kept {
    ghost use Rattle.std.specs.Prelude.{ℕ, List};

    ghost Value = { List ℕ };

    ghost view = { λ k. k.bytes.items };
}

impl Kept {
    /// The bytes in their order.
    pub fn as_slice(&self) -> &[u8]
        ensures { result.now ≡ self.now }
    {
        &self.bytes
    }
}

/// What is kept of bytes that are garbled: the first 16 of them, or fewer where the frame ends
/// before, or the bytes do.
pub fn keep_front(alloc: Global, bytes: &[u8], side: Side) -> Result<Kept, AllocError>
    ensures { IfOk result (IsKept side bytes.now) }
{
    let within = &bytes[..frame_end(bytes, side)];
    let bytes = Vec::from_slice(alloc, &within[..MOST_KEPT.min(within.len())])?;
    Ok(Kept { bytes })
}

// Where the frame at the front ends, within the bytes.
fn frame_end(bytes: &[u8], side: Side) -> usize
    ensures end { EndsAt side bytes.now result }
    ensures within { result ≤ length bytes.now }
{
    match read_head(bytes, side) {
        Ok((_, length)) => (HEAD_BYTES + length as usize).min(bytes.len()),
        Err(_) => bytes.len(),
    }
}
