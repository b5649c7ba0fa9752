ghost use Rattle.std.specs.Prelude.{◌≡◌, ◌++◌, OnOk, OnErr};
ghost use Rattle.clone_stream.specs.Streams.{IsFrameOf};
ghost use Rattle.clone_wire.specs.Spelling.{side_of, spelling};

use clone_wire::{Frame, encode};
use std::alloc::{AllocError, Global};

/// Puts a frame after the bytes that are to be sent. An error is out of memory, and the bytes are
/// as before. Where there are none yet the frame's spelling isn't copied.
pub fn put_frame(alloc: Global, sent: &mut Vec<u8>, frame: &Frame) -> Result<(), AllocError>
    ensures ok { OnOk result (sent.new.items ≡ sent.old.items ++ spelling frame.now) }
    ensures is { OnOk result (IsFrameOf (side_of frame.now) frame.now) }
    ensures err { OnErr result (sent.new.items ≡ sent.old.items) }
{
    let text = encode(alloc, frame)?;
    if !sent.is_empty() {
        return sent.extend_from_slice(&text);
    }
    *sent = text;
    Ok(())
}
