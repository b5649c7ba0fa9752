ghost use Rattle.std.specs.Prelude.{◌≡◌};
ghost use Rattle.clone_recipient.specs.Taking.{took_of};

use clone_wire::Frame;

/// What was taken.
#[derive(Clone, Copy, Debug, PartialEq, Eq)]
pub struct Took {
    /// The code of the frame.
    pub code: u8,
    /// The chunk of a block, and 0 of other frames.
    pub chunk: u32,
    /// The block's number there, and 0 of other frames.
    pub block: u8,
}

impl Took {
    pub(crate) fn of(frame: &Frame) -> Took
        ensures { result ≡ took_of frame.now }
    {
        let code = frame.code();
        match frame {
            Frame::Pages { chunk, block, .. } | Frame::Redo { chunk, block, .. } => Took {
                code,
                chunk: *chunk,
                block: *block,
            },
            _ => Took {
                code,
                chunk: 0,
                block: 0,
            },
        }
    }
}
