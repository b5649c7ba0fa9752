//! A donor that answers by rote: each command is answered by the next STAGE of a clone of nothing.
use clone_stream::take_frame;
use clone_wire::{Frame, Side};
use std::alloc::{AllocError, Global};

/// How long a STAGE is that names no space.
pub(crate) const STAGE: usize = 48;

/// What a donor has heard: the bytes that it didn't read yet, and which STAGE it sent last.
#[derive(Drop)]
pub(crate) struct Donor {
    alloc: Global,
    commands: Vec<u8>,
    incarnation: u8,
    stage: u8,
}

impl Donor {
    pub(crate) fn new(alloc: Global) -> Donor {
        Donor {
            alloc,
            commands: Vec::new(alloc),
            incarnation: 0,
            stage: 0,
        }
    }

    pub(crate) fn hear(&mut self, bytes: &[u8]) -> Result<(), AllocError> {
        self.commands.extend_from_slice(bytes)
    }

    /// The STAGE that answers the next command, or none where none came or the requester left.
    /// Other bytes are an error, as if there were no memory.
    pub(crate) fn answer(&mut self) -> Result<Option<[u8; STAGE]>, AllocError> {
        match take_frame(self.alloc, &mut self.commands, Side::Command) {
            Ok(Some(Frame::Init { attempt, .. })) => self.begin(attempt.incarnation),
            Ok(Some(Frame::Attach { attempt, .. })) => self.begin(attempt.incarnation),
            Ok(Some(Frame::Reinit { attempt, .. })) => self.begin(attempt.incarnation),
            Ok(Some(Frame::Ack { .. })) => self.stage = self.stage.saturating_add(1),
            Ok(Some(Frame::Exit)) => return Ok(None),
            Ok(None) => return Ok(None),
            _ => return Err(AllocError),
        }
        Ok(Some(stage_of(self.incarnation, self.stage)))
    }

    fn begin(&mut self, incarnation: u32) {
        self.incarnation = (incarnation & 0xff) as u8;
        self.stage = 1;
    }
}

// The STAGE of a clone that has no chunk: its checkpoint and LSN are 8192, and its position is 3.
fn stage_of(incarnation: u8, stage: u8) -> [u8; STAGE] {
    let mut bytes = [0; STAGE];
    bytes[0] = 16;
    bytes[4] = 43;
    bytes[12] = 1;
    bytes[16] = incarnation;
    bytes[17] = stage;
    if stage >= 3 {
        bytes[28] = 32;
        bytes[36] = 32;
        bytes[45] = 3;
    }
    bytes
}
