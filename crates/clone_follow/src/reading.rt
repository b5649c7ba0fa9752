ghost use Rattle.std.specs.Prelude.{◌≡◌, ◌≢◌, IfOk};
ghost use Rattle.clone_follow.specs.Answers.{Decodes, refusal_of};
ghost use Rattle.clone_follow.specs.Choices.{IsOneOf, IsHead, lengths};
ghost use Rattle.clone_follow.specs.Reading.{Gives, head_at, payload_at};

use crate::fault::Fault;
use crate::fields::number_in;
use crate::limits::HEAD_BYTES;
use crate::numbers::Numbers;
use crate::payloads::{commit_of, current_of, want_of};
use crate::{FollowFrame, FrameRefusal};
use clone_bytes::Reader;
use std::alloc::Global;

#[tactic(auto, unfolding(crate::specs::Reading::head_at))]
fn head_of(reader: &mut Reader) -> Result<(u8, u32), Fault>
    ensures gives { Gives (λ x. (x, reader.new)) result (head_at reader.old) }
    ensures head { IfOk result (λ head. IsHead head.0 head.1) }
    ensures memory { result ≢ Err Fault.NoMemory }
{
    let code = number_in(0, 1, Numbers::between(32, 34), reader)?;
    let length = number_in(1, 4, Numbers::lengths(code), reader)?;
    Ok((code as u8, length as u32))
}

// The payload of a frame with this code and this length.
#[tactic(auto, unfolding(crate::specs::Reading::payload_at))]
fn payload_of(
    alloc: Global,
    code: u8,
    length: usize,
    reader: &mut Reader,
) -> Result<FollowFrame, Fault>
    requires { IsHead code length }
    ensures { Gives (λ x. (x, reader.new)) result (payload_at code length reader.old) }
{
    match code {
        32 => want_of(reader),
        33 => commit_of(alloc, length, reader),
        _ => current_of(reader),
    }
}

/// The frame whose spelling is at the front of the bytes, and the length of that spelling. Memory
/// is taken for the changes of a commit, and only there.
pub fn decode(alloc: Global, bytes: &[u8]) -> Result<(FollowFrame, usize), FrameRefusal>
    ensures { Decodes bytes.now result }
{
    let mut reader = Reader::new(bytes);
    let (code, length) = match head_of(&mut reader) {
        Ok(head) => head,
        Err(fault) => return Err(refusal_of(fault, HEAD_BYTES)),
    };
    let whole = HEAD_BYTES + length as usize;
    match payload_of(alloc, code, length as usize, &mut reader) {
        Ok(frame) => Ok((frame, whole)),
        Err(fault) => Err(refusal_of(fault, whole)),
    }
}

fn refusal_of(fault: Fault, need: usize) -> FrameRefusal
    ensures { result ≡ refusal_of fault need }
{
    match fault {
        Fault::Short => FrameRefusal::NotYet { need },
        Fault::Garbled { at } => FrameRefusal::Garbled { at },
        Fault::NoMemory => FrameRefusal::NoMemory,
    }
}
