ghost use Rattle.std.specs.Prelude.{◌≡◌, ◌≢◌, IfOk};
ghost use Rattle.clone_wire.specs.Answers.{Decodes, ReadsHead, refusal_of};
ghost use Rattle.clone_wire.specs.Frames.{codes, lengths, IsHead};
ghost use Rattle.clone_wire.specs.Reading.{Gives, head_at, payload_at};

use crate::fault::Fault;
use crate::fields::number_in;
use crate::limits::{
    HEAD_BYTES, MOST_BITMAP, MOST_TAKEN, PAGE_AT_BYTES, PAGES_FIELDS, REDO_FIELDS, REINIT_FIELDS,
    REINIT2_FIELDS, SPACE_BYTES, STAGE_FIELDS,
};
use crate::numbers::Numbers;
use crate::payloads::{
    ack_of, attach_of, end_of, execute_of, init_of, pages_frame_of, redo_of, refused_of, reinit_of,
    stage_of,
};
use crate::taken::reinit2_of;
use crate::{Frame, HeadRefusal, Side, WireRefusal};
use clone_base::{BLOCK_BYTES, BLOCK_PAGES, SPACE_LIMIT};
use clone_bytes::Reader;
use std::alloc::Global;

#[tactic(auto, unfolding(crate::specs::Reading::head_at))]
fn head_of(side: Side, reader: &mut Reader) -> Result<(u8, u32), Fault>
    ensures gives { Gives (λ x. (x, reader.new)) result (head_at side reader.old) }
    ensures head { IfOk result (λ head. IsHead head.0 head.1) }
    ensures memory { result ≢ Err Fault.NoMemory }
{
    let code = number_in(0, 1, codes(side), reader)?;
    let length = number_in(1, 4, lengths(code), reader)?;
    Ok((code as u8, length as u32))
}

fn codes(side: Side) -> Numbers
    ensures { result ≡ codes side }
{
    match side {
        Side::Command => Numbers::between(1, 7),
        Side::Answer => Numbers::between(16, 20),
    }
}

// The lengths that a payload may have, by the code.
fn lengths(code: u64) -> Numbers
    ensures { result ≡ lengths code }
{
    match code {
        1 => Numbers::only(20),
        2 | 19 => Numbers::only(13),
        3 => Numbers::listed(REINIT_FIELDS, 0, MOST_BITMAP, 1),
        4 => Numbers::only(1),
        5 => Numbers::only(9),
        6 => Numbers::only(0),
        7 => Numbers::listed(REINIT2_FIELDS, 0, MOST_TAKEN, 1),
        16 => Numbers::listed(STAGE_FIELDS, 0, SPACE_LIMIT, SPACE_BYTES),
        17 => Numbers::listed(PAGES_FIELDS, 1, BLOCK_PAGES, PAGE_AT_BYTES),
        18 => Numbers::listed(REDO_FIELDS, 1, BLOCK_BYTES, 1),
        _ => Numbers::only(17),
    }
}

// The payload of a frame with this code and this length.
#[tactic(auto, unfolding(crate::specs::Reading::payload_at))]
fn payload_of(alloc: Global, code: u8, length: usize, reader: &mut Reader) -> Result<Frame, Fault>
    requires { IsHead code length }
    ensures { Gives (λ x. (x, reader.new)) result (payload_at code length reader.old) }
{
    match code {
        1 => init_of(reader),
        2 => attach_of(reader),
        3 => reinit_of(alloc, length - REINIT_FIELDS, reader),
        4 => execute_of(reader),
        5 => ack_of(reader),
        6 => Ok(Frame::Exit),
        7 => reinit2_of(alloc, length - REINIT2_FIELDS, reader),
        16 => stage_of(alloc, (length - STAGE_FIELDS) / SPACE_BYTES, reader),
        17 => pages_frame_of(alloc, (length - PAGES_FIELDS) / PAGE_AT_BYTES, reader),
        18 => redo_of(alloc, length - REDO_FIELDS, reader),
        19 => end_of(reader),
        _ => refused_of(reader),
    }
}

/// The code and the length of the payload at the front of the bytes, as `decode` reads them. No
/// memory is taken.
pub fn read_head(bytes: &[u8], side: Side) -> Result<(u8, u32), HeadRefusal>
    ensures { ReadsHead side bytes.now result }
{
    match head_of(side, &mut Reader::new(bytes)) {
        Ok(head) => Ok(head),
        Err(Fault::Garbled { at }) => Err(HeadRefusal::Garbled { at }),
        Err(Fault::Short) => Err(HeadRefusal::NotYet { need: HEAD_BYTES }),
        Err(Fault::NoMemory) => unreachable!(),
    }
}

/// The frame of this side whose spelling is at the front of the bytes, and the length of that
/// spelling. Memory is taken for the lists in the frame, and only there.
pub fn decode(alloc: Global, bytes: &[u8], side: Side) -> Result<(Frame, usize), WireRefusal>
    ensures { Decodes side bytes.now result }
{
    let mut reader = Reader::new(bytes);
    let (code, length) = match head_of(side, &mut reader) {
        Ok(head) => head,
        Err(fault) => return Err(refusal_of(fault, HEAD_BYTES)),
    };
    let whole = HEAD_BYTES + length as usize;
    match payload_of(alloc, code, length as usize, &mut reader) {
        Ok(frame) => Ok((frame, whole)),
        Err(fault) => Err(refusal_of(fault, whole)),
    }
}

fn refusal_of(fault: Fault, need: usize) -> WireRefusal
    ensures { result ≡ refusal_of fault need }
{
    match fault {
        Fault::Short => WireRefusal::NotYet { need },
        Fault::Garbled { at } => WireRefusal::Garbled { at },
        Fault::NoMemory => WireRefusal::NoMemory,
    }
}
