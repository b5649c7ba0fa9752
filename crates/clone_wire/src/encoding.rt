ghost use Rattle.std.specs.Prelude.{◌≡◌, IfOk};
ghost use Rattle.clone_wire.specs.Answers.{Spells};
ghost use Rattle.clone_wire.specs.Spelling.{side_of, spelling};

use crate::Frame;
use crate::writing::push_payload;
use byteorder::{BigEndian, ByteOrder};
use std::alloc::{AllocError, Global};

/// The one spelling of the frame, which `decode` reads as it. Memory is taken once.
#[tactic(auto, unfolding(crate::specs::Spelling::spelling))]
pub fn encode(alloc: Global, frame: &Frame) -> Result<Vec<u8>, AllocError>
    ensures text { IfOk result (λ v. v.items ≡ spelling frame.now) }
    ensures spelled { IfOk result (λ v. Spells (side_of frame.now) v.items frame.now) }
{
    let mut text = Vec::with_capacity(alloc, frame.room())?;
    text.extend_from_slice(&[frame.code(), 0, 0, 0, 0])?;
    push_payload(&mut text, frame)?;
    let length = (text.len() - 5) as u32;
    BigEndian::write_u32(&mut text[1..5], length);
    Ok(text)
}
