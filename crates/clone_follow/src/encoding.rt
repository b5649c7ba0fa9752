ghost use Rattle.std.specs.Prelude.{◌≡◌, IfOk};
ghost use Rattle.clone_follow.specs.Answers.{Spells};
ghost use Rattle.clone_follow.specs.Spelling.{spelling};

use crate::FollowFrame;
use crate::limits::HEAD_BYTES;
use crate::writing::{payload_len, push_payload, push_u32};
use std::alloc::{AllocError, Global};

/// The one spelling of the frame, which `decode` reads as it. Memory is taken once.
#[tactic(auto, unfolding(crate::specs::Spelling::spelling))]
pub fn encode(alloc: Global, frame: &FollowFrame) -> Result<Vec<u8>, AllocError>
    ensures text { IfOk result (λ v. v.items ≡ spelling frame.now) }
    ensures spelled { IfOk result (λ v. Spells v.items frame.now) }
{
    let long = payload_len(frame);
    let mut text = Vec::with_capacity(alloc, HEAD_BYTES + long)?;
    text.push(frame.code())?;
    push_u32(&mut text, long as u32)?;
    push_payload(&mut text, frame)?;
    Ok(text)
}
