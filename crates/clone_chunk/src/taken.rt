//! What a recipient has of a stage: a bit for each chunk that is finished, and of other chunks the
//! blocks that were taken. No chunk is both.
ghost use Rattle.std.specs.Prelude.{◌≡◌};
ghost use Rattle.clone_chunk.specs.Partials.{AreUnset};

use crate::{Bitmap, PartialChunk, Partials};
use std::marker::Model;

/// The chunks of a stage that are finished, and the blocks that were taken of others.
#[derive(Drop)]
pub struct TakenBlocks {
    finished: Bitmap,
    partials: Partials,
}

impl Model for TakenBlocks {
    ghost use Rattle.clone_chunk.specs.Partials.{Taken, AreUnset};

    ghost Value = { Taken };

    ghost view = { λ t. record { finished = t.finished; partials = t.partials } };

    ghost invariant = { λ t. AreUnset t.finished.bytes t.partials };
}

impl TakenBlocks {
    /// These chunks, of which none is both finished and partial.
    pub fn new(finished: Bitmap, partials: Partials) -> TakenBlocks
        requires { AreUnset finished.bytes partials }
        ensures { result ≡ record { finished = finished; partials = partials } }
    {
        TakenBlocks { finished, partials }
    }

    /// A bit for each chunk that is finished.
    pub fn finished(&self) -> &Bitmap
        ensures { result.now ≡ self.now.finished }
    {
        &self.finished
    }

    /// The chunks of which some blocks were taken.
    pub fn partials(&self) -> &Partials
        ensures value { result.now ≡ self.now.partials }
        ensures apart { AreUnset self.now.finished.bytes self.now.partials }
    {
        &self.partials
    }
}
