use clone_chunk::{CloneCause, RedoBytes};
use clone_page::Pages;
use clone_plain::EngineRefusal;
use clone_session::CloneRefusal;
use std::alloc::AllocError;

/// A block of a chunk.
#[derive(Drop)]
pub enum Block {
    /// 1 to 8 pages.
    Pages(Pages),
    /// 1 to 16,384 bytes of the log.
    Redo {
        /// The LSN of the first one.
        from: u64,
        /// The bytes.
        bytes: RedoBytes,
    },
}

/// Why a block isn't answered.
#[derive(Clone, Copy, Debug, PartialEq, Eq, Drop)]
pub enum BlockRefusal {
    /// There is a cause of the clone, or no memory.
    Clone(CloneRefusal),
    /// The disk failed.
    Engine(EngineRefusal),
}

impl From<CloneCause> for BlockRefusal {
    ghost use Rattle.std.specs.Prelude.{◌≡◌};
    ghost use Rattle.clone_session.specs.declared.refusal.CloneRefusal.TheVariants.{Because};
    ghost use Rattle.clone_calls.specs.declared.block.BlockRefusal.TheVariants.{Clone};

    ghost from_gives = { λ c e. e ≡ Clone (Because c) };

    fn from(cause: CloneCause) -> BlockRefusal {
        BlockRefusal::Clone(CloneRefusal::Because(cause))
    }
}

impl From<EngineRefusal> for BlockRefusal {
    ghost use Rattle.std.specs.Prelude.{◌≡◌};
    ghost use Rattle.clone_calls.specs.declared.block.BlockRefusal.TheVariants.{Engine};

    ghost from_gives = { λ r e. e ≡ Engine r };

    fn from(refusal: EngineRefusal) -> BlockRefusal {
        BlockRefusal::Engine(refusal)
    }
}

impl From<AllocError> for BlockRefusal {
    ghost use Rattle.std.specs.Prelude.{◌≡◌};
    ghost use Rattle.clone_session.specs.declared.refusal.CloneRefusal.TheVariants.{NoMemory};
    ghost use Rattle.clone_calls.specs.declared.block.BlockRefusal.TheVariants.{Clone};

    ghost from_gives = { λ _ e. e ≡ Clone NoMemory };

    fn from(_refused: AllocError) -> BlockRefusal {
        BlockRefusal::Clone(CloneRefusal::NoMemory)
    }
}
