ghost use Rattle.std.specs.Prelude.{◌≡◌};
ghost use Rattle.clone_chunk.specs.Stages.{copy_number};
ghost use Rattle.clone_wire.specs.Stages.{page_numbered};
ghost use Rattle.clone_serve.specs.Telling.{attempt_of, block_frame, end_frame, stage_frame};

use crate::{Execution, Place};
use clone_calls::Block;
use clone_chunk::CopyStage;
use clone_session::{Caller, StageInfo};
use clone_wire::{Attempt, Frame, PageStage};

/// The frame that tells a stage.
pub(crate) fn stage_frame(info: StageInfo) -> Frame
    ensures { result ≡ stage_frame info }
{
    let StageInfo {
        session,
        incarnation,
        plan,
    } = info;
    Frame::Stage {
        attempt: Attempt {
            session,
            incarnation,
        },
        plan,
    }
}

/// The frame that tells that no chunk is free.
pub(crate) fn end_frame(execution: Execution) -> Frame
    ensures { result ≡ end_frame execution.caller (copy_number execution.stage) }
{
    Frame::End {
        attempt: attempt_of(execution.caller),
        stage: execution.stage,
    }
}

/// The frame of a block.
pub(crate) fn block_frame(execution: Execution, place: Place, block: Block) -> Frame
    ensures { result ≡ block_frame execution.caller (copy_number execution.stage) place.chunk
        place.block block }
{
    let attempt = attempt_of(execution.caller);
    match block {
        Block::Pages(pages) => Frame::Pages {
            attempt,
            stage: page_stage(execution.stage),
            chunk: place.chunk,
            block: place.block,
            pages,
        },
        Block::Redo { from, bytes } => Frame::Redo {
            attempt,
            chunk: place.chunk,
            block: place.block,
            from,
            bytes,
        },
    }
}

// The stage of a block of pages. Pages are copied in two stages.
fn page_stage(stage: CopyStage) -> PageStage
    ensures { result ≡ page_numbered (copy_number stage) }
{
    match stage {
        CopyStage::FileCopy => PageStage::FileCopy,
        _ => PageStage::PageCopy,
    }
}

fn attempt_of(caller: Caller) -> Attempt
    ensures { result ≡ attempt_of caller }
{
    Attempt {
        session: caller.session,
        incarnation: caller.incarnation,
    }
}
