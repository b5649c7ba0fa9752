ghost use Rattle.std.specs.Prelude.{◌≡◌, IsTrue, false};
ghost use Rattle.clone_marks.specs.Blocks.{AreAllTaken};
ghost use Rattle.clone_tasks.specs.Awaiting.{is_present, awaits_stage, moves, awaits_block};
ghost use Rattle.clone_tasks.specs.Awaiting.{awaits_end_of, next_stage, is_in, is_same};
ghost use Rattle.clone_tasks.specs.Awaiting.{is_opening};

use crate::{Phase, Standing, TaskTable};
use clone_chunk::{CopyStage, Stage};
use clone_wire::Attempt;

impl TaskTable {
    /// Whether an answer is of this session in its present incarnation.
    pub fn is_present(&self, attempt: Attempt) -> bool
        ensures { result ≡ is_present self.now attempt }
    {
        attempt.session == self.session && attempt.incarnation == self.losses + 1
    }

    /// Whether a task awaits the STAGE of this stage: after INIT that of FILE COPY, after REINIT or
    /// REINIT2 that of the recipient's stage or of the next one, after ACK that of the next one,
    /// and after ATTACH that of any stage.
    pub fn awaits_stage(&self, task: u8, stage: Stage) -> bool
        ensures { result ≡ awaits_stage self.now task stage }
    {
        match self.standing(task) {
            Standing::Joining => task != 0
                || is_same(stage, next_stage(self.phase))
                || self.is_in(stage),
            Standing::Acknowledging => is_same(stage, next_stage(self.phase)),
            _ => false,
        }
    }

    /// Whether the STAGE that a task awaits moves the recipient: after INIT and after ACK. Then
    /// each block of the recipient's stage was taken.
    pub fn moves(&self, task: u8) -> bool
        ensures value { result ≡ moves self.now task }
        ensures taken { IsTrue result → is_opening self.now.phase ≡ false →
            AreAllTaken self.now.marks }
    {
        let is_opening = matches!(self.phase, Phase::Opening);
        match self.standing(task) {
            Standing::Joining => task == 0 && is_opening,
            Standing::Acknowledging => true,
            _ => false,
        }
    }

    /// Whether a task awaits a block of a stage that wasn't taken yet.
    pub fn awaits_block(&self, task: u8, stage: CopyStage, chunk: u32, block: u8) -> bool
        ensures { result ≡ awaits_block self.now task stage chunk block }
    {
        self.awaits_end(task, stage) && self.marks.is_left(chunk, block)
    }

    /// Whether a task awaits the END of a stage.
    pub fn awaits_end(&self, task: u8, stage: CopyStage) -> bool
        ensures { result ≡ awaits_end_of self.now task stage }
    {
        self.standing(task).awaits_end() && self.is_in(stage.stage())
    }

    // Whether the recipient copies this stage.
    fn is_in(&self, stage: Stage) -> bool
        ensures { result ≡ is_in self.now.phase stage }
    {
        match self.phase {
            Phase::Copying { stage: present } => is_same(stage, present.stage()),
            Phase::Opening | Phase::Done => false,
        }
    }
}

// The stage after that of the recipient. After all there is none, and the last answers.
fn next_stage(phase: Phase) -> Stage
    ensures { result ≡ next_stage phase }
{
    match phase {
        Phase::Opening => Stage::FileCopy,
        Phase::Copying {
            stage: CopyStage::FileCopy,
        } => Stage::PageCopy,
        Phase::Copying {
            stage: CopyStage::PageCopy,
        } => Stage::RedoCopy,
        Phase::Copying {
            stage: CopyStage::RedoCopy,
        }
        | Phase::Done => Stage::Done,
    }
}

fn is_same(a: Stage, b: Stage) -> bool
    ensures { result ≡ is_same a b }
{
    a.number() == b.number()
}
