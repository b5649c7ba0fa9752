ghost use Rattle.std.specs.Prelude.{◌≡◌, ◌==◌, None, Some, IfOk, OnOk, OnErr};
ghost use Rattle.clone_tasks.specs.Rules.{sending_rule};
ghost use Rattle.clone_tasks.specs.Sending.{Sends, IsFirst, Reattaches, after_sending, sent_floor};
ghost use Rattle.clone_tasks.specs.Sending.{kept_floor};
ghost use Rattle.clone_tasks.specs.Tables.{MayStand, attempt_of, with_standing};

use crate::{Phase, Rule, Standing, TaskTable};
use clone_base::{MOST_TASKS, PAGE_SIZE};
use clone_chunk::CopyStage;
use clone_wire::{Attempt, Frame};
use std::alloc::{AllocError, Global};

impl TaskTable {
    /// The frame that a task sends next. None comes exactly where no rule sends a frame, and
    /// nothing changes. The floor is the position that was looked up last: it is that of the
    /// acknowledgement of PAGE COPY where that is sent for the first time, and later ones carry
    /// the same. EXIT is sent once the clone was completed. The error is out of memory, and
    /// nothing changes.
    pub fn next_send(
        &mut self,
        alloc: Global,
        task: u8,
        floor: u64,
    ) -> Result<Option<Frame>, AllocError>
        ensures frame { IfOk result (Sends (sending_rule self.old task) self.old task floor) }
        ensures table { OnOk result (self.new ≡
            after_sending (sending_rule self.old task) self.old task floor) }
        ensures err { OnErr result (self.new ≡ self.old) }
    {
        match self.sending_rule(task) {
            Rule::Connect => {
                let first = self.first_command(alloc, task)?;
                self.stand(task, Standing::Joining);
                Ok(Some(first))
            }
            Rule::Acknowledge { stage } => {
                let floor = self.keep_floor(stage, floor);
                self.stand(task, Standing::Acknowledging);
                Ok(Some(Frame::Ack { stage, floor }))
            }
            Rule::Execute { stage } => {
                self.stand(task, Standing::Fetching);
                Ok(Some(Frame::Execute { stage }))
            }
            Rule::Complete => Ok(Some(Frame::Exit)),
            Rule::Nothing | Rule::Stale | Rule::Receive => Ok(None),
        }
    }

    /// The session and its present incarnation.
    pub fn attempt(&self) -> Attempt
        ensures { result ≡ attempt_of self.now }
    {
        Attempt {
            session: self.session,
            incarnation: self.losses + 1,
        }
    }

    // The command with which a task connects.
    fn first_command(&self, alloc: Global, task: u8) -> Result<Frame, AllocError>
        ensures { IfOk result (IsFirst (task == 0) self.now task) }
    {
        let attempt = self.attempt();
        if task != 0 {
            return Ok(Frame::Attach { attempt, task });
        }
        match self.phase {
            Phase::Copying { stage } => self.reattaching(alloc, stage),
            Phase::Opening | Phase::Done => Ok(Frame::Init {
                attempt,
                version: self.version,
                page_size: PAGE_SIZE as u32,
                compressed: false,
                tasks: self.count,
            }),
        }
    }

    // The command with which task 0 comes back to the session.
    fn reattaching(&self, alloc: Global, stage: CopyStage) -> Result<Frame, AllocError>
        ensures { IfOk result (Reattaches (self.now.version == 1) stage self.now) }
    {
        let attempt = self.attempt();
        if self.version == 1 {
            let finished = self.marks.finished_bits(alloc)?;
            return Ok(Frame::Reinit {
                attempt,
                stage,
                finished,
            });
        }
        let taken = self.marks.taken_blocks(alloc)?;
        Ok(Frame::Reinit2 {
            attempt,
            stage,
            taken,
        })
    }

    // The floor of an acknowledgement, which is kept in PAGE COPY.
    fn keep_floor(&mut self, stage: CopyStage, floor: u64) -> u64
        ensures floor { result ≡ sent_floor stage self.old.floor floor }
        ensures kept { self.new ≡
            record self.old { floor = kept_floor stage self.old.floor floor } }
    {
        match stage {
            CopyStage::FileCopy | CopyStage::RedoCopy => floor,
            CopyStage::PageCopy => {
                let floor = self.floor.unwrap_or(floor);
                self.floor = Some(floor);
                floor
            }
        }
    }

    // From now on a task stands so. One that there isn't stays apart.
    pub(crate) fn stand(&mut self, task: u8, standing: Standing)
        requires { MayStand standing task self.old.marks }
        ensures { self.new ≡ with_standing self.old task standing }
    {
        if (task as usize) < MOST_TASKS {
            self.standings[task as usize] = standing;
        }
    }
}
