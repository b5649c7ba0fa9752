ghost use Rattle.std.specs.Prelude.{◌≡◌, IsTrue, Some, map, slice_set};
ghost use Rattle.clone_marks.specs.Blocks.{is_left};
ghost use Rattle.clone_tasks.specs.Moves.{HasTaken, joined_by, begins, served};
ghost use Rattle.clone_tasks.specs.Tables.{renewed};
ghost use Rattle.clone_tasks.specs.declared.standing.Phase.TheVariants.{Copying, Done};
ghost use Rattle.clone_tasks.specs.declared.standing.Standing.TheVariants.{Ready};

use crate::{CloneEnd, Phase, Standing, TaskTable};
use clone_base::MOST_TASKS;
use clone_chunk::CopyStage;
use clone_marks::Marks;

impl TaskTable {
    /// A task has taken a STAGE that leaves the recipient where it is.
    pub fn join(&mut self, task: u8)
        ensures { self.new ≡ joined_by self.old task }
    {
        self.stand(task, Standing::Ready);
        self.joined = self.joined || task == 0;
    }

    /// Task 0 has taken the STAGE of the next stage, in which something is copied.
    pub fn begin_stage(&mut self, stage: CopyStage, marks: Marks)
        ensures { self.new ≡ begins (Copying stage) marks self.old }
    {
        self.phase = Phase::Copying { stage };
        self.joined = true;
        begin(&mut self.standings);
        self.marks = marks;
    }

    /// Task 0 has taken the STAGE that says that nothing is left to copy.
    pub fn finish_copy(&mut self)
        ensures { self.new ≡ begins Done self.old.marks self.old }
    {
        self.phase = Phase::Done;
        self.joined = true;
        begin(&mut self.standings);
    }

    /// A block was taken.
    pub fn take_block(&mut self, chunk: u32, block: u8)
        requires { IsTrue (is_left self.old.marks chunk block) }
        ensures { HasTaken self.old chunk block self.new }
    {
        self.marks.mark(chunk, block);
    }

    /// A task has taken END.
    pub fn take_end(&mut self, task: u8)
        ensures { self.new ≡ served self.old task }
    {
        self.stand(task, Standing::Served);
    }

    /// The clone has ended so.
    pub fn end(&mut self, how: CloneEnd)
        ensures { self.new ≡ record self.old { ended = Some how } }
    {
        self.ended = Some(how);
    }
}

// Task 0 awaits nothing more, and nobody has taken an END of the stage that begins.
fn begin(standings: &mut [Standing; MOST_TASKS])
    ensures { standings.new ≡ map renewed (slice_set standings.old 0 Ready) }
{
    standings[0] = Standing::Ready;
    renew(standings);
}

// Nobody has taken an END of the stage that begins.
fn renew(standings: &mut [Standing])
    ensures { standings.new ≡ map renewed standings.old }
{
    for standing in standings.iter_mut() {
        *standing = standing.renewed();
    }
}
