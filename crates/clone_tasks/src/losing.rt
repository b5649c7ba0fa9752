ghost use Rattle.std.specs.Prelude.{◌≡◌, IsTrue};
ghost use Rattle.clone_tasks.specs.Losing.{kept_in, loss_answer, loss_table};
ghost use Rattle.clone_tasks.specs.Tables.{is_running};

use crate::{CloneEnd, LossAnswer, Standing, TaskTable};
use clone_base::MOST_TASKS;
use clone_chunk::MOST_PARTIAL;

impl TaskTable {
    /// A task has found its connection lost, which it made in this incarnation. Only the present
    /// incarnation's loss counts, so each counts once. The tasks are apart then, and begin anew; in
    /// version 1 blocks of chunks that aren't finished are forgotten, and in version 2 those of the
    /// first 1,616 such chunks are kept. No memory is taken.
    pub fn lost(&mut self, incarnation: u32) -> LossAnswer
        requires { IsTrue (is_running self.old) }
        ensures answer { result ≡ loss_answer self.old incarnation }
        ensures table { self.new ≡ loss_table self.old incarnation }
    {
        if incarnation != self.losses + 1 {
            return LossAnswer::Old;
        }
        self.marks.forget(kept_in(self.version));
        self.losses += 1;
        self.joined = false;
        self.standings = [Standing::Apart; MOST_TASKS];
        let losses = self.losses;
        if losses > self.limit {
            self.ended = Some(CloneEnd::Spent { losses });
            return LossAnswer::Spent { losses };
        }
        LossAnswer::Again { losses }
    }
}

// How many chunks that aren't finished keep their blocks.
fn kept_in(version: u16) -> usize
    ensures { result ≡ kept_in version }
{
    if version == 1 { 0 } else { MOST_PARTIAL }
}
