ghost use Rattle.std.specs.Prelude.{◌≡◌, ◌≢◌, None};
ghost use Rattle.clone_outside.specs.DiskCalls.{Alters};
ghost use Rattle.clone_tasks.specs.Rules.{rule_at};
ghost use Rattle.clone_tasks.specs.Tables.{incarnation_of};
ghost use Rattle.clone_tasks.specs.declared.end.CloneEnd.TheVariants.{DiskFault};
ghost use Rattle.clone_fetch.specs.Fetching.{KnowsSizes, StepsBy, made_by, ready_of, requester};
ghost use Rattle.clone_fetch.specs.declared.answer.TaskAnswer.TheVariants.{Ended, NoMemory};

use crate::TaskAnswer;
use crate::completing::complete;
use crate::receiving::receive;
use crate::sending::send;
use clone_chunk::CopyStage;
use clone_outside::PageDisk;
use clone_recipient::Reception;
use clone_tasks::{Link, Rule};
use std::alloc::Global;
use std::marker::Model;

/// A task's side of its connections. Contracts see it as the incarnation in which the task
/// connected last, or none before it did.
#[derive(Clone, Copy)]
pub struct FetchCore {
    made: Option<u32>,
}

impl Model for FetchCore {
    ghost use Rattle.std.specs.Prelude.{ℕ};
    ghost use Rattle.std.specs.declared.option.Option.{Option};

    ghost Value = { Option ℕ };

    ghost view = { λ c. c.made };

    ghost inverse = { λ made. record { made = made } };
}

impl FetchCore {
    /// A task that hasn't connected yet. No memory is taken.
    pub fn new() -> FetchCore
        ensures { result ≡ None }
    {
        FetchCore { made: None }
    }

    /// One step of a task, by the rule that applies. The floor is the position that was looked up
    /// last.
    pub fn step<R: PageDisk>(
        &mut self,
        alloc: Global,
        reception: &mut Reception,
        disk: &mut R,
        task: u8,
        link: Link,
        floor: u64,
        received: &mut Vec<u8>,
        sent: &mut Vec<u8>,
    ) -> TaskAnswer
        requires sizes { KnowsSizes reception.old (R.state disk.old) }
        ensures steps { StepsBy (rule_at self.old reception.old.table task link)
            link task floor
            (requester reception.old (R.state disk.old) received.old.items
            sent.old.items)
            (requester reception.new (R.state disk.new) received.new.items
            sent.new.items) result }
        ensures made { self.new
            ≡ made_by (rule_at self.old reception.old.table task link)
            (incarnation_of reception.old.table) self.old }
        ensures sizes { result ≢ NoMemory
            → KnowsSizes reception.new (R.state disk.new) }
        ensures works { Alters (result ≡ Ended DiskFault)
            (R.state disk.old) (R.state disk.new) }
    {
        let table = reception.table();
        let incarnation = table.incarnation();
        match table.rule(self.made, task, link) {
            Rule::Nothing => TaskAnswer::Idle,
            Rule::Stale => TaskAnswer::Stale,
            Rule::Receive => receive(alloc, reception, disk, task, link, received),
            Rule::Complete => complete(alloc, reception, disk, sent),
            Rule::Connect => {
                self.made = Some(incarnation);
                send(alloc, reception, task, floor, sent)
            }
            Rule::Acknowledge { .. } | Rule::Execute { .. } => {
                send(alloc, reception, task, floor, sent)
            }
        }
    }

    /// The stage that the recipient copies, exactly where the task's next step would send its
    /// acknowledgement. No memory is taken.
    pub fn ready(&self, reception: &Reception, task: u8, link: Link) -> Option<CopyStage>
        ensures { result ≡ ready_of (rule_at self.now reception.now.table task link) }
    {
        match reception.table().rule(self.made, task, link) {
            Rule::Acknowledge { stage } => Some(stage),
            _ => None,
        }
    }
}
