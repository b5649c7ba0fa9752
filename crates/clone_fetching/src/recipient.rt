//! A recipient that several tasks share. Unless the copy was given up, the sizes of the disk's
//! spaces are known while the clone goes on.
ghost use Rattle.std.specs.Prelude.{◌≡◌, false, IfOk};
ghost use Rattle.clone_fetch.specs.Fetching.{KnowsSizes};
ghost use Rattle.clone_fetching.specs.Recipients.{IsToldOf, Steps, lacks_memory};

use crate::clone_ended::CloneEnded;
use clone_fetch::{FetchCore, TaskAnswer};
use clone_outside::PageDisk;
use clone_recipient::Reception;
use clone_tasks::Link;
use std::alloc::{AllocError, Global};
use std::marker::Model;

/// What is known of a clone, and the disk on which it is laid.
#[derive(Drop)]
pub struct Recipient<R: PageDisk> {
    alloc: Global,
    reception: Reception,
    disk: R,
    given_up: bool,
}

impl<R: PageDisk> Model for Recipient<R> {
    ghost use Rattle.std.specs.Coded.{codes};
    ghost use Rattle.clone_recipient.specs.Receptions.{sizes_code};
    ghost use Rattle.clone_fetching.specs.Recipients.{RecipientModel, IsRecipient};

    ghost Value = { RecipientModel R };

    ghost coded = { Prim.hlevel (codes, sizes_code, R.code) };

    ghost view = { λ r. record {
      reception = r.reception;
      disk = r.disk;
      given_up = r.given_up;
    } };

    ghost invariant = { λ r. IsRecipient r.reception (R.state r.disk) r.given_up };
}

/// A step of a task: which task it is, with its side of its connection, the state of that, and the
/// position that was looked up last. The bytes are those that were received and not taken yet, and
/// those that are to be sent.
#[derive(Drop)]
pub struct TaskStep {
    pub core: FetchCore,
    pub task: u8,
    pub link: Link,
    pub floor: u64,
    pub received: Vec<u8>,
    pub sent: Vec<u8>,
}

/// What came of a step, with what the task brought to it.
#[derive(Drop)]
pub struct TaskStepped {
    pub core: FetchCore,
    pub received: Vec<u8>,
    pub sent: Vec<u8>,
    pub answer: TaskAnswer,
}

impl<R: PageDisk> Recipient<R> {
    /// A recipient of a clone that was begun on the disk.
    pub fn new(alloc: Global, reception: Reception, disk: R) -> Recipient<R>
        requires { KnowsSizes reception (R.state disk) }
        ensures reception { result.reception ≡ reception }
        ensures disk { result.disk ≡ disk }
        ensures given_up { result.given_up ≡ false }
    {
        Recipient {
            alloc,
            reception,
            disk,
            given_up: false,
        }
    }

    /// What is known of the clone, and the disk.
    pub fn into_parts(self) -> (Reception, R)
        ensures reception { result.0 ≡ self.reception }
        ensures disk { result.1 ≡ self.disk }
    {
        let Recipient {
            alloc: _,
            reception,
            disk,
            given_up: _,
        } = self;
        (reception, disk)
    }

    /// One step of a task, by the rule that applies. Where there was no memory for it the copy is
    /// given up, and so is each later step.
    pub fn step(&mut self, step: TaskStep) -> TaskStepped
        ensures { Steps R.state self.old step result self.new }
    {
        let TaskStep {
            mut core,
            task,
            link,
            floor,
            mut received,
            mut sent,
        } = step;
        if self.given_up {
            return TaskStepped {
                core,
                received,
                sent,
                answer: TaskAnswer::NoMemory,
            };
        }
        let answer = core.step(
            self.alloc,
            &mut self.reception,
            &mut self.disk,
            task,
            link,
            floor,
            &mut received,
            &mut sent,
        );
        self.given_up = lacks_memory(&answer);
        TaskStepped {
            core,
            received,
            sent,
            answer,
        }
    }

    /// How the clone ended, or none while it goes on. The error is out of memory for the bytes that
    /// were kept.
    pub fn ended(&self) -> Result<Option<CloneEnded>, AllocError>
        ensures { IfOk result (IsToldOf self.now.reception.table) }
    {
        let table = self.reception.table();
        let floor = table.floor().unwrap_or(0);
        match table.ended() {
            Some(end) => Ok(Some(CloneEnded::of(self.alloc, end, floor)?)),
            None => Ok(None),
        }
    }
}

// Whether there was no memory for the step.
fn lacks_memory(answer: &TaskAnswer) -> bool
    ensures { result ≡ lacks_memory answer.now }
{
    matches!(answer, TaskAnswer::NoMemory)
}
