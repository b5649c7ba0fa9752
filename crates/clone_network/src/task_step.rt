//! A step of a task, over the connection that it has.
ghost use Rattle.std.specs.Prelude.{◌≡◌, ◌≢◌, ◌<◌, None, length, vec_capacity, vec_len};
ghost use Rattle.clone_outside.specs.DiskCalls.{Alters};
ghost use Rattle.clone_tasks.specs.declared.end.CloneEnd.TheVariants.{DiskFault};
ghost use Rattle.clone_fetch.specs.Fetching.{KnowsSizes};
ghost use Rattle.clone_fetch.specs.declared.answer.TaskAnswer.TheVariants.{Ended, NoMemory};
ghost use Rattle.clone_network.specs.Networks.{Connects, Fetches, HasIts, StepsTask};
ghost use Rattle.clone_network.specs.Networks.{after_answer, ready_in, with_seat};

use crate::{Connection, Network, Seat};
use clone_chunk::CopyStage;
use clone_fetch::{FetchCore, TaskAnswer};
use clone_outside::PageDisk;
use clone_recipient::Reception;
use clone_tasks::Link;
use std::alloc::Global;

impl Connection {
    // A step of the task that has it. What it sends may reach nobody.
    fn fetch<R: PageDisk>(
        &mut self,
        alloc: Global,
        core: &mut FetchCore,
        reception: &mut Reception,
        disk: &mut R,
        task: u8,
        floor: u64,
    ) -> TaskAnswer
        requires sizes { KnowsSizes reception.old (R.state disk.old) }
        ensures fetches { Fetches task floor core.old core.new self.old self.new reception.old
            reception.new (R.state disk.old) (R.state disk.new) result }
        ensures sizes { result ≢ NoMemory → KnowsSizes reception.new (R.state disk.new) }
        ensures works { Alters (result ≡ Ended DiskFault) (R.state disk.old) (R.state disk.new) }
    {
        let link = self.link();
        if self.is_cut {
            let mut sent = Vec::new(alloc);
            return core.step(
                alloc,
                reception,
                disk,
                task,
                link,
                floor,
                &mut self.to_task,
                &mut sent,
            );
        }
        core.step(
            alloc,
            reception,
            disk,
            task,
            link,
            floor,
            &mut self.to_task,
            &mut self.to_donor,
        )
    }
}

impl Network {
    /// A step of a task, by the rule that applies. A frame that it sends without a connection is
    /// the first on a new one. After a loss no task has its connection any more.
    pub fn step_task<R: PageDisk>(
        &mut self,
        alloc: Global,
        reception: &mut Reception,
        disk: &mut R,
        task: u8,
        floor: u64,
    ) -> TaskAnswer
        requires sizes { KnowsSizes reception.old (R.state disk.old) }
        ensures steps { StepsTask task floor reception.old reception.new (R.state disk.old)
            (R.state disk.new) self.old self.new result }
        ensures sizes { result ≢ NoMemory → KnowsSizes reception.new (R.state disk.new) }
        ensures works { Alters (result ≡ Ended DiskFault) (R.state disk.old) (R.state disk.new) }
    {
        if task as usize >= self.seats.len() {
            return TaskAnswer::Idle;
        }
        let mut seat = self.seats[task as usize];
        match seat.connection {
            Some(number) => {
                let connection = &mut self.connections[number];
                let answer = connection.fetch(alloc, &mut seat.core, reception, disk, task, floor);
                self.settle(alloc, task, seat, &answer);
                answer
            }
            None => {
                if self.connections.reserve(1).is_err() {
                    return TaskAnswer::NoMemory;
                }
                let answer = connect(
                    alloc,
                    &mut self.connections,
                    &mut seat,
                    reception,
                    disk,
                    task,
                    floor,
                );
                self.settle(alloc, task, seat, &answer);
                answer
            }
        }
    }

    // A task has taken its step, and after a loss no task has its connection any more.
    fn settle(&mut self, alloc: Global, task: u8, seat: Seat, answer: &TaskAnswer)
        requires task { task < length self.old.seats }
        requires its { HasIts (length self.old.connections) seat }
        ensures { self.new ≡ after_answer answer.now (with_seat task seat self.old) }
    {
        self.seats[task as usize] = seat;
        if let TaskAnswer::Lost { .. } = answer {
            self.hang_up(alloc);
        }
    }

    /// The stage that the recipient copies, exactly where the next step of task 0 would send its
    /// acknowledgement. No memory is taken.
    pub fn ready(&self, reception: &Reception) -> Option<CopyStage>
        ensures { result ≡ ready_in self.now reception.now.table }
    {
        let seat = self.seats.first()?;
        let link = match seat.connection {
            Some(number) => self.connections[number].link(),
            None => Link::Absent,
        };
        seat.core.ready(reception, 0, link)
    }
}

// A step of a task that has no connection. There is room for another.
fn connect<R: PageDisk>(
    alloc: Global,
    connections: &mut Vec<Connection>,
    seat: &mut Seat,
    reception: &mut Reception,
    disk: &mut R,
    task: u8,
    floor: u64,
) -> TaskAnswer
    requires sizes { KnowsSizes reception.old (R.state disk.old) }
    requires none { seat.old.connection ≡ None }
    requires room { vec_len connections.old < vec_capacity connections.old }
    ensures connects { Connects task floor seat.old seat.new reception.old reception.new
        (R.state disk.old) (R.state disk.new) connections.old.items connections.new.items result }
    ensures sizes { result ≢ NoMemory → KnowsSizes reception.new (R.state disk.new) }
    ensures works { Alters (result ≡ Ended DiskFault) (R.state disk.old) (R.state disk.new) }
{
    let mut received = Vec::new(alloc);
    let mut sent = Vec::new(alloc);
    let answer = seat.core.step(
        alloc,
        reception,
        disk,
        task,
        Link::Absent,
        floor,
        &mut received,
        &mut sent,
    );
    if let TaskAnswer::Sent { .. } = answer {
        seat.connection = Some(connections.len());
        if connections.push(Connection::opened(alloc, sent)).is_err() {
            unreachable!();
        }
    }
    answer
}
