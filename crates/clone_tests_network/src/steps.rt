//! Steps of tasks and of the donor over connections that are cut: one inside a frame, one whose
//! answer to an acknowledgement is lost, one more than the limit; and two tasks, which claim chunks
//! of their own. The table has one bucket.
ghost use Rattle.std.specs.Prelude.{◌≤◌, ◌≡◌, true};
ghost use Rattle.clone_lay.specs.Sized.{AreSizes};
ghost use Rattle.clone_tasks.specs.Tables.{is_running};

use clone_donor::Donor;
use clone_engine::OpenRefusal;
use clone_fetch::TaskAnswer;
use clone_memdisk::MemDisk;
use clone_model::{BucketCount, Config, TableNumber, Value};
use clone_network::{DonorStep, Network};
use clone_recipient::Reception;
use clone_recover::{open_rows, recover};
use clone_serve::ServeAnswer;
use clone_tasks::CloneEnd;
use std::alloc::Global;
use std::process::Abort;
use std::test::Fail;

/// What a task's step comes to.
#[derive(Clone, Copy, Debug, PartialEq, Eq)]
enum Came {
    Idle,
    /// A frame of this code was sent.
    Sent(u8),
    /// A frame of this code was taken, and of a block its chunk and its number there.
    Took(u8, u32, u8),
    Lost(u32),
    Complete(u64),
    Spent(u32),
    Other,
}

/// What a step of the donor comes to.
#[derive(Clone, Copy, Debug, PartialEq, Eq)]
enum Served {
    Idle,
    Pages(u32, u8),
    Stage(u8, u64, u64),
    Execute,
    /// There is an incarnation above the caller's.
    Later,
    Lost,
    Other,
}

/// A line.
#[derive(Clone, Copy)]
enum Step {
    Task(u8, Came),
    Serve(u32, Served),
    /// So many bytes are kept on a connection, each way.
    Cut(u32, u32, u32),
    /// A row gets a value, and it is committed.
    Set(u64, u8),
    Look,
    /// Rounds, until the first task would acknowledge the stage of this number.
    Advance(u8),
    /// Rounds, until the clone has ended so.
    Finish(Came),
}

use Came::{Complete, Sent, Spent, Took};
use Served::{Execute, Later, Pages, Stage};
use Step::{Advance, Cut, Finish, Look, Serve, Set, Task};

const INIT: Came = Sent(1);

const ATTACH: Came = Sent(2);

const REINIT: Came = Sent(3);

const EXECUTES: Came = Sent(4);

const ACK: Came = Sent(5);

const STAGE: Came = Took(16, 0, 0);

const FILES: Served = Stage(1, 0, 0);

// Eight blocks of the first chunk are taken; the first of the next is cut short. The donor's end of
// the old connection finds that the session goes on in a later incarnation.
const INSIDE_A_FRAME: [Step; 33] = [
    Set(1, 0xaa),
    Task(0, INIT),
    Serve(0, FILES),
    Task(0, STAGE),
    Task(0, EXECUTES),
    Serve(0, Execute),
    Serve(0, Pages(0, 0)),
    Task(0, Took(17, 0, 0)),
    Serve(0, Pages(0, 1)),
    Task(0, Took(17, 0, 1)),
    Serve(0, Pages(0, 2)),
    Task(0, Took(17, 0, 2)),
    Serve(0, Pages(0, 3)),
    Task(0, Took(17, 0, 3)),
    Serve(0, Pages(0, 4)),
    Task(0, Took(17, 0, 4)),
    Serve(0, Pages(0, 5)),
    Task(0, Took(17, 0, 5)),
    Serve(0, Pages(0, 6)),
    Task(0, Took(17, 0, 6)),
    Serve(0, Pages(0, 7)),
    Task(0, Took(17, 0, 7)),
    Serve(0, Pages(1, 0)),
    Cut(0, 0, 100),
    Task(0, Came::Lost(1)),
    Task(0, REINIT),
    Serve(1, FILES),
    Serve(0, Later),
    Task(0, STAGE),
    Task(0, EXECUTES),
    Serve(1, Execute),
    Serve(1, Pages(1, 0)),
    Finish(Complete(1)),
];

// The stop was answered, and the answer is lost: it is answered again, and nothing of the commit
// after it is in the clone.
const A_LOST_STOP: [Step; 17] = [
    Set(1, 0xaa),
    Advance(1),
    Advance(2),
    Look,
    Task(0, ACK),
    Serve(0, Stage(3, 8573, 1)),
    Cut(0, 0, 10),
    Set(1, 0xbb),
    Look,
    Task(0, Came::Lost(1)),
    Task(0, REINIT),
    Serve(1, Stage(3, 8573, 1)),
    Task(0, STAGE),
    Task(0, ACK),
    Serve(1, Stage(3, 8573, 1)),
    Finish(Complete(1)),
    Task(0, Came::Idle),
];

const TOO_MANY_LOSSES: [Step; 5] = [
    Task(0, INIT),
    Cut(0, 0, 0),
    Task(0, Spent(1)),
    Finish(Spent(1)),
    Serve(0, Served::Lost),
];

// After one loss the clone goes on.
const ONE_LOSS: [Step; 4] = [
    Task(0, INIT),
    Cut(0, 0, 0),
    Task(0, Came::Lost(1)),
    Finish(Complete(0)),
];

const TWO_TASKS: [Step; 15] = [
    Task(1, Came::Idle),
    Task(0, INIT),
    Serve(0, FILES),
    Task(0, STAGE),
    Task(1, ATTACH),
    Serve(1, FILES),
    Task(1, STAGE),
    Task(1, EXECUTES),
    Serve(1, Execute),
    Serve(1, Pages(0, 0)),
    Task(0, EXECUTES),
    Serve(0, Execute),
    Serve(0, Pages(1, 0)),
    Serve(2, Served::Idle),
    Finish(Complete(0)),
];

fn came_of(answer: &TaskAnswer) -> Came {
    match answer {
        TaskAnswer::Idle => Came::Idle,
        TaskAnswer::Sent { code } => Sent(*code),
        TaskAnswer::Took(took) => Took(took.code, took.chunk, took.block),
        TaskAnswer::Lost { losses } => Came::Lost(*losses),
        TaskAnswer::Ended(CloneEnd::Complete { position, .. }) => Complete(*position),
        TaskAnswer::Ended(CloneEnd::Spent { losses }) => Spent(*losses),
        TaskAnswer::Ended(_) | TaskAnswer::Stale | TaskAnswer::NoMemory => Came::Other,
    }
}

fn served_of(answer: &DonorStep) -> Served {
    match answer {
        DonorStep::Lost => Served::Lost,
        DonorStep::Served(ServeAnswer::Idle) => Served::Idle,
        DonorStep::Served(ServeAnswer::SentPages { chunk, block }) => Pages(*chunk, *block),
        DonorStep::Served(
            ServeAnswer::Answered {
                stage,
                lsn,
                position,
            },
        ) => Stage(*stage, *lsn, *position),
        DonorStep::Served(ServeAnswer::Execute) => Execute,
        DonorStep::Served(ServeAnswer::Refused(cause)) if cause.number() == 7 => Later,
        DonorStep::Served(_) => Served::Other,
    }
}

/// A recipient, and the connections of its tasks.
#[derive(Drop)]
struct Copying {
    reception: Reception,
    disk: MemDisk,
    network: Network,
    floor: u64,
    ghost sized: { is_running reception.table ≡ true → AreSizes reception.sizes disk.contents.image },
}

impl Copying {
    fn begin(alloc: Global, tasks: u8, limit: u32) -> Result<Copying, Fail> {
        if tasks == 0 || tasks > 16 || limit > 16 {
            return Err(Fail::from("no such clone"));
        }
        let mut disk = MemDisk::new(alloc);
        let network = Network::new(alloc, tasks)?;
        match Reception::begin(alloc, &mut disk, 1, tasks, limit, 1) {
            Ok(reception) => Ok(Copying {
                reception,
                disk,
                network,
                floor: 0,
            }),
            Err(_) => Err(Fail::from("not begun")),
        }
    }

    // A step of a task, and whether the first was to acknowledge a stage before it.
    fn step(self, alloc: Global, task: u8) -> Result<(Copying, Came), Fail> {
        let Copying {
            mut reception,
            mut disk,
            mut network,
            floor,
        } = self;
        match network.step_task(alloc, &mut reception, &mut disk, task, floor) {
            TaskAnswer::NoMemory => Err(Fail::from("no memory")),
            answer => {
                let copying = Copying {
                    reception,
                    disk,
                    network,
                    floor,
                };
                Ok((copying, came_of(&answer)))
            }
        }
    }
}

/// A donor, a recipient, and how the clone ended.
#[derive(Drop)]
struct World {
    copying: Copying,
    ended: Option<Came>,
}

// More rounds than a clone of these takes.
const ROUNDS: u32 = 10_000;

impl World {
    // The steps, each with what it comes to.
    fn go(
        self,
        rt: &impl Abort,
        alloc: Global,
        donor: &mut Donor<MemDisk>,
        steps: &[Step],
    ) -> Result<World, Fail> {
        let mut world = self;
        for step in steps {
            world = match *step {
                Task(task, wanted) => {
                    let (world, came) = world.task(alloc, task)?;
                    assert_eq!(rt; came, wanted);
                    world
                }
                Serve(number, wanted) => {
                    assert_eq!(rt; world.serve(alloc, donor, number)?, wanted);
                    world
                }
                Cut(number, to_donor, to_task) => {
                    assert!(rt; world.copying.network.cut(number, to_donor, to_task));
                    world
                }
                Set(key, byte) => {
                    set(alloc, donor, key, byte)?;
                    world
                }
                Look => {
                    world.copying.floor = donor.look();
                    world
                }
                Advance(stage) => {
                    let world = world.rounds(alloc, donor, Some(stage))?;
                    assert_eq!(rt; world.ready(), Some(stage));
                    world
                }
                Finish(wanted) => {
                    let world = world.rounds(alloc, donor, None)?;
                    assert_eq!(rt; world.ended, Some(wanted));
                    world
                }
            };
        }
        Ok(world)
    }

    // A step of a task.
    fn task(self, alloc: Global, task: u8) -> Result<(World, Came), Fail> {
        let World { copying, ended } = self;
        let (copying, came) = copying.step(alloc, task)?;
        let ended = match came {
            Complete(_) | Spent(_) => Some(came),
            _ => ended,
        };
        Ok((World { copying, ended }, came))
    }

    // A step of the donor.
    fn serve(
        &mut self,
        alloc: Global,
        donor: &mut Donor<MemDisk>,
        number: u32,
    ) -> Result<Served, Fail> {
        match self.copying.network.step_donor(alloc, donor, number) {
            DonorStep::Served(ServeAnswer::NoMemory) => Err(Fail::from("no memory")),
            answer => Ok(served_of(&answer)),
        }
    }

    // The number of the stage that the first task would acknowledge next.
    fn ready(&self) -> Option<u8> {
        let Copying {
            network,
            reception,
            ..
        } = &self.copying;
        network.ready(reception).map(|stage| stage.number())
    }

    // Rounds, one at least, until the clone has ended, or this stage would be acknowledged next.
    fn rounds(
        self,
        alloc: Global,
        donor: &mut Donor<MemDisk>,
        stage: Option<u8>,
    ) -> Result<World, Fail> {
        let mut world = self;
        for _ in 0..ROUNDS {
            if world.ended.is_some() {
                return Ok(world);
            }
            world = world.round(alloc, donor)?;
            if stage.is_some() && world.ready() == stage {
                return Ok(world);
            }
        }
        Err(Fail::from("the clone doesn't end"))
    }

    // A step of each task, and then of the donor on each connection that is open.
    fn round(self, alloc: Global, donor: &mut Donor<MemDisk>) -> Result<World, Fail> {
        let mut world = self;
        for task in 0..2 {
            let (next, _) = world.task(alloc, task)?;
            world = next;
        }
        let mut from = 0;
        for _ in 0..ROUNDS {
            let Some(number) = world.copying.network.next_open(from) else {
                break;
            };
            let number = u32::try_from(number)?;
            let _ = world.serve(alloc, donor, number)?;
            from = number.saturating_add(1);
        }
        Ok(world)
    }
}

// A row of table 1 gets a value of one byte.
fn set(alloc: Global, donor: &mut Donor<MemDisk>, key: u64, byte: u8) -> Result<(), Fail> {
    let trx = donor.begin(alloc, 0, 0)?;
    donor.put(trx, 1, key, &[byte])?;
    let _ = donor.commit(trx)?;
    Ok(())
}

// A clone of these tasks and this limit takes the steps. Afterwards its rows are those.
fn cloned(
    rt: &impl Abort,
    alloc: Global,
    tasks: u8,
    limit: u32,
    steps: &[Step],
) -> Result<World, Fail> {
    let config = Config {
        pool: 1_024,
        ring: 1_048_576,
    };
    match Donor::open(alloc, MemDisk::new(alloc), config) {
        Ok(mut donor) => {
            let gone = go(rt, alloc, &mut donor, tasks, limit, steps);
            let _disk = donor.into_disk();
            gone
        }
        Err(OpenRefusal { cause: _, disk: _ }) => Err(Fail::from("not opened")),
    }
}

fn go(
    rt: &impl Abort,
    alloc: Global,
    donor: &mut Donor<MemDisk>,
    tasks: u8,
    limit: u32,
    steps: &[Step],
) -> Result<World, Fail> {
    let table = TableNumber::new(1).ok_or("no number")?;
    let buckets = BucketCount::new(1).ok_or("no number")?;
    donor.create(table, buckets)?;
    let world = World {
        copying: Copying::begin(alloc, tasks, limit)?,
        ended: None,
    };
    world.go(rt, alloc, donor, steps)
}

// The row of table 1 that has this key and one byte, and no other.
fn expect_row(rt: &impl Abort, alloc: Global, world: World) -> Result<(), Fail> {
    let World { copying, ended: _ } = world;
    let Copying {
        reception: _,
        mut disk,
        network: _,
        floor: _,
    } = copying;
    let recovered = recover(alloc, &mut disk)?;
    assert_eq!(rt; (recovered.lsn, recovered.position), (8_573, 1));
    let rows = open_rows(alloc, &mut disk)?;
    let value = Value::new(&[0xaa]).ok_or("no value")?;
    let wanted = vec![in alloc; (1, 1, value)]?;
    assert!(rt; rows.as_slice() == wanted.as_slice());
    Ok(())
}

#[test]
fn a_cut_inside_a_frame(rt: HostRuntime) -> Result<(), Fail> {
    let alloc = rt.alloc();
    let world = cloned(&rt, alloc, 1, 16, &INSIDE_A_FRAME)?;
    expect_row(&rt, alloc, world)
}

#[test]
fn a_stop_whose_answer_is_lost(rt: HostRuntime) -> Result<(), Fail> {
    let alloc = rt.alloc();
    let world = cloned(&rt, alloc, 1, 16, &A_LOST_STOP)?;
    expect_row(&rt, alloc, world)
}

#[test]
fn losses_and_tasks(rt: HostRuntime) -> Result<(), Fail> {
    let alloc = rt.alloc();
    let _ = cloned(&rt, alloc, 1, 0, &TOO_MANY_LOSSES)?;
    let _ = cloned(&rt, alloc, 1, 1, &ONE_LOSS)?;
    let _ = cloned(&rt, alloc, 2, 16, &TWO_TASKS)?;
    Ok(())
}
