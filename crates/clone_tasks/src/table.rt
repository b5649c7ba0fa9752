//! There are 1 to 16 tasks, version 1 or 2 is spoken, and the losses are at most one more than the
//! limit, and at most the limit while the clone goes on. A task that there isn't stands apart. Only
//! task 0 may have sent an ACK that awaits its answer, and each chunk is finished then.
ghost use Rattle.std.specs.Prelude.{◌≡◌, ◌≤◌, length};
ghost use Rattle.std.specs.Option.{option_copied};
ghost use Rattle.clone_base.specs.declared.limits.TheConstants.{MOST_LOSSES};
ghost use Rattle.clone_base.specs.declared.limits.TheConstants as limits;
ghost use Rattle.clone_tasks.specs.Tables.{IsBounded, begun, incarnation_of, is_running};
ghost use Rattle.clone_tasks.specs.Tables.{standing_of};

use crate::{CloneEnd, Phase, Standing};
use clone_base::MOST_TASKS;
use clone_marks::Marks;
use std::alloc::Global;
use std::marker::Model;

/// The tasks of a recipient.
#[derive(Drop)]
pub struct TaskTable {
    pub(crate) session: u64,
    pub(crate) version: u16,
    pub(crate) count: u8,
    pub(crate) limit: u32,
    pub(crate) losses: u32,
    pub(crate) phase: Phase,
    pub(crate) joined: bool,
    pub(crate) standings: [Standing; MOST_TASKS],
    pub(crate) floor: Option<u64>,
    pub(crate) ended: Option<CloneEnd>,
    pub(crate) marks: Marks,
}

impl Model for TaskTable {
    ghost use Rattle.clone_tasks.specs.Tables.{Table, IsTable, AreStandings};

    ghost Value = { Table };

    ghost view = { λ t. record {
      session = t.session;
      version = t.version;
      count = t.count;
      limit = t.limit;
      losses = t.losses;
      phase = t.phase;
      joined = t.joined;
      standings = t.standings;
      floor = t.floor;
      ended = t.ended;
      marks = t.marks;
    } };

    ghost invariant = { λ t. IsTable t.count t.version t.limit t.losses t.ended
        × AreStandings t.standings t.marks };
}

impl TaskTable {
    /// So many tasks before their first step. The clone ends with the loss after so many as the
    /// limit says. No memory is taken.
    pub fn new(alloc: Global, session: u64, tasks: u8, limit: u32, version: u16) -> TaskTable
        requires some { 1 ≤ tasks }
        requires few { tasks ≤ MOST_TASKS }
        requires limit { limit ≤ MOST_LOSSES }
        requires first { 1 ≤ version }
        requires second { version ≤ 2 }
        ensures { result ≡ begun session tasks limit version }
    {
        TaskTable {
            session,
            version,
            count: tasks,
            limit,
            losses: 0,
            phase: Phase::Opening,
            joined: false,
            standings: [Standing::Apart; MOST_TASKS],
            floor: None,
            ended: None,
            marks: Marks::none(alloc),
        }
    }

    /// What holds of every table: it has 16 places for tasks, and its chunks are at most as many as
    /// a bitmap shows, with 1 to 8 blocks each.
    pub fn laws(&self)
        ensures { IsBounded self.now }
    {
        has_places(&self.standings);
        self.marks.laws();
    }

    /// The session's number.
    pub fn session(&self) -> u64
        ensures { result ≡ self.now.session }
    {
        self.session
    }

    /// The present incarnation: the losses and one.
    pub fn incarnation(&self) -> u32
        ensures { result ≡ incarnation_of self.now }
    {
        self.losses + 1
    }

    /// How far the recipient has come.
    pub fn phase(&self) -> Phase
        ensures { result ≡ self.now.phase }
    {
        self.phase
    }

    /// Where a task stands. One that there isn't stands apart.
    pub fn standing(&self, task: u8) -> Standing
        ensures { result ≡ standing_of self.now task }
    {
        match self.standings.get(task as usize) {
            Some(standing) => *standing,
            None => Standing::Apart,
        }
    }

    /// The floor of the first acknowledgement of PAGE COPY, or none before it.
    pub fn floor(&self) -> Option<u64>
        ensures { result ≡ self.now.floor }
    {
        self.floor
    }

    /// Which blocks of the stage were taken.
    pub fn marks(&self) -> &Marks
        ensures { result.now ≡ self.now.marks }
    {
        &self.marks
    }

    /// Whether the clone hasn't ended.
    pub fn is_running(&self) -> bool
        ensures { result ≡ is_running self.now }
    {
        self.ended.is_none()
    }

    /// How the clone ended, or none while it goes on.
    pub fn ended(&self) -> Option<&CloneEnd>
        ensures { option_copied result ≡ self.now.ended }
    {
        self.ended.as_ref()
    }
}

// There is a place for each task that there may be.
fn has_places(_standings: &[Standing; MOST_TASKS])
    ensures { length _standings.now ≡ limits.MOST_TASKS }
{}
