//! Rounds of steps, which bring a clone to its end: a step of each task, and then one of the donor
//! on each connection that is open.
ghost use Rattle.std.specs.Prelude.{◌≡◌, ◌<◌, ◌≤◌, ◌+◌, ◌^◌, IfOk, OnErr, OnOk, None, not};
ghost use Rattle.std.specs.Option.{IfNone, IfSome};
ghost use Rattle.std.specs.String.{string_bytes};
ghost use Rattle.clone_script.specs.declared.lines.Line.TheVariants as lines;
ghost use Rattle.clone_events.specs.Runs.{AreOfDonor, AreOfTasks, AreRounds, IsRound};
ghost use Rattle.clone_core.specs.CloneEvents.{CameTo, ComesBy, EndsUntold, GoesOnFrom};
ghost use Rattle.clone_core.specs.CloneEvents.{Makes, NeverSticks, came_answer, still_answer};
ghost use Rattle.clone_core.specs.Idling.{EndsIdle, RoundIdles, TasksIdle};
ghost use Rattle.clone_core.specs.Left.{DonorLeaves, RoundLeaves, TasksLeave};
ghost use Rattle.clone_core.specs.Left.{is_idle, is_quiet, tasks_left};
ghost use Rattle.clone_core.specs.Lines.{Answers, BreaksOff};
ghost use Rattle.clone_core.specs.Quiet.{AreClosed, tasks_of};
ghost use Rattle.clone_core.specs.System.{ready_at};

use crate::World;
use crate::world::Course;
use clone_answers::end_text;
use clone_chunk::CopyStage;
use clone_fetch::TaskAnswer;
use clone_network::DonorStep;
use clone_outside::PageDisk;
use clone_serve::ServeAnswer;
use std::alloc::{AllocError, Global};

/// Who did something in a round.
#[derive(Clone, Copy, Debug, PartialEq, Eq)]
pub enum Round {
    /// Nobody did.
    Idle,
    /// The donor, on one connection at least, and no task.
    Donor,
    /// A task, at least.
    Tasks,
}

/// How rounds came to their end.
#[derive(Clone, Copy, Debug, PartialEq, Eq)]
pub enum Came {
    /// No clone goes on.
    Still,
    /// The first task would acknowledge this stage next.
    Ready {
        /// Which.
        stage: CopyStage,
    },
    /// Nothing can be done any more.
    Stuck,
}

impl<D: PageDisk, R: PageDisk> World<D, R> {
    // Rounds until the stage is to be acknowledged, or the clone has ended.
    pub(crate) fn advance_line(&mut self, alloc: Global) -> Result<String, AllocError>
        ensures ok { IfOk result (λ text. Answers self.old lines.Advance (string_bytes text)
            self.new) }
        ensures err { OnErr result (BreaksOff self.old lines.Advance self.new) }
    {
        let came = self.rounds(alloc, true)?;
        self.came_text(alloc, came)
    }

    // Rounds until the clone has ended.
    pub(crate) fn finish_line(&mut self, alloc: Global) -> Result<String, AllocError>
        ensures ok { IfOk result (λ text. Answers self.old lines.Finish (string_bytes text)
            self.new) }
        ensures err { OnErr result (BreaksOff self.old lines.Finish self.new) }
    {
        let came = self.rounds(alloc, false)?;
        self.came_text(alloc, came)
    }

    // A clone begins, unless one began before, and is brought to its end.
    pub(crate) fn clone_line(&mut self, alloc: Global) -> Result<String, AllocError>
        ensures ok { IfOk result (λ text. Answers self.old lines.Clone (string_bytes text)
            self.new) }
        ensures err { OnErr result (BreaksOff self.old lines.Clone self.new) }
    {
        self.start(alloc)?;
        let came = self.rounds(alloc, false)?;
        self.came_text(alloc, came)
    }

    // What is told where rounds have come to their end so.
    fn came_text(&self, alloc: Global, came: Came) -> Result<String, AllocError>
        ensures { IfOk result (λ text. string_bytes text
            ≡ came_answer came self.now.clone.progress) }
    {
        match came {
            Came::Stuck => String::from_str(alloc, "stuck"),
            Came::Ready { stage } => {
                let stage = stage.number();
                format!(in alloc; "ready {stage}")
            }
            Came::Still => self.still_text(alloc),
        }
    }

    // How a clone stands that doesn't go on.
    fn still_text(&self, alloc: Global) -> Result<String, AllocError>
        ensures { IfOk result (λ text. string_bytes text ≡ still_answer self.now.clone.progress) }
    {
        match &self.course {
            Course::Absent => String::from_str(alloc, "idle"),
            Course::Unbegun => String::from_str(alloc, "recipient disk fault"),
            Course::Begun(copying) => match copying.reception.table().ended() {
                Some(end) => end_text(alloc, end),
                None => String::from_str(alloc, "idle"),
            },
        }
    }

    // Rounds, until they come to their end.
    fn rounds(&mut self, alloc: Global, stops_when_ready: bool) -> Result<Came, AllocError>
        ensures made { OnOk result (Makes (AreRounds self.old.tasks) self.old self.new) }
        ensures came { IfOk result (λ came. CameTo stops_when_ready came self.new) }
        ensures err { OnErr result (EndsUntold (AreRounds self.old.tasks) self.old self.new) }
    {
        while self.course.goes_on() {
            if let Some(came) = self.rounds_of_donor(alloc, stops_when_ready)? {
                return Ok(came);
            }
        }
        Ok(Came::Still)
    }

    // Rounds until one in which a task does something, or until they come to their end.
    fn rounds_of_donor(
        &mut self,
        alloc: Global,
        stops_when_ready: bool,
    ) -> Result<Option<Came>, AllocError>
        ensures made { OnOk result (Makes (AreRounds self.old.tasks) self.old self.new) }
        ensures came { IfOk result (λ came. IfSome came
            (λ how. CameTo stops_when_ready how self.new)) }
        ensures left { IfOk result (λ came. IfNone came
            (tasks_left self.new < tasks_left self.old)) }
        ensures err { OnErr result (EndsUntold (AreRounds self.old.tasks) self.old self.new) }
    {
        loop {
            let round = self.round(alloc)?;
            if let Some(came) = self.comes_to(round, stops_when_ready) {
                self.never_sticks();
                return Ok(Some(came));
            }
            if let Round::Tasks = round {
                return Ok(None);
            }
        }
    }

    // Somebody has something to do while a clone goes on.
    fn never_sticks(&self)
        ensures { NeverSticks self.now }
    {
        self.donor.laws();
    }

    // How rounds come to their end by this one, if they do.
    fn comes_to(&self, round: Round, stops_when_ready: bool) -> Option<Came>
        ensures some { IfSome result (λ how. ComesBy round stops_when_ready how self.now) }
        ensures none { result ≡ None → GoesOnFrom round stops_when_ready self.now }
    {
        if !self.course.goes_on() {
            return Some(Came::Still);
        }
        match self.ready() {
            Some(stage) if stops_when_ready => Some(Came::Ready { stage }),
            _ if round == Round::Idle => Some(Came::Stuck),
            _ => None,
        }
    }

    // The stage that the first task would acknowledge by its next step.
    fn ready(&self) -> Option<CopyStage>
        ensures { result ≡ ready_at self.now.donor.course }
    {
        match &self.course {
            Course::Begun(copying) => copying.network.ready(&copying.reception),
            Course::Absent | Course::Unbegun => None,
        }
    }

    // One round.
    fn round(&mut self, alloc: Global) -> Result<Round, AllocError>
        ensures made { OnOk result (Makes (IsRound self.old.tasks) self.old self.new) }
        ensures left { IfOk result (λ round. RoundLeaves round self.old self.new) }
        ensures idles { IfOk result (λ round. RoundIdles round self.old self.new) }
        ensures err { OnErr result (EndsUntold (IsRound self.old.tasks) self.old self.new) }
    {
        let by_tasks = self.round_of_tasks(alloc)?;
        let by_donor = self.round_of_donor(alloc)?;
        if by_tasks {
            return Ok(Round::Tasks);
        }
        if by_donor {
            return Ok(Round::Donor);
        }
        Ok(Round::Idle)
    }

    // A step of each task, and whether one did something.
    fn round_of_tasks(&mut self, alloc: Global) -> Result<bool, AllocError>
        ensures made { OnOk result (Makes (AreOfTasks 0 self.old.tasks) self.old self.new) }
        ensures left { IfOk result (λ moved. TasksLeave (not moved) self.old self.new) }
        ensures idle { IfOk result (λ moved. TasksIdle (not moved) (tasks_of self.old.donor.course)
            self.old self.new) }
        ensures err { OnErr result (EndsUntold (AreOfTasks 0 self.old.tasks) self.old self.new) }
    {
        let mut has_moved = false;
        for task in 0..self.terms.tasks {
            let answer = self.task(alloc, task)?;
            has_moved |= !is_quiet(&answer);
        }
        Ok(has_moved)
    }

    // A step of the donor on each connection that is open, and whether it did something.
    fn round_of_donor(&mut self, alloc: Global) -> Result<bool, AllocError>
        ensures made { OnOk result (Makes (AreOfDonor 0) self.old self.new) }
        ensures left { IfOk result (λ moved. DonorLeaves (not moved) self.old self.new) }
        ensures idle { IfOk result (λ moved. EndsIdle (not moved) None self.old self.new) }
        ensures err { OnErr result (EndsUntold (AreOfDonor 0) self.old self.new) }
    {
        let mut has_moved = false;
        let mut next = self.next_open(0);
        while let Some(connection) = next {
            let step = self.serve(alloc, connection)?;
            has_moved |= !is_idle(step);
            next = self.next_after(connection);
        }
        Ok(has_moved)
    }

    // The first connection behind this one that is open at the donor's end.
    fn next_after(&self, connection: u32) -> Option<u32>
        ensures behind { IfSome result (λ number. connection + 1 ≤ number) }
        ensures range { IfSome result (λ number. number < 2 ^ 32) }
        ensures between { AreClosed (connection + 1) result self.now.donor.course }
    {
        let _ = &self.course;
        match connection.checked_add(1) {
            Some(from) => self.next_open(from),
            None => None,
        }
    }

    // The first connection from this number on that is open at the donor's end.
    fn next_open(&self, from: u32) -> Option<u32>
        ensures from { IfSome result (λ number. from ≤ number) }
        ensures range { IfSome result (λ number. number < 2 ^ 32) }
        ensures between { AreClosed from result self.now.donor.course }
    {
        match &self.course {
            Course::Begun(copying) => copying
                .network
                .next_open(from)
                .and_then(|number| u32::try_from(number).ok()),
            Course::Absent | Course::Unbegun => None,
        }
    }
}

// Whether the task had nothing to do.
fn is_quiet(answer: &TaskAnswer) -> bool
    ensures { result ≡ is_quiet answer.now }
{
    matches!(answer, TaskAnswer::Idle | TaskAnswer::Stale)
}

// Whether the donor had.
fn is_idle(step: DonorStep) -> bool
    ensures { result ≡ is_idle step }
{
    matches!(step, DonorStep::Served(ServeAnswer::Idle))
}
