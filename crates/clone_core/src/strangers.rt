//! What others than the clone's tasks do: a stranger that sends bytes to the donor, and an operator
//! who makes the donor give its session up; and the status, which an operator asks for.
ghost use Rattle.std.specs.Prelude.{◌≡◌, ◌≢◌, ◌<◌, ◌&&◌, ◌||◌, ◌++◌, IfOk, OnErr, codes, false, not, true};
ghost use Rattle.std.specs.Prelude.{if◌then◌else◌};
ghost use Rattle.std.specs.String.{string_bytes};
ghost use Rattle.clone_script.specs.declared.lines.Line.TheVariants as lines;
ghost use Rattle.clone_answers.specs.StepTexts as texts;
ghost use Rattle.clone_progress.specs.Texts as shown;
ghost use Rattle.clone_network.specs.Connections.{given_up, is_open, opened};
ghost use Rattle.clone_core.specs.declared.world.TheConstants.{SESSION};
ghost use Rattle.clone_network.specs.Connections as network;
ghost use Rattle.clone_network.specs.declared.donor_step.DonorStep.TheVariants.{Served};
ghost use Rattle.clone_serve.specs.declared.turn.ServeAnswer.TheVariants.{NoMemory};
ghost use Rattle.clone_ending.specs.Service.{end_work};
ghost use Rattle.clone_joined.specs.Runs.{stands};
ghost use Rattle.clone_joined.specs.Strangers as strangers;
ghost use Rattle.clone_core.specs.Acting as progress;
ghost use Rattle.clone_core.specs.Copied.{progress_of};
ghost use Rattle.clone_core.specs.Ending.{is_over};
ghost use Rattle.clone_core.specs.CloneEvents.{is_starved, ServesAll, ServesNoClone, ServesSome};
ghost use Rattle.clone_core.specs.CloneEvents.{StepsStranger};
ghost use Rattle.clone_core.specs.System.{has_ended};
ghost use Rattle.clone_core.specs.Acting.{is_crowded};
ghost use Rattle.clone_paired.specs.Strangers.{IsBetween};
ghost use Rattle.clone_core.specs.Lines.{Answers, BreaksOff};

use crate::World;
use crate::world::{Course, SESSION, first_stop};
use clone_answers::step_text;
use clone_chunk::CloneCause;
use clone_donor::Donor;
use clone_network::{Connection, DonorStep};
use clone_outside::PageDisk;
use clone_progress::{CloneStatus, Copied, Progress, progress_text};
use clone_serve::ServeAnswer;
use std::alloc::{AllocError, Global};

// The code of ATTACH, the one command by which nobody acts in a session.
const ATTACH: u8 = 2;

impl<D: PageDisk, R: PageDisk> World<D, R> {
    // A stranger sends bytes to the donor, and leaves.
    pub(crate) fn raw_line(&mut self, alloc: Global, bytes: &[u8]) -> Result<String, AllocError>
        ensures ok { IfOk result (λ text. Answers self.old (lines.Raw bytes.now)
            (string_bytes text) self.new) }
        ensures err { OnErr result (BreaksOff self.old (lines.Raw bytes.now) self.new) }
    {
        let how = self.raw(alloc, bytes)?;
        end_text(alloc, &how)
    }

    // A stranger's connection is served until its loop ends, and that is how.
    fn raw(&mut self, alloc: Global, bytes: &[u8]) -> Result<DonorStep, AllocError>
        ensures ok { IfOk result (λ how. ServesAll self.old (given_up (opened bytes.now)) self.new
            how) }
        ensures err { OnErr result (ServesSome self.old self.new) }
    {
        let sent = Vec::from_slice(alloc, bytes)?;
        let mut connection = Connection::unread(alloc, sent);
        loop {
            let how = self.stranger(alloc, &mut connection)?;
            if !connection.is_open() {
                return Ok(how);
            }
        }
    }

    // One step of the donor on a stranger's connection. Where memory runs out in it, nobody knows
    // whether a command was carried out.
    fn stranger(
        &mut self,
        alloc: Global,
        connection: &mut Connection,
    ) -> Result<DonorStep, AllocError>
        requires open { is_open connection.old ≡ true }
        requires left { connection.old.held ≡ false }
        requires between { IsBetween connection.old.doing }
        requires other { ServesNoClone self.old connection.old }
        ensures left { connection.new.held ≡ false }
        ensures between { is_open connection.new ≡ true → IsBetween connection.new.doing }
        ensures other { ServesNoClone self.new connection.new }
        ensures less { is_open connection.new ≡ true
            → end_work self.new.donor.donor connection.new
            < end_work self.old.donor.donor connection.old }
        ensures ok { IfOk result (λ how. StepsStranger self.old connection.old self.new
            connection.new how) }
        ensures err { OnErr result (ServesSome self.old self.new) }
    {
        self.donor.laws();
        let stood = has_session(&self.donor);
        let attaches = attaches(connection);
        let how = connection.step(alloc, &mut self.donor);
        self.donor.laws();
        self.stop = first_stop(self.stop, self.donor.stop());
        let has_acted = has_acted(&how, attaches, stood, has_session(&self.donor));
        self.is_disturbed = disturbed(self.is_disturbed, has_acted, &self.course);
        self.is_alone = alone(self.is_alone, &self.donor, &self.course);
        if is_starved(&how) {
            return Err(AllocError);
        }
        Ok(how)
    }

    // The donor gives its session up.
    pub(crate) fn abandon_line(&mut self, alloc: Global) -> Result<String, AllocError>
        ensures ok { IfOk result (λ text. Answers self.old lines.Abandon (string_bytes text)
            self.new) }
        ensures err { OnErr result (BreaksOff self.old lines.Abandon self.new) }
    {
        let Some(session) = self.donor.session() else {
            let cause = CloneCause::NoSuchSession;
            return format!(in alloc; "{cause}");
        };
        let text = String::from_str(alloc, "abandoned")?;
        match self.donor.abandon(session) {
            Ok(()) => {}
            Err(_) => unreachable!(),
        }
        self.stop = first_stop(self.stop, self.donor.stop());
        self.is_disturbed = disturbed(self.is_disturbed, session == SESSION, &self.course);
        Ok(text)
    }

    // How far the clone is.
    pub(crate) fn status_line(&self, alloc: Global) -> Result<String, AllocError>
        ensures ok { IfOk result (λ text. Answers self.now lines.Status (string_bytes text)
            self.now) }
        ensures err { OnErr result (BreaksOff self.now lines.Status self.now) }
    {
        let mut text = course_text(alloc, &self.course)?;
        let _ = text.pop();
        Ok(text)
    }
}

// How a stranger's connection ended.
fn end_text(alloc: Global, how: &DonorStep) -> Result<String, AllocError>
    ensures { IfOk result (λ text. string_bytes text ≡ codes "end " ++ texts.step_text how.now) }
{
    let mut text = String::from_str(alloc, "end ")?;
    let end = step_text(alloc, how)?;
    text.push_str(end.as_str())?;
    Ok(text)
}

// How far a clone is, each of its stages on a line.
fn course_text(alloc: Global, course: &Course) -> Result<String, AllocError>
    ensures { IfOk result (λ text. string_bytes text
        ≡ shown.progress_text (progress.course_progress course.now)) }
{
    match course {
        Course::Begun(copying) => copying.reception.progress_text(alloc),
        Course::Absent => progress_text(alloc, &nothing_copied(CloneStatus::NotStarted)),
        Course::Unbegun => progress_text(alloc, &nothing_copied(CloneStatus::Failed)),
    }
}

// Whether the clone's session stands at the donor.
fn has_session<D: PageDisk>(donor: &Donor<D>) -> bool
    ensures { result ≡ stands SESSION donor.now }
{
    donor.session() == Some(SESSION)
}

// A clone of which nothing is copied.
fn nothing_copied(status: CloneStatus) -> Progress
    ensures { result ≡ progress.nothing_copied status }
{
    Progress {
        status,
        copied: Copied::Nothing,
        synced: false,
        recovered: false,
    }
}

// Whether what the donor reads next on a connection is an ATTACH.
fn attaches(connection: &Connection) -> bool
    ensures { result ≡ strangers.attaches connection.now }
{
    connection.first_code() == Some(ATTACH)
}

// Whether somebody acted in the clone's session by a step of a stranger's connection: a command was
// carried out that isn't ATTACH, before or after which the session stands. Where there was no
// memory somebody may have.
fn has_acted(how: &DonorStep, attaches: bool, stood: bool, stays: bool) -> bool
    ensures says { (at : network.Connection) → attaches ≡ strangers.attaches at
        → how.now ≢ Served NoMemory
        → result ≡ (strangers.carries_out at how.now && (stood || stays)) }
    ensures memory { how.now ≡ Served NoMemory → result ≡ true }
{
    match how {
        DonorStep::Served(ServeAnswer::Answered { .. }) => !attaches && (stood || stays),
        DonorStep::Served(ServeAnswer::Execute | ServeAnswer::Exit) => stood || stays,
        DonorStep::Served(ServeAnswer::NoMemory) => true,
        _ => false,
    }
}

// Whether a clone is disturbed where somebody may have acted now. In one that has ended nobody acts.
fn disturbed(was: bool, acts: bool, course: &Course) -> bool
    ensures { result ≡ (if acts && not (is_over (progress_of course.now)) then true else was) }
{
    if acts && !course.has_ended() {
        return true;
    }
    was
}

// Whether the donor is alone with a clone, where a stranger's session may stand now. With one that
// has ended it stays so.
fn alone<D: PageDisk>(was: bool, donor: &Donor<D>, course: &Course) -> bool
    ensures { result
        ≡ (if is_crowded donor.now && not (has_ended course.now) then false else was) }
{
    if is_crowded(donor) && !course.has_ended() {
        return false;
    }
    was
}

// Whether a session of another number than the clone's stands at the donor.
fn is_crowded<D: PageDisk>(donor: &Donor<D>) -> bool
    ensures { result ≡ is_crowded donor.now }
{
    donor.session().is_some_and(|number| number != SESSION)
}

// Whether there was no memory for a step.
pub(crate) fn is_starved(how: &DonorStep) -> bool
    ensures { result ≡ is_starved how.now }
{
    matches!(how, DonorStep::Served(ServeAnswer::NoMemory))
}
