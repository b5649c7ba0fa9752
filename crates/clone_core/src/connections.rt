//! What is asked of the connections of a clone's tasks.
ghost use Rattle.std.specs.Prelude.{◌≡◌, IfOk, OnErr, codes, if◌then◌else◌};
ghost use Rattle.std.specs.String.{string_bytes};
ghost use Rattle.clone_script.specs.declared.lines.Line.TheVariants as lines;
ghost use Rattle.clone_answers.specs.StepTexts.{step_text, task_text};
ghost use Rattle.clone_fetch.specs.declared.answer.TaskAnswer.TheVariants as task;
ghost use Rattle.clone_network.specs.declared.donor_step.DonorStep.TheVariants as step;
ghost use Rattle.clone_serve.specs.declared.turn.ServeAnswer.TheVariants as served;
ghost use Rattle.clone_core.specs.Lines.{Answers, BreaksOff};
ghost use Rattle.clone_core.specs.CloneEvents.{Acts, ActsUntold, ended_at_last};
ghost use Rattle.clone_core.specs.Idling.{EndIdles, TaskIdles};
ghost use Rattle.clone_core.specs.Left.{DonorLeaves, TasksLeave, is_idle, is_quiet};

use crate::World;
use crate::strangers::is_starved;
use crate::world::{Copying, Course, first_stop};
use clone_answers::{step_text, task_text};
use clone_fetch::TaskAnswer;
use clone_network::DonorStep;
use clone_outside::PageDisk;
use clone_recipient::Reception;
use clone_serve::ServeAnswer;
use clone_tasks::CloneEnd;
use std::alloc::{AllocError, Global};

impl<D: PageDisk, R: PageDisk> World<D, R> {
    // A step of a task.
    pub(crate) fn task_line(&mut self, alloc: Global, task: u8) -> Result<String, AllocError>
        ensures ok { IfOk result (λ text. Answers self.old (lines.Task task) (string_bytes text)
            self.new) }
        ensures err { OnErr result (BreaksOff self.old (lines.Task task) self.new) }
    {
        let answer = self.task(alloc, task)?;
        task_text(alloc, &answer)
    }

    // A step of a task. Where memory runs out in it, that ends the clone.
    pub(crate) fn task(&mut self, alloc: Global, task: u8) -> Result<TaskAnswer, AllocError>
        ensures acts { IfOk result (λ says. Acts (lines.Task task) self.old (task_text says)
            self.new) }
        ensures left { IfOk result (λ says. TasksLeave (is_quiet says) self.old self.new) }
        ensures idles { IfOk result (λ says. TaskIdles (is_quiet says) task self.old self.new) }
        ensures err { OnErr result (ActsUntold (lines.Task task) self.old self.new) }
    {
        if let Course::Begun(copying) = &mut self.course {
            let Copying { reception, network } = copying;
            reception.laws();
            let answer = network.step_task(
                alloc,
                reception,
                &mut self.recipient,
                task,
                self.looked,
            );
            reception.laws();
            if let TaskAnswer::NoMemory = answer {
                end_running(reception);
                return Err(AllocError);
            }
            return Ok(answer);
        }
        Ok(TaskAnswer::Idle)
    }

    // A step of the donor on a connection.
    pub(crate) fn serve_line(
        &mut self,
        alloc: Global,
        connection: u32,
    ) -> Result<String, AllocError>
        ensures ok { IfOk result (λ text. Answers self.old (lines.Serve connection)
            (string_bytes text) self.new) }
        ensures err { OnErr result (BreaksOff self.old (lines.Serve connection) self.new) }
    {
        let answer = self.serve(alloc, connection)?;
        step_text(alloc, &answer)
    }

    // A step of the donor on a connection. Where memory runs out in it, that ends the clone.
    pub(crate) fn serve(&mut self, alloc: Global, connection: u32) -> Result<DonorStep, AllocError>
        ensures acts { IfOk result (λ says. Acts (lines.Serve connection) self.old (step_text says)
            self.new) }
        ensures left { IfOk result (λ says. DonorLeaves (is_idle says) self.old self.new) }
        ensures idles { IfOk result (λ says. EndIdles (is_idle says) connection self.old
            self.new) }
        ensures err { OnErr result (ActsUntold (lines.Serve connection) self.old self.new) }
    {
        if let Course::Begun(copying) = &mut self.course {
            let Copying { reception, network } = copying;
            self.donor.laws();
            let answer = network.step_donor(alloc, &mut self.donor, connection);
            self.donor.laws();
            self.stop = first_stop(self.stop, self.donor.stop());
            if is_starved(&answer) {
                end_running(reception);
                return Err(AllocError);
            }
            return Ok(answer);
        }
        Ok(DonorStep::Served(ServeAnswer::Idle))
    }

    // A connection is cut.
    pub(crate) fn cut_line(
        &mut self,
        alloc: Global,
        connection: u32,
        to_donor: u32,
        to_task: u32,
    ) -> Result<String, AllocError>
        ensures ok { IfOk result (λ text. Answers self.old (lines.Cut connection to_donor to_task)
            (string_bytes text) self.new) }
        ensures err { OnErr result (BreaksOff self.old (lines.Cut connection to_donor to_task)
            self.new) }
    {
        if !self.cut(connection, to_donor, to_task) {
            return String::from_str(alloc, "idle");
        }
        String::from_str(alloc, "cut")
    }

    // A connection is cut, if its task has it still.
    fn cut(&mut self, connection: u32, to_donor: u32, to_task: u32) -> bool
        ensures { Acts (lines.Cut connection to_donor to_task) self.old
            (if result then codes "cut" else codes "idle") self.new }
    {
        if let Course::Begun(copying) = &mut self.course {
            return copying.network.cut(connection, to_donor, to_task);
        }
        false
    }

    // Bytes come to a task that the donor didn't send.
    pub(crate) fn feed_line(
        &mut self,
        alloc: Global,
        connection: u32,
        bytes: &[u8],
    ) -> Result<String, AllocError>
        ensures ok { IfOk result (λ text. Answers self.old (lines.Feed connection bytes.now)
            (string_bytes text) self.new) }
        ensures err { OnErr result (BreaksOff self.old (lines.Feed connection bytes.now)
            self.new) }
    {
        if !self.feed(connection, bytes)? {
            return String::from_str(alloc, "idle");
        }
        String::from_str(alloc, "noted")
    }

    // Bytes come to a task that the donor didn't send, if it has the connection still. The error is
    // out of memory, and none has come.
    fn feed(&mut self, connection: u32, bytes: &[u8]) -> Result<bool, AllocError>
        ensures acts { IfOk result (λ is_fed. Acts (lines.Feed connection bytes.now) self.old
            (if is_fed then codes "noted" else codes "idle") self.new) }
        ensures err { OnErr result (self.new ≡ self.old) }
    {
        if let Course::Begun(copying) = &mut self.course {
            let goes_on = copying.reception.table().is_running();
            let is_fed = copying.network.feed(connection, bytes)?;
            self.is_disturbed |= is_fed & goes_on;
            return Ok(is_fed);
        }
        Ok(false)
    }
}

// A clone that goes on ends, as by a fault of the recipient's disk.
fn end_running(reception: &mut Reception)
    ensures { reception.new ≡ ended_at_last reception.old }
{
    if reception.table().is_running() {
        reception.end(CloneEnd::DiskFault);
    }
}
