//! What the lines of a follower do, which takes the commits that the donor makes after a clone.
ghost use Rattle.std.specs.Prelude.{◌≡◌, Err, IfOk, None, OnOk, OnErr};
ghost use Rattle.std.specs.String.{string_bytes};
ghost use Rattle.clone_script.specs.declared.lines.Line.TheVariants as lines;
ghost use Rattle.clone_follow.specs.declared.follower.FollowRefusal.TheVariants as refuses;
ghost use Rattle.clone_events.specs.Events.{IsAt, took_text};
ghost use Rattle.clone_events.specs.Runs.{IsExchange};
ghost use Rattle.clone_events.specs.World.{complete, over};
ghost use Rattle.clone_core.specs.CloneEvents.{EndsUntold};
ghost use Rattle.clone_core.specs.Following.{ExchangesIn, OpensIn};
ghost use Rattle.clone_core.specs.Lines.{Answers, BreaksOff};

use crate::World;
use crate::replica::Took;
use crate::texts::recipient_fault;
use crate::world::Course;
use clone_dump::{damage_text, rows_shown};
use clone_follow::{FollowRefusal, FollowTook, answer};
use clone_model::Value;
use clone_outside::PageDisk;
use clone_recover::RecoverRefusal;
use clone_tasks::CloneEnd;
use std::alloc::{AllocError, Global};

impl<D: PageDisk, R: PageDisk> World<D, R> {
    // The follower asks for the next commit, once a clone is complete. It begins with the clone's
    // rows.
    pub(crate) fn follow_line(&mut self, alloc: Global) -> Result<String, AllocError>
        ensures ok { IfOk result (λ text. Answers self.old lines.Follow (string_bytes text)
            self.new) }
        ensures err { OnErr result (BreaksOff self.old lines.Follow self.new) }
    {
        let Some(position) = self.course.complete_at() else {
            return String::from_str(alloc, "idle");
        };
        match self.replica.position() {
            Some(want) => self.exchange(alloc, want),
            None => self.first_follow(alloc, position),
        }
    }

    // A follower begins with the clone's rows, and asks for the next commit.
    fn first_follow(&mut self, alloc: Global, position: u64) -> Result<String, AllocError>
        requires complete { self.old.clone.progress ≡ over (complete position) }
        requires first { self.old.clone.replica.follower ≡ None }
        ensures ok { IfOk result (λ text. Answers self.old lines.Follow (string_bytes text)
            self.new) }
        ensures err { OnErr result (BreaksOff self.old lines.Follow self.new) }
    {
        match self.read_rows(alloc) {
            Ok(rows) => {
                self.open_follower(alloc, &rows, position)?;
                self.exchange(alloc, position)
            }
            Err(RecoverRefusal::Incomplete) => String::from_str(alloc, "incomplete"),
            Err(RecoverRefusal::Damaged { space, page, why }) => {
                damage_text(alloc, space, page, why)
            }
            Err(RecoverRefusal::DiskFault) => recipient_fault(alloc),
            Err(RecoverRefusal::NoMemory) => Err(AllocError),
        }
    }

    // A follower begins with these rows.
    fn open_follower(
        &mut self,
        alloc: Global,
        rows: &[(u32, u64, Value)],
        position: u64,
    ) -> Result<(), AllocError>
        ensures ok { OnOk result (OpensIn self.old rows.now position self.new) }
        ensures err { OnErr result (self.new ≡ self.old) }
    {
        self.replica.open(alloc, rows, position)
    }

    // The donor answers the follower, which is at this position, and the answer comes to it or is
    // lost.
    fn exchange(&mut self, alloc: Global, want: u64) -> Result<String, AllocError>
        requires at { IsAt self.old.clone.replica want }
        ensures ok { IfOk result (λ text. ExchangesIn self.old (string_bytes text) self.new) }
        ensures err { OnErr result (EndsUntold IsExchange self.old self.new) }
    {
        let frame = answer(alloc, self.donor.binlog().as_slice(), want)?;
        match self.replica.exchange(frame)? {
            Some(took) => took_text(alloc, took),
            None => format!(in alloc; "lost {want}"),
        }
    }

    // The next answer is to be lost.
    pub(crate) fn lose_line(&mut self, alloc: Global) -> Result<String, AllocError>
        ensures ok { IfOk result (λ text. Answers self.old lines.Lose (string_bytes text)
            self.new) }
        ensures err { OnErr result (BreaksOff self.old lines.Lose self.new) }
    {
        let text = String::from_str(alloc, "noted")?;
        self.replica.set_to_lose();
        Ok(text)
    }

    // A commit that was sent comes again.
    pub(crate) fn repeat_line(&mut self, alloc: Global, number: u64) -> Result<String, AllocError>
        ensures ok { IfOk result (λ text. Answers self.old (lines.Repeat number)
            (string_bytes text) self.new) }
        ensures err { OnErr result (BreaksOff self.old (lines.Repeat number) self.new) }
    {
        match self.replica.repeat(number)? {
            Some(took) => took_text(alloc, took),
            None => String::from_str(alloc, "idle"),
        }
    }

    // The rows of the follower.
    pub(crate) fn replica_line(&mut self, alloc: Global) -> Result<String, AllocError>
        ensures ok { IfOk result (λ text. Answers self.old lines.Replica (string_bytes text)
            self.new) }
        ensures err { OnErr result (BreaksOff self.old lines.Replica self.new) }
    {
        match self.replica.rows(alloc)? {
            Some(rows) => rows_shown(alloc, &rows),
            None => String::from_str(alloc, "idle"),
        }
    }
}

// What a line answers of it.
fn took_text(alloc: Global, took: Took) -> Result<String, AllocError>
    ensures { IfOk result (λ text. string_bytes text ≡ took_text took) }
{
    match took {
        Ok(FollowTook::Applied { position }) => format!(in alloc; "applied {position}"),
        Ok(FollowTook::Ignored { position }) => format!(in alloc; "ignored {position}"),
        Ok(FollowTook::Current { position }) => format!(in alloc; "current {position}"),
        Err(FollowRefusal::Ahead { have, got }) => ahead_text(alloc, have, got),
        Err(FollowRefusal::Behind { have, got }) => behind_text(alloc, have, got),
        Err(FollowRefusal::Unexpected) => String::from_str(alloc, "refused F3"),
        Err(FollowRefusal::NoMemory) => Ok(String::new(alloc)),
    }
}

// The commit, or the donor's last one, is more than one ahead.
fn ahead_text(alloc: Global, have: u64, got: u64) -> Result<String, AllocError>
    ensures { IfOk result (λ text. string_bytes text ≡ took_text (Err (refuses.Ahead have got))) }
{
    format!(in alloc; "refused F1 {have} {got}")
}

// The donor has fewer commits than the follower.
fn behind_text(alloc: Global, have: u64, got: u64) -> Result<String, AllocError>
    ensures { IfOk result (λ text. string_bytes text ≡ took_text (Err (refuses.Behind have got))) }
{
    format!(in alloc; "refused F2 {have} {got}")
}
