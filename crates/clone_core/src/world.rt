//! The world between two lines of a script. The first stop of the clone's session is kept, and both
//! it and what was looked up are within the donor's history. Until a clone is begun the recipient's
//! disk is blank, and while it goes on that disk says so. Where nobody but its tasks had a hand in
//! it, donor, recipient and all that is on its way between them are joined while the clone goes on,
//! and what the recipient's disk holds once it has ended is known, where that is told. The two talk
//! as they should then, whatever other sessions the donor has.
ghost use Rattle.std.specs.Prelude.{◌≡◌, ◌^◌, ◌-◌, ◌≤◌, IfOk, None, OnErr, option_map, is_some};
ghost use Rattle.std.specs.String.{string_bytes};
ghost use Rattle.clone_outside.specs.Disk.{ForTold, blank};
ghost use Rattle.clone_outside.specs.declared.disk.DiskOrder.TheVariants as order;
ghost use Rattle.clone_model.specs.declared.config.Config.{Config};
ghost use Rattle.clone_script.specs.Given.{IsTerms};
ghost use Rattle.clone_events.specs.World.{IsWithin};
ghost use Rattle.clone_plain.specs.Donor.{no_donor};
ghost use Rattle.clone_engine.specs.Donor.{IsDonor};
ghost use Rattle.clone_engine.specs.Opened.{IsOpened};
ghost use Rattle.clone_engine.specs.Taken.{IsTaken, nothing};
ghost use Rattle.clone_core.specs.System.{donor_of, has_ended};
ghost use Rattle.clone_core.specs.Lines.{Answers, BreaksOff, IsNew};
ghost use Rattle.clone_core.specs.Acting.{stop_of};
ghost use Rattle.clone_sides.specs.Moment.{own_stop};
ghost use Rattle.std.specs.Option.{option_or};
ghost use Rattle.clone_core.specs.declared.world.TheConstants.{SESSION};
ghost use Rattle.clone_core.specs.Copied.{KeepsClone, progress_of};
ghost use Rattle.clone_core.specs.Ending.{complete_in, ending_of, is_copying, is_over, rows_ending};

use crate::begun::Begun;
use crate::replica::Replica;
use clone_donor::Donor;
use clone_joined::joined_laws;
use clone_model::{Binlog, Drops};
use clone_network::Network;
use clone_outside::{DiskOrder, PageDisk};
use clone_recipient::Reception;
use clone_script::{Line, Terms};
use clone_session::Stop;
use clone_tasks::CloneEnd;
use std::alloc::{AllocError, Global};
use std::marker::Model;

/// The number of the clone's session.
pub const SESSION: u64 = 1;

/// A clone that was begun.
#[derive(Drop)]
pub struct Copying {
    /// What the recipient knows of it.
    pub(crate) reception: Reception,
    /// The connections of its tasks.
    pub(crate) network: Network,
}

/// How far a clone has come.
#[derive(Drop)]
pub enum Course {
    /// It wasn't begun.
    Absent,
    /// The recipient's disk failed as it was begun.
    Unbegun,
    /// It was begun.
    Begun(Copying),
}

impl Course {
    // Whether a clone goes on.
    pub(crate) fn goes_on(&self) -> bool
        ensures { result ≡ is_copying (progress_of self.now) }
    {
        match self {
            Course::Begun(copying) => copying.reception.table().is_running(),
            Course::Absent | Course::Unbegun => false,
        }
    }

    // Whether a clone has ended.
    pub(crate) fn has_ended(&self) -> bool
        ensures over { result ≡ is_over (progress_of self.now) }
        ensures ended { result ≡ has_ended self.now }
    {
        match self {
            Course::Begun(copying) => !copying.reception.table().is_running(),
            Course::Unbegun => true,
            Course::Absent => false,
        }
    }

    // The position at which a clone is complete, if it is.
    pub(crate) fn complete_at(&self) -> Option<u64>
        ensures { result ≡ complete_in (progress_of self.now) }
    {
        let Course::Begun(copying) = self else {
            return None;
        };
        match copying.reception.table().ended() {
            Some(CloneEnd::Complete { position, .. }) => Some(*position),
            _ => None,
        }
    }
}

// The first stop of the clone's session: the one that was kept, or else the donor's last, if it is
// of that session.
pub(crate) fn first_stop(kept: Option<Stop>, last: Option<Stop>) -> Option<Stop>
    ensures { result ≡ option_or kept (own_stop SESSION last) }
{
    match (kept, last) {
        (None, Some(stop)) if stop.session == SESSION => Some(stop),
        _ => kept,
    }
}

/// How a clone ended, as far as a run tells by its status.
#[derive(Clone, Copy, Debug, PartialEq, Eq)]
pub enum Ending {
    /// No fault ended it, or came in the way of its rows.
    Well,
    /// A fault of the recipient's disk did.
    RecipientFault,
    /// There were more losses than the limit.
    RestartsSpent,
    /// The recipient got bytes that are no frame, or out of turn.
    Garbled,
    /// The donor refused.
    Refused,
}

/// A donor, the disk of a recipient, how many transactions each writer has begun, the clone that is
/// taken of the donor, with its stop once it has come to that, and what follows it.
pub struct World<D: PageDisk, R: PageDisk> {
    pub(crate) donor: Donor<D>,
    pub(crate) recipient: R,
    pub(crate) terms: Terms,
    pub(crate) begun: Begun,
    pub(crate) course: Course,
    pub(crate) stop: Option<Stop>,
    pub(crate) looked: u64,
    pub(crate) is_disturbed: bool,
    pub(crate) is_alone: bool,
    pub(crate) is_doubted: bool,
    pub(crate) is_shown: bool,
    pub(crate) replica: Replica,
}

impl<D: PageDisk, R: PageDisk> Model for World<D, R> {
    ghost use Rattle.std.specs.Coded.{codes};
    ghost use Rattle.clone_track.specs.TrackedPages.{tracked_pages_code};
    ghost use Rattle.clone_engine.specs.Codes.{disk_code, engine_code};
    ghost use Rattle.clone_recipient.specs.Receptions.{sizes_code};
    ghost use Rattle.clone_core.specs.Codes.{begun_code};
    ghost use Rattle.clone_follow.specs.Following.{following_code};
    ghost use Rattle.clone_core.specs.Lines.{State};
    ghost use Rattle.clone_core.specs.Copied.{Holds, world_of};

    ghost Value = { State };

    ghost coded = { Prim.hlevel (
      codes,
      begun_code,
      disk_code,
      engine_code,
      tracked_pages_code,
      sizes_code,
      following_code,
    ) };

    ghost view = { λ w. world_of (record {
      donor = w.donor;
      recipient = R.state w.recipient;
      terms = w.terms;
      course = w.course;
      stop = w.stop;
      looked = w.looked;
      alone = w.is_alone;
      replica = w.replica;
    }) w.begun w.is_disturbed w.is_doubted w.is_shown };

    ghost invariant = { λ w. Holds (world_of (record {
      donor = w.donor;
      recipient = R.state w.recipient;
      terms = w.terms;
      course = w.course;
      stop = w.stop;
      looked = w.looked;
      alone = w.is_alone;
      replica = w.replica;
    }) w.begun w.is_disturbed w.is_doubted w.is_shown) };
}

impl<D: PageDisk, R: PageDisk> World<D, R> {
    /// A donor of which nothing was asked, and the empty disk of a recipient, with the terms on
    /// which a clone is taken.
    pub fn new(alloc: Global, donor: Donor<D>, recipient: R, terms: Terms) -> World<D, R>
        requires fresh { donor.engine.donor ≡ no_donor }
        requires taken { IsTaken donor nothing }
        requires idle { donor.cloning.session ≡ None }
        requires stop { donor.cloning.stop ≡ None }
        requires blank { ForTold (R.state recipient).told (λ m. m ≡ blank) }
        requires terms { IsTerms terms }
        ensures new { (config : Config) → IsOpened config donor.engine
            → IsNew config terms result }
        ensures donor { result.donor.donor ≡ donor }
        ensures recipient { result.donor.recipient ≡ R.state recipient }
    {
        joined_laws();
        donor.laws();
        World {
            donor,
            recipient,
            terms,
            begun: Begun::new(alloc),
            course: Course::Absent,
            stop: None,
            looked: 0,
            is_disturbed: false,
            is_alone: true,
            is_doubted: false,
            is_shown: false,
            replica: Replica::new(alloc),
        }
    }

    /// The commits in their order.
    pub fn binlog(&self) -> &Binlog
        ensures { result.now.commits ≡ (donor_of self.now.donor).binlog }
    {
        self.donor.binlog()
    }

    /// How the clone ended: well, unless it ended otherwise than complete, or a fault of the
    /// recipient's disk came in the way of its rows.
    pub fn ending(&self) -> Ending
        ensures { result ≡ ending_of self.now.clone }
    {
        match &self.course {
            Course::Absent => rows_ending(self.is_doubted),
            Course::Unbegun => Ending::RecipientFault,
            Course::Begun(copying) => match copying.reception.table().ended() {
                Some(CloneEnd::Spent { .. }) => Ending::RestartsSpent,
                Some(CloneEnd::Garbled { .. }) => Ending::Garbled,
                Some(CloneEnd::Refused { .. }) => Ending::Refused,
                Some(CloneEnd::DiskFault) => Ending::RecipientFault,
                Some(CloneEnd::Complete { .. }) | None => rows_ending(self.is_doubted),
            },
        }
    }

    /// The first stop of the clone's session, if it has come to one: how many commits and drops
    /// there were.
    pub fn stop(&self) -> Option<Stop>
        ensures { option_map stop_of result ≡ self.now.clone.stop }
    {
        self.stop
    }

    /// Gives the donor's disk and the recipient's back, and the drops.
    pub fn into_disks(self) -> (D, R, Drops)
        ensures donor { D.state result.0 ≡ self.donor.donor.engine.disk }
        ensures recipient { R.state result.1 ≡ self.donor.recipient }
        ensures drops { result.2.list ≡ (donor_of self.donor).drops }
    {
        let World {
            donor,
            recipient,
            terms: _,
            begun: _,
            course: _,
            stop: _,
            looked: _,
            is_disturbed: _,
            is_alone: _,
            is_doubted: _,
            is_shown: _,
            replica: _,
        } = self;
        let (disk, drops) = donor.into_disk();
        (disk, recipient, drops)
    }

    /// What the recipient's disk holds of the clone.
    pub fn laws(&self)
        ensures { KeepsClone (donor_of self.now.donor) self.now.tells self.now.clone
            self.now.donor.recipient.told }
    {
        let _ = &self.begun;
    }

    /// Carries out a line and gives its answer. Where memory runs out in it, a front of its calls
    /// was carried out, and against none of these was there a cause.
    pub fn event(&mut self, alloc: Global, line: &Line) -> Result<String, AllocError>
        requires within { IsWithin donor_of (2 ^ 63 - 1) self.old }
        ensures ok { IfOk result (λ text. Answers self.old line.now (string_bytes text) self.new) }
        ensures err { OnErr result (BreaksOff self.old line.now self.new) }
    {
        match line {
            Line::Create { table, buckets } => self.create_line(alloc, *table, *buckets),
            Line::Drop { table } => self.drop_line(alloc, *table),
            Line::Begin { writer } => self.begin_line(alloc, *writer),
            Line::Put {
                trx,
                table,
                key,
                value,
            } => self.put_line(alloc, *trx, *table, *key, value.bytes()),
            Line::Delete { trx, table, key } => self.delete_line(alloc, *trx, *table, *key),
            Line::Get { trx, table, key } => self.get_line(alloc, *trx, *table, *key),
            Line::Undo { trx } => self.undo_line(alloc, *trx),
            Line::Commit { trx } => self.commit_line(alloc, *trx),
            Line::Set {
                writer,
                table,
                key,
                value,
            } => self.set_line(alloc, *writer, *table, *key, value.bytes()),
            Line::Flush { space, page } => self.flush_line(alloc, *space, *page),
            Line::Half { space, page } => self.half_line(alloc, *space, *page),
            Line::Land { space, page } => self.land_line(alloc, *space, *page),
            Line::Clean => self.clean_line(alloc),
            Line::Checkpoint => self.checkpoint_line(alloc),
            Line::Lsn => self.lsn_line(alloc),
            Line::Tear { byte } => self.donor_order_line(alloc, DiskOrder::Tear { byte: *byte }),
            Line::FailDonor { call } => self.donor_order_line(alloc, fail_at(*call)),
            Line::FailRecipient { call } => self.recipient_order_line(alloc, fail_at(*call)),
            Line::Start => self.start_line(alloc),
            Line::Task { task } => self.task_line(alloc, *task),
            Line::Serve { connection } => self.serve_line(alloc, *connection),
            Line::Cut {
                connection,
                to_donor,
                to_task,
            } => self.cut_line(alloc, *connection, *to_donor, *to_task),
            Line::Advance => self.advance_line(alloc),
            Line::Finish => self.finish_line(alloc),
            Line::Look => self.look_line(alloc),
            Line::Archive { bytes } => self.archive_line(alloc, *bytes),
            Line::Status => self.status_line(alloc),
            Line::Raw { bytes } => self.raw_line(alloc, bytes.bytes()),
            Line::Feed { connection, bytes } => self.feed_line(alloc, *connection, bytes.bytes()),
            Line::Abandon => self.abandon_line(alloc),
            Line::Follow => self.follow_line(alloc),
            Line::Lose => self.lose_line(alloc),
            Line::Repeat { sent } => self.repeat_line(alloc, *sent),
            Line::Replica => self.replica_line(alloc),
            Line::Clone => self.clone_line(alloc),
            Line::Rows => self.rows_line(alloc),
        }
    }
}

// How a clone ended that no fault ended: a fault of the recipient's disk came in the way of its
// rows, or none did.
fn rows_ending(is_doubted: bool) -> Ending
    ensures { result ≡ rows_ending is_doubted }
{
    if is_doubted {
        Ending::RecipientFault
    } else {
        Ending::Well
    }
}

// The order by which the call with this number fails, from now on.
fn fail_at(call: u32) -> DiskOrder
    ensures { result ≡ order.FailAt call }
{
    DiskOrder::FailAt {
        call: u64::from(call),
    }
}
