//! An end of a connection in memory. It holds one half of the right to call the connection, and
//! each call that was made by that half is of the end's own side. The connection began with
//! nothing on the way to either end.
ghost use Rattle.std.specs.Prelude.{◌≡◌, [], ◌<◌, ◌≤◌, ◌+◌, ◌++◌, List, ℕ, Bool, true, false, IfOk, IsOk, OnOk, OnErr, Ok, Err, Some, take, length};
ghost use Rattle.std.specs.Arc.{arc_value};
ghost use Rattle.clone_turn.specs.Seats.{MakesCall};
ghost use Rattle.clone_outside.specs.Bytes.{TakesSome, appended};
ghost use Rattle.clone_outside.specs.Causes.{raised};
ghost use Rattle.clone_outside.specs.Link.{Receives, GivesSome, LossRose, RefusalRose};
ghost use Rattle.clone_memlink.specs.declared.connection.LinkCall.TheVariants as call;
ghost use Rattle.clone_memlink.specs.declared.connection.LinkAnswer.TheVariants as answer;
ghost use Rattle.clone_memlink.specs.Connections.{Steps};
ghost use Rattle.clone_memlink.specs.Ends.{side_of, sent_of, received_of};
ghost use mathlib.Core.List.{IsPrefix};
ghost use Rattle.clone_outside.specs.declared.link.Side.TheVariants.{Donor, Requester};
ghost use Rattle.clone_memlink.specs.Nets.{IsNewEnd};
ghost use Rattle.clone_memlink.specs.Held.{EndModel, IsHalf, sent_by, received_by, SendsBytes, SendsFront, told_to, faults_sent, faults_received};

use crate::bell::Bell;
use crate::connection::{Connection, LinkAnswer, LinkCall, LinkMachine};
use crate::piece::{PIECE, Piece};
use clone_outside::{Link, LinkRefusal, Received, Side};
use clone_turn::{Seat, TurnCell};
use std::alloc::{AllocError, Global};
use std::marker::Model;
use std::snapshot::Snapshot;
use std::sync::{Arc, Wait};

/// What both ends share: the connection, and the bell by which a send that waits for room is woken.
#[derive(Drop)]
pub(crate) struct Line {
    pub(crate) cell: TurnCell<LinkMachine>,
    bell: Bell,
}

/// One end of a connection in memory.
#[derive(Drop)]
pub struct MemEnd<R> {
    rt: R,
    line: Arc<Line>,
    seat: Seat<LinkMachine>,
    side: Side,
    is_open: bool,
    faults: u64,
}

impl<R> Model for MemEnd<R> {
    ghost use Rattle.std.specs.Arc.{arc_value};
    ghost use Rattle.clone_memlink.specs.Held.{EndModel, IsHalf};

    ghost Value = { EndModel };

    ghost view = { λ e. record {
      name = (arc_value e.line).cell;
      side = e.side;
      seat = e.seat;
      is_open = e.is_open;
      faults = e.faults;
    } };

    ghost invariant = { λ e. IsHalf (arc_value e.line).cell e.side e.seat };
}

impl<R> MemEnd<R> {
    /// Both ends of a connection, the donor's and the requester's.
    pub(crate) fn open(
        rt: R,
        alloc: Global,
        first: Connection,
    ) -> Result<(MemEnd<R>, MemEnd<R>), AllocError>
    where
        R: Copy,
        requires { (first.to_donor.waiting ≡ []) × (first.to_requester.waiting ≡ []) }
        ensures name { IfOk result (λ r. ◌≡◌ r.0.name r.1.name) }
        ensures donor { IfOk result (λ r. IsNewEnd first Donor r.0) }
        ensures requester { IfOk result (λ r. IsNewEnd first Requester r.1) }
    {
        let (cell, mut seat) = match TurnCell::<LinkMachine>::new(alloc, first) {
            Ok(pair) => pair,
            Err((refused, _)) => return Err(refused),
        };
        let other = cell.split(&mut seat);
        let bell = Bell::new();
        let line = Arc::new(alloc, Line { cell, bell })?;
        let shared = Arc::try_clone(&line)?;
        let donor = MemEnd {
            rt,
            line,
            seat,
            side: Side::Donor,
            is_open: true,
            faults: 0,
        };
        let requester = MemEnd {
            rt,
            line: shared,
            seat: other,
            side: Side::Requester,
            is_open: true,
            faults: 0,
        };
        Ok((donor, requester))
    }

    /// What names its connection, for contracts.
    pub(crate) fn name(&self) -> Snapshot<TurnCell<LinkMachine>>
        ensures { ◌≡◌ result.value self.now.name }
    {
        Snapshot::of(&self.line.cell)
    }

    /// Joins the donor's end with the requester's, and closes their connection.
    pub(crate) fn join(self, other: MemEnd<R>)
    where
        R: Wait + Drop,
        requires name { ◌≡◌ self.name other.name }
        requires donor { self.side ≡ Donor }
        requires requester { other.side ≡ Requester }
        ensures to_donor { IsPrefix (received_by self) (sent_by other) }
        ensures to_requester { IsPrefix (received_by other) (sent_by self) }
    {
        let MemEnd {
            rt,
            line,
            mut seat,
            side: _,
            is_open: _,
            faults: _,
        } = self;
        line.cell.join(&mut seat, other.into_seat());
        let _last = line.cell.close(&rt, seat);
    }

    fn into_seat(self) -> Seat<LinkMachine>
    where
        R: Drop,
        ensures seat { result ≡ self.seat }
        ensures half { IsHalf self.name self.side result }
    {
        let MemEnd {
            rt: _rt,
            line: _line,
            seat,
            side: _,
            is_open: _,
            faults: _,
        } = self;
        seat
    }
}

impl<R: Wait + Copy> MemEnd<R> {
    // One call of this end, in its turn.
    fn call(&mut self, call: LinkCall) -> LinkAnswer
        requires { side_of call ≡ self.old.side }
        ensures made { MakesCall Steps self.old.name.first self.old.seat call result self.new.seat }
        ensures step { (s : Connection) × (t : Connection) × Steps s call result t }
        ensures sent { sent_by self.new ≡ sent_by self.old ++ sent_of call result }
        ensures received { received_by self.new ≡ received_by self.old ++ received_of call result }
        ensures same { self.new ≡ record self.old { seat = self.new.seat } }
    {
        self.line.cell.call(&self.rt, &mut self.seat, call)
    }

    fn count_loss(&mut self)
        ensures { self.new ≡ record self.old { faults = raised self.old.faults } }
    {
        self.faults = self.faults.saturating_add(1);
    }

    // Sends from the front what there is room for, by one call.
    fn try_send(&mut self, from: &[u8]) -> Result<usize, LinkRefusal>
        ensures sent { SendsFront self.old from.now result self.new }
        ensures count { IfOk result (λ n. n ≤ length from.now) }
        ensures same { self.new ≡ record self.old {
          seat = self.new.seat;
          faults = faults_sent result self.old.faults;
        } }
        ensures rises { self.old.faults ≤ self.new.faults }
    {
        let piece = Piece::new(&from[..from.len().min(PIECE)]);
        match self.call(LinkCall::Send(self.side, piece)) {
            LinkAnswer::Sent(n) => {
                if n > 0 {
                    self.line.bell.ring();
                }
                Ok(n)
            }
            LinkAnswer::Lost => {
                self.count_loss();
                Err(LinkRefusal::Lost)
            }
            LinkAnswer::NoMemory => Err(LinkRefusal::NoMemory),
            _ => unreachable!(),
        }
    }

    // Sends from the front, and waits where there is no room.
    fn send_some(&mut self, from: &[u8]) -> Result<usize, LinkRefusal>
        ensures sent { SendsFront self.old from.now result self.new }
        ensures count { IfOk result (λ n. (0 < n) × (n ≤ length from.now)) }
        ensures same { self.new ≡ record self.old {
          seat = self.new.seat;
          faults = faults_sent result self.old.faults;
        } }
        ensures rises { self.old.faults ≤ self.new.faults }
    {
        let sent = self.try_send(from);
        let Ok(0) = sent else {
            return sent;
        };
        self.line.bell.enter();
        let sent = self.send_when_room(from);
        self.line.bell.leave();
        sent
    }

    // The same for a thread that listens.
    fn send_when_room(&mut self, from: &[u8]) -> Result<usize, LinkRefusal>
        ensures sent { SendsFront self.old from.now result self.new }
        ensures count { IfOk result (λ n. (0 < n) × (n ≤ length from.now)) }
        ensures same { self.new ≡ record self.old {
          seat = self.new.seat;
          faults = faults_sent result self.old.faults;
        } }
        ensures rises { self.old.faults ≤ self.new.faults }
    {
        let rt = self.rt;
        for _ in rt.forever() {
            let rung = self.line.bell.rung();
            let sent = self.try_send(from);
            let Ok(0) = sent else {
                return sent;
            };
            self.line.bell.sleep(&rt, rung);
        }
        unreachable!()
    }
}

impl<R: Wait + Copy> Link for MemEnd<R> {
    ghost use Rattle.std.specs.Prelude.{Some};
    ghost use Rattle.clone_memlink.specs.Held.{sent_by, received_by};

    type Name = TurnCell<LinkMachine>;

    ghost name = { λ e. e.name };

    ghost side = { λ e. e.side };

    ghost is_open = { λ e. e.is_open };

    ghost sent = { λ e. Some (sent_by e) };

    ghost received = { λ e. Some (received_by e) };

    ghost failures = { λ e. e.faults };

    fn faults(&self) -> u64 {
        self.faults
    }

    /// Sends the bytes. It waits while there is no room, the connection isn't cut and the other end
    /// isn't closed.
    ///
    /// A refusal is what the last of its calls was answered in the run.
    fn send(&mut self, from: &[u8]) -> Result<(), LinkRefusal>
        requires { self.old.is_open ≡ true }
        ensures all { OnOk result
            (Some (sent_by self.new) ≡ appended (Some (sent_by self.old)) from.now) }
        ensures some { TakesSome (Some (sent_by self.old)) (Some (sent_by self.new)) from.now }
        ensures received { Some (received_by self.new) ≡ Some (received_by self.old) }
        ensures name { ◌≡◌ self.new.name self.old.name }
        ensures side { self.new.side ≡ self.old.side }
        ensures open { self.new.is_open ≡ self.old.is_open }
        ensures count { self.old.faults ≤ self.new.faults }
        ensures cause { RefusalRose self.old.faults self.new.faults result }
        ensures calls { (n : ℕ) × SendsBytes self.old result (take n from.now) self.new }
        ensures faults { self.new.faults ≡ faults_sent result self.old.faults }
    {
        let mut done = 0;
        while done < from.len() {
            done += self.send_some(&from[done..])?;
        }
        Ok(())
    }

    /// Receives the next bytes. It is answered what its one call was answered in the run.
    fn receive(&mut self, into: &mut [u8]) -> Result<Received, LinkRefusal>
        requires { self.old.is_open ≡ true }
        ensures bytes { Receives (Some (received_by self.old))
            (Some (received_by self.new)) result into.new }
        ensures some { GivesSome result into.new }
        ensures sent { Some (sent_by self.new) ≡ Some (sent_by self.old) }
        ensures name { ◌≡◌ self.new.name self.old.name }
        ensures side { self.new.side ≡ self.old.side }
        ensures open { self.new.is_open ≡ self.old.is_open }
        ensures count { self.old.faults ≤ self.new.faults }
        ensures cause { LossRose self.old.faults self.new.faults result }
        ensures ok { IsOk result }
        ensures call { MakesCall Steps self.old.name.first self.old.seat
            (call.Receive self.old.side (length into.old)) (told_to result into.new) self.new.seat }
        ensures faults { self.new.faults ≡ faults_received result self.old.faults }
    {
        match self.call(LinkCall::Receive(self.side, into.len())) {
            LinkAnswer::Bytes(piece) => {
                self.line.bell.ring();
                let bytes = piece.as_slice();
                into[..bytes.len()].copy_from_slice(bytes);
                Ok(Received::Bytes(bytes.len()))
            }
            LinkAnswer::Nothing => Ok(Received::Nothing),
            LinkAnswer::Lost => {
                self.count_loss();
                Ok(Received::Lost)
            }
            _ => unreachable!(),
        }
    }

    /// Closes the end, by one call. What it sent can still be received.
    fn close(&mut self)
        ensures open { self.new.is_open ≡ false }
        ensures sent { Some (sent_by self.new) ≡ Some (sent_by self.old) }
        ensures received { Some (received_by self.new) ≡ Some (received_by self.old) }
        ensures name { ◌≡◌ self.new.name self.old.name }
        ensures side { self.new.side ≡ self.old.side }
        ensures count { self.new.faults ≡ self.old.faults }
        ensures call { self.old.is_open ≡ true → MakesCall Steps self.old.name.first self.old.seat
            (call.Close self.old.side) answer.Closed self.new.seat }
        ensures again { self.old.is_open ≡ false → self.new ≡ self.old }
    {
        if self.is_open {
            self.call(LinkCall::Close(self.side));
            self.is_open = false;
            self.line.bell.ring();
        }
    }
}
