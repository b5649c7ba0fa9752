//! A cell and its seats. Between calls a seat has no ticket, holds nothing of the cell's table,
//! has no state lifted and no seat half joined, and its share is above 0. It knows a first state,
//! from which the run that it has seen begins.
ghost use Rattle.std.specs.Prelude.{◌≡◌, ◌++◌, IfOk, IfErr, IsPermutation};
ghost use mathlib.Core.List.{IsPrefix};
ghost use Rattle.clone_turn.specs.Runs.{Agree, calls, entries, end_of};
ghost use Rattle.clone_turn.specs.Parts.{IsSublist};
ghost use Rattle.clone_turn.specs.Rule.{Idle};
ghost use Rattle.clone_turn.specs.Seats.{IsOf, seat_of, first_seat, MakesCall, ClosesAt, left_seat, right_seat, joined_seat};

use crate::machine::Machine;
use crate::raw::{RawCell, RawSeat};
use std::alloc::{AllocError, Global};
use std::marker::Model;
use std::sync::Wait;

/// The state of a machine, which threads call in turns. Contracts see which cell it is, and its
/// first state.
pub struct TurnCell<M: Machine> {
    raw: RawCell<M>,
}

impl<M: Machine> Model for TurnCell<M> {
    ghost use Rattle.clone_turn.specs.Seats.{CellModel};

    ghost Value = { CellModel M.State };

    ghost view = { λ c. record {
      cell = c.raw.table.shared.table_id;
      first = c.raw.table.shared.key.value;
    } };
}

/// The right to call a cell. Contracts see what it has seen of the run, which of the entries are
/// its own calls, and its share. It has no bytes.
pub struct Seat<M: Machine> {
    raw: RawSeat<M>,
}

impl<M: Machine> Model for Seat<M> {
    ghost use Rattle.clone_turn.specs.Seats.{SeatModel, seat_of};
    ghost use Rattle.clone_turn.specs.Rule.{Idle};

    ghost Value = { SeatModel M.State M.Call M.Answer };

    ghost view = { λ s. seat_of s.raw.seat.table_id s.raw.seat.me.0 };

    ghost invariant = { λ s. (first : M.State) × Idle first s.raw.seat.me };
}

impl<M: Machine> TurnCell<M> {
    /// A cell with its first state, and the seat that has the whole share. Where there is no memory
    /// the state comes back.
    pub fn new(
        alloc: Global,
        first: M::State,
    ) -> Result<(TurnCell<M>, Seat<M>), (AllocError, M::State)>
        ensures first { IfOk result (λ r. r.0.first ≡ first) }
        ensures seat { IfOk result (λ r. r.1 ≡ first_seat r.0) }
        ensures back { IfErr result (λ e. e.1 ≡ first) }
    {
        let (raw, seat) = RawCell::new(alloc, first)?;
        Ok((TurnCell { raw }, Seat { raw: seat }))
    }

    /// Waits for the turn, and makes the call. It takes no memory of its own. After a `close` it
    /// waits forever.
    pub fn call<R: Wait>(&self, rt: &R, seat: &mut Seat<M>, call: M::Call) -> M::Answer
        requires seat { IsOf self.now seat.old }
        requires fits { M.fits call (end_of self.now.first (entries seat.old.seen)) }
        ensures { MakesCall M.steps self.now.first seat.old call result seat.new }
    {
        self.raw.call(rt, &mut seat.raw, call)
    }

    /// A new seat, which has seen what this one has, and has made no call. Each of the two has half
    /// of the share.
    pub fn split(&self, seat: &mut Seat<M>) -> Seat<M>
        requires { IsOf self.now seat.old }
        ensures left { seat.new ≡ left_seat seat.old }
        ensures right { result ≡ right_seat seat.old }
    {
        let raw = self.raw.split(&mut seat.raw);
        Seat { raw }
    }

    /// The seat has then seen what either had, and has the calls and the shares of both.
    pub fn join(&self, seat: &mut Seat<M>, other: Seat<M>)
        requires seat { IsOf self.now seat.old }
        requires other { IsOf self.now other }
        ensures agree { Agree seat.old.seen other.seen }
        ensures joined { seat.new ≡ joined_seat seat.old other }
        ensures knows { IsPrefix (entries seat.old.seen) (entries seat.new.seen) }
        ensures knows_other { IsPrefix (entries other.seen) (entries seat.new.seen) }
        ensures calls { IsPermutation (calls seat.old.seen ++ calls other.seen)
            (calls seat.new.seen) }
        ensures order { IsSublist (calls seat.old.seen) (calls seat.new.seen) }
        ensures order_other { IsSublist (calls other.seen) (calls seat.new.seen) }
    {
        self.raw.join(&mut seat.raw, other.into_raw());
    }

    /// Waits for the turn, and takes the state away.
    pub fn close<R: Wait>(&self, rt: &R, seat: Seat<M>) -> M::State
        requires { IsOf self.now seat }
        ensures run { ClosesAt M.steps self.now.first seat result }
        ensures key { ◌≡◌ (M.key result) (M.key self.now.first) }
    {
        self.raw.close(rt, seat.into_raw())
    }
}

impl<M: Machine> Seat<M> {
    pub(crate) fn from_raw(raw: RawSeat<M>) -> Seat<M>
        requires { (first : M.State) × Idle first raw.seat.me }
        ensures { seat_of raw.seat.table_id raw.seat.me.0 ≡ result }
    {
        Seat { raw }
    }

    pub(crate) fn into_raw(self) -> RawSeat<M>
        ensures seat { seat_of result.seat.table_id result.seat.me.0 ≡ self }
        ensures idle { (first : M.State) × Idle first result.seat.me }
    {
        let Seat { raw } = self;
        raw
    }
}

impl<M: Machine> Drop for TurnCell<M> {
    fn drop(self) {
        let TurnCell { raw: _ } = self;
    }
}

impl<M: Machine> Drop for Seat<M> {
    fn drop(self) {
        let Seat { raw: _ } = self;
    }
}
