//! A hub. Its seat is one of its cell.
ghost use Rattle.std.specs.Prelude.{◌≡◌, IfErr, IfOk, OnErr};
ghost use Rattle.std.specs.Arc.{arc_value};
ghost use Rattle.clone_turn.specs.Runs.{end_of, entries};
ghost use Rattle.clone_turn.specs.Seats.{ClosesAt, IsOf, MakesCall, first_seat};
ghost use Rattle.clone_hub.specs.Gathering.{IsLent, IsTaken};

use clone_turn::{Machine, Seat, TurnCell};
use std::alloc::{AllocError, AllocFailed, Global};
use std::marker::Model;
use std::sync::{Arc, Wait};

/// A cell, with a seat there. Contracts see both.
#[derive(Drop)]
pub struct Hub<M: Machine> {
    cell: Arc<TurnCell<M>>,
    seat: Seat<M>,
}

impl<M: Machine> Model for Hub<M> {
    ghost use Rattle.std.specs.Arc.{arc_value};
    ghost use Rattle.clone_turn.specs.Seats.{IsOf};
    ghost use Rattle.clone_hub.specs.Gathering.{HubModel};

    ghost Value = { HubModel M.State M.Call M.Answer };

    ghost view = { λ h. record { cell = arc_value h.cell; seat = h.seat } };

    ghost invariant = { λ h. IsOf (arc_value h.cell) h.seat };
}

impl<M: Machine> Hub<M> {
    /// A machine in this state, of which the hub has the whole share. Where there is no memory the
    /// state comes back.
    pub fn new<H: Wait>(rt: &H, alloc: Global, first: M::State) -> Result<Hub<M>, M::State>
        ensures first { IfOk result (λ h. h.cell.first ≡ first) }
        ensures seat { IfOk result (λ h. h.seat ≡ first_seat h.cell) }
        ensures back { IfErr result (λ state. state ≡ first) }
    {
        let (cell, seat) = match TurnCell::<M>::new(alloc, first) {
            Ok(made) => made,
            Err((_, first)) => return Err(first),
        };
        match Arc::new(alloc, cell) {
            Ok(cell) => Ok(Hub { cell, seat }),
            Err(AllocFailed { value }) => Err(value.close(rt, seat)),
        }
    }

    /// The cell, and a seat that is split off. The error is that the cell has too many holders.
    pub fn lend(&mut self) -> Result<(Arc<TurnCell<M>>, Seat<M>), AllocError>
        ensures lent { IfOk result (λ r. IsLent self.old (arc_value r.0) r.1 self.new) }
        ensures of { IfOk result (λ r. IsOf (arc_value r.0) r.1) }
        ensures same { OnErr result (self.new ≡ self.old) }
    {
        let Ok(cell) = Arc::try_clone(&self.cell) else {
            return Err(AllocError);
        };
        let seat = self.cell.split(&mut self.seat);
        Ok((cell, seat))
    }

    /// A seat comes back.
    pub fn take_back(&mut self, seat: Seat<M>)
        requires { IsOf self.old.cell seat }
        ensures { IsTaken self.old seat self.new }
    {
        self.cell.join(&mut self.seat, seat);
    }

    /// Waits for the turn, and makes the call.
    pub fn call<H: Wait>(&mut self, rt: &H, call: M::Call) -> M::Answer
        requires { M.fits call (end_of self.old.cell.first (entries self.old.seat.seen)) }
        ensures cell { self.new.cell ≡ self.old.cell }
        ensures call { MakesCall M.steps self.old.cell.first self.old.seat call result
            self.new.seat }
    {
        self.cell.call(rt, &mut self.seat, call)
    }

    /// Waits for the turn, and takes the state away.
    pub fn close<H: Wait>(self, rt: &H) -> M::State
        ensures { ClosesAt M.steps self.cell.first self.seat result }
    {
        let Hub { cell, seat } = self;
        cell.close(rt, seat)
    }
}
