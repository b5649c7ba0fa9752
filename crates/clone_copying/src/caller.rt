//! A caller. Its seat is one of the cell.
ghost use Rattle.std.specs.Prelude.{◌≡◌};
ghost use Rattle.std.specs.Arc.{arc_value};
ghost use Rattle.clone_turn.specs.Seats.{IsOf};
ghost use Rattle.clone_copying.specs.Calling.{Calls, FitsNow};

use clone_turn::{Machine, Seat, TurnCell};
use std::marker::Model;
use std::sync::{Arc, Wait};

/// What makes calls of a machine that jobs share: a seat at its cell. Contracts see the seat.
#[derive(Drop)]
pub struct Caller<M: Machine, H: Wait> {
    rt: H,
    cell: Arc<TurnCell<M>>,
    seat: Seat<M>,
}

impl<M: Machine, H: Wait> Model for Caller<M, H> {
    ghost use Rattle.std.specs.Arc.{arc_value};
    ghost use Rattle.clone_turn.specs.Seats.{IsOf, SeatModel};

    ghost Value = { SeatModel M.State M.Call M.Answer };

    ghost view = { λ c. c.seat };

    ghost invariant = { λ c. IsOf (arc_value c.cell) c.seat };
}

impl<M: Machine, H: Wait + Drop> Caller<M, H> {
    /// What calls by this seat.
    pub fn new(rt: H, cell: Arc<TurnCell<M>>, seat: Seat<M>) -> Caller<M, H>
        requires { IsOf (arc_value cell) seat }
        ensures { result ≡ seat }
    {
        Caller { rt, cell, seat }
    }

    /// Gives the seat back.
    pub fn into_seat(self) -> Seat<M>
        ensures { result ≡ self }
    {
        let Caller {
            rt: _,
            cell: _,
            seat,
        } = self;
        seat
    }
}

impl<M: Machine, H: Wait> Caller<M, H> {
    /// Waits for the turn, and makes the call.
    pub fn call(&mut self, call: M::Call) -> M::Answer
        requires { FitsNow M.fits call self.old }
        ensures { Calls M.steps self.old call result self.new }
    {
        self.cell.call(&self.rt, &mut self.seat, call)
    }
}
