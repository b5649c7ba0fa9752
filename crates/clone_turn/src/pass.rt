//! A seat in a type that holds no state of a machine. It keeps the rule of a seat between calls:
//! one view, no ticket, no state lifted, and a share above 0.
ghost use Rattle.std.specs.Prelude.{◌≡◌, [], ◌∷◌};
ghost use Rattle.clone_turn.specs.declared.view.View.{View};
ghost use Rattle.clone_turn.specs.Rule.{Idle};
ghost use Rattle.clone_turn.specs.Seats.{seat_in};

use crate::cell::Seat;
use crate::machine::Machine;
use crate::raw::RawSeat;
use crate::rule::ViewOf;
use atomic_table::Badge;
use std::marker::Model;

/// A seat in a type that holds no state, so that it can lie in the state of another cell.
pub struct Pass<M: Machine> {
    badge: Badge<ViewOf<M>>,
}

impl<M: Machine> Model for Pass<M> {
    ghost use Rattle.std.specs.Prelude.{◌≡◌, [], ◌∷◌};
    ghost use Rattle.clone_turn.specs.declared.view.View.{View};
    ghost use Rattle.clone_turn.specs.Seats.{SeatModel, seat_in};
    ghost use Rattle.clone_turn.specs.Rule.{Idle};

    ghost Value = { SeatModel M.State M.Call M.Answer };

    ghost view = { λ p. seat_in p.badge.table_id p.badge.views };

    ghost invariant = { λ p. (first : M.State) × (v : View M.State M.Call M.Answer)
        × (p.badge.views ≡ v ∷ []) × Idle first (v, []) };
}

impl<M: Machine> Seat<M> {
    pub fn into_pass(self) -> Pass<M>
        ensures { result ≡ self }
    {
        let badge = self.into_raw().into_inner().into_badge();
        Pass { badge }
    }
}

impl<M: Machine> Pass<M> {
    fn into_badge(self) -> Badge<ViewOf<M>>
        ensures seat { seat_in result.table_id result.views ≡ self }
        ensures idle { (first : M.State) × (v : View M.State M.Call M.Answer)
            × (result.views ≡ v ∷ []) × Idle first (v, []) }
    {
        let Pass { badge } = self;
        badge
    }

    pub fn into_seat(self) -> Seat<M>
        ensures { result ≡ self }
    {
        let seat = self.into_badge().into_seat();
        Seat::from_raw(RawSeat { seat })
    }
}

impl<M: Machine> Drop for Pass<M> {
    fn drop(self) {
        let Pass { badge: _ } = self;
    }
}
