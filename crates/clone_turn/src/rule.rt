//! The rule of a cell's table, and what each kind of step on it tells its seat. The definitions are
//! those of specs/Rule.antt.

use crate::machine::Machine;
use crate::view::View;
use atomic_table::{Join, Play, Split, TableRule};
use std::marker::PhantomData;
use std::snapshot::Snapshot;

// The state, with the call that made it and its answer. Nothing where a seat works on the state.
pub(crate) type Held<S, C, A> = Option<(S, Option<(Snapshot<C>, Snapshot<A>)>)>;

pub(crate) type HeldOf<M> = Held<
    <M as Machine>::State,
    <M as Machine>::Call,
    <M as Machine>::Answer,
>;

pub(crate) type ViewOf<M> = View<
    <M as Machine>::State,
    <M as Machine>::Call,
    <M as Machine>::Answer,
>;

pub struct Turns<M> {
    of: PhantomData<M>,
}

impl<M: Machine> TableRule<HeldOf<M>, ViewOf<M>, Snapshot<M::State>> for Turns<M> {
    ghost use Rattle.clone_turn.specs.Rule.{Kept, first_view};

    ghost holds = { λ first. Kept M.steps first.value };

    ghost first = { λ first. first_view first.value };
}

// Draws a ticket.
pub struct Draw<M> {
    of: PhantomData<M>,
}

impl<M: Machine> Play<HeldOf<M>, ViewOf<M>> for Draw<M> {
    ghost use Rattle.clone_turn.specs.Rule.{Draws};

    ghost then = { Draws };
}

// Looks at the serving number, and lifts the state where it is the seat's turn.
pub struct Look<M> {
    of: PhantomData<M>,
}

impl<M: Machine> Play<HeldOf<M>, ViewOf<M>> for Look<M> {
    ghost use Rattle.clone_turn.specs.Rule.{Looks};

    ghost then = { Looks M.steps };
}

// Puts the state home, and ends the turn.
pub struct Release<M> {
    of: PhantomData<M>,
}

impl<M: Machine> Play<HeldOf<M>, ViewOf<M>> for Release<M> {
    ghost use Rattle.clone_turn.specs.Rule.{Releases};

    ghost then = { Releases };
}

// Splits a seat: its share is halved.
pub struct Halves<M> {
    of: PhantomData<M>,
}

impl<M: Machine> Split<ViewOf<M>> for Halves<M> {
    ghost use Rattle.clone_turn.specs.Rule.{left_view, right_view};

    ghost left = { left_view };

    ghost right = { right_view };
}

// Joins a seat: two are made one.
pub struct Joint<M> {
    of: PhantomData<M>,
}

impl<M: Machine> Join<ViewOf<M>> for Joint<M> {
    ghost use Rattle.clone_turn.specs.Rule.{both_views, spent_view};

    ghost both = { both_views };

    ghost spent = { spent_view };
}

// A look after a join, which lays what both had seen over each other.
pub struct Settle<M> {
    of: PhantomData<M>,
}

impl<M: Machine> Play<HeldOf<M>, ViewOf<M>> for Settle<M> {
    ghost use Rattle.clone_turn.specs.Rule.{Settles};

    ghost then = { Settles };
}
