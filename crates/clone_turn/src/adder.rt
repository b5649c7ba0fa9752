//! The least machine: a number to which each call adds one. Two threads that call it show what the
//! clauses of a cell are good for.
ghost use Rattle.std.specs.Prelude.{◌≡◌, [], ◌++◌, ◌+◌, ◌^◌, ◌<◌, IfOk, IsPermutation};
ghost use Rattle.std.specs.List.{range_with_len};
ghost use Rattle.clone_turn.specs.Runs.{calls};
ghost use Rattle.clone_turn.specs.Seats.{IsOf};
ghost use Rattle.clone_turn.specs.Adding.{HasMade, answers_of};

use crate::cell::{Seat, TurnCell};
use crate::machine::Machine;
use std::alloc::{AllocError, Global};
use std::sync::Wait;
use std::thread::{Threads, join};

/// A number to which each call adds one, and which the call answers. It wraps at 2^64.
pub struct Adder;

impl Machine for Adder {
    ghost use Rattle.std.specs.Prelude.{refl};
    ghost use Rattle.clone_turn.specs.Adding.{Adds};

    type State = u64;

    type Call = ();

    type Answer = u64;

    type Key = ();

    ghost steps = { Adds };

    ghost fits = { λ _ _. Unit {0} };

    ghost key = { λ _. tt };

    fn step(state: &mut u64, _call: ()) -> u64 {
        *state = state.wrapping_add(1);
        *state
    }

    ghost keeps_key = { λ s c a t follows. refl };

    ghost still_fits = { λ d s c a t fits follows. tt };
}

/// Makes n calls, and answers with the seat what they answered.
pub fn add_often<R: Wait>(
    rt: &R,
    alloc: Global,
    cell: &TurnCell<Adder>,
    mut seat: Seat<Adder>,
    n: u64,
) -> Result<(Seat<Adder>, Vec<u64>), AllocError>
    requires seat { IsOf cell.now seat }
    requires fresh { calls seat.seen ≡ [] }
    ensures made { IfOk result (λ r. HasMade n seat r.0) }
    ensures answers { IfOk result (λ r. r.1.items ≡ answers_of r.0) }
{
    let mut answers = Vec::new(alloc);
    for _ in 0..n {
        let answer = cell.call(rt, &mut seat, ());
        answers.push(answer)?;
    }
    Ok((seat, answers))
}

/// What two threads added, and what each of them was answered.
#[derive(Drop)]
pub struct Added {
    pub sum: u64,
    pub first: Vec<u64>,
    pub second: Vec<u64>,
}

/// Two threads make n calls each, on a number that starts at 0. Their answers are 1 to 2n, each
/// once.
pub fn add_by_two<R: Threads + Wait + Sync>(
    rt: &R,
    alloc: Global,
    n: u64,
) -> Result<Added, AllocError>
    requires { n < 2 ^ 62 }
    ensures sum { IfOk result (λ r. r.sum ≡ n + n) }
    ensures answers { IfOk result (λ r.
        IsPermutation (r.first.items ++ r.second.items) (range_with_len 1 (n + n))) }
{
    let (cell, mut seat) = match TurnCell::<Adder>::new(alloc, 0) {
        Ok(pair) => pair,
        Err((refused, _)) => return Err(refused),
    };
    let other = cell.split(&mut seat);
    let (one, two) = join(
        rt,
        || add_often(rt, alloc, &cell, seat, n),
        || add_often(rt, alloc, &cell, other, n),
    );
    let (mut one, first) = one?;
    let (two, second) = two?;
    cell.join(&mut one, two);
    let sum = cell.close(rt, one);
    Ok(Added { sum, first, second })
}
