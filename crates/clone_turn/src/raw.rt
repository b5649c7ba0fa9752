//! The atomic steps of a cell. Word 0 of its table is the next ticket, word 1 the ticket that is
//! served, and slot 0 holds the state. The rule `Kept` (specs/Rule.antt) holds between any two
//! steps.
ghost use Rattle.std.specs.Prelude.{◌≡◌, [], ◌∷◌, IfOk, IfErr, IfSome, IfNone, Some, ◌==◌, false, true, None, ◌<◌, MatchBool};
ghost use Rattle.clone_turn.specs.Runs.{Agree, end_of, entries};
ghost use Rattle.clone_turn.specs.Rule.{first_view, Idle, Calls, Closes, left_view, right_view, joined_view, with_ticket, Lifts, Lifted, with_note, note_in};

use crate::machine::Machine;
use crate::rule::{Draw, Halves, HeldOf, Joint, Look, Release, Settle, Turns, ViewOf};
use atomic_table::{Refused, Seat as TableSeat, Table};
use std::alloc::{AllocError, AllocFailed, Global};
use std::hint;
use std::snapshot::Snapshot;
use std::sync::Wait;

/// How often a call looks for a free turn before it sleeps.
pub const LOOKS: u64 = 4_096;

type Board<M> = Table<HeldOf<M>, ViewOf<M>, Snapshot<<M as Machine>::State>, Turns<M>, Global>;

pub struct RawCell<M: Machine> {
    pub(crate) table: Board<M>,
    ghost words: { table.shared.table_id.words ≡ 2 },
    ghost slots: { table.shared.table_id.slots ≡ 1 },
}

pub struct RawSeat<M: Machine> {
    pub(crate) seat: TableSeat<HeldOf<M>, ViewOf<M>>,
}

impl<M: Machine> RawCell<M> {
    pub fn new(
        alloc: Global,
        first: M::State,
    ) -> Result<(RawCell<M>, RawSeat<M>), (AllocError, M::State)>
        ensures cell { IfOk result (λ r. r.1.seat.table_id ≡ r.0.table.shared.table_id) }
        ensures first { IfOk result (λ r. r.0.table.shared.key.value ≡ first) }
        ensures seat { IfOk result (λ r. r.1.seat.me ≡ (first_view first, [])) }
        ensures back { IfErr result (λ e. e.1 ≡ first) }
    {
        let about = Snapshot::of(&first);
        let mut slots = Vec::new(alloc);
        if let Err(AllocFailed { value }) = slots.push(Some((first, None))) {
            slots.destroy_empty();
            return match value {
                Some((first, None)) => Err((AllocError, first)),
                _ => unreachable!(),
            };
        }
        match Table::new(alloc, &[0, 0], slots, &about) {
            Ok((table, seat)) => Ok((RawCell { table }, RawSeat { seat })),
            Err(Refused { mut slots }) => match slots.pop() {
                Some(Some((first, None))) => {
                    slots.destroy_empty();
                    Err((AllocError, first))
                }
                _ => unreachable!(),
            },
        }
    }

    // Tries to draw the ticket that is served. There is none where it was drawn, or where all are.
    fn try_draw(&self, seat: &mut RawSeat<M>) -> Option<u64>
        requires seat { seat.old.seat.table_id ≡ self.now.table.shared.table_id }
        requires down { seat.old.seat.me.0.lifted ≡ false }
        ensures seat { seat.new.seat.table_id ≡ seat.old.seat.table_id }
        ensures room { IfSome result (λ t. t < 18446744073709551615) }
        ensures some { IfSome result (λ t.
            seat.new.seat.me ≡ (with_ticket seat.old.seat.me.0 t, seat.old.seat.me.1)) }
        ensures none { IfNone result (seat.new.seat.me ≡ seat.old.seat.me) }
    {
        let next = self.table.shared.peek(1);
        if next == u64::MAX {
            return None;
        }
        let found = self
            .table
            .shared
            .compare_exchange::<Draw<M>>(&mut seat.seat, 0, next, next + 1);
        if found == next { Some(next) } else { None }
    }

    // Draws a ticket while no other is out, and looks some times for one. There is none where others
    // had the turn at each look.
    fn draw_free(&self, seat: &mut RawSeat<M>) -> Option<u64>
        requires seat { seat.old.seat.table_id ≡ self.now.table.shared.table_id }
        requires down { seat.old.seat.me.0.lifted ≡ false }
        ensures seat { seat.new.seat.table_id ≡ seat.old.seat.table_id }
        ensures room { IfSome result (λ t. t < 18446744073709551615) }
        ensures some { IfSome result (λ t.
            seat.new.seat.me ≡ (with_ticket seat.old.seat.me.0 t, seat.old.seat.me.1)) }
        ensures none { IfNone result (seat.new.seat.me ≡ seat.old.seat.me) }
    {
        for _ in 0..LOOKS {
            if self.table.shared.peek(0) == self.table.shared.peek(1) {
                if let Some(ticket) = self.try_draw(seat) {
                    return Some(ticket);
                }
            }
            hint::spin_loop();
        }
        None
    }

    // Sleeps until a turn ends, if one is out.
    fn sleep<R: Wait>(&self, rt: &R) {
        let served = self.table.shared.peek(1);
        if self.table.shared.peek(0) != served {
            self.table.shared.park(rt, 1, (served & 0xffff_ffff) as u32);
        }
    }

    // Draws a ticket, whose turn is there at once. So nobody who sleeps has one, and whoever runs while
    // a turn ends may have the next: no turn waits for a thread to wake.
    fn draw<R: Wait>(&self, rt: &R, seat: &mut RawSeat<M>) -> u64
        requires seat { seat.old.seat.table_id ≡ self.now.table.shared.table_id }
        requires down { seat.old.seat.me.0.lifted ≡ false }
        ensures seat { seat.new.seat.table_id ≡ seat.old.seat.table_id }
        ensures room { result < 18446744073709551615 }
        ensures ticket { seat.new.seat.me
            ≡ (with_ticket seat.old.seat.me.0 result, seat.old.seat.me.1) }
    {
        for _ in rt.forever() {
            if let Some(ticket) = self.draw_free(seat) {
                return ticket;
            }
            self.sleep(rt);
        }
        unreachable!()
    }

    // Answers the ticket that is served. Where it is the seat's own, the seat has lifted the state.
    fn look(&self, seat: &mut RawSeat<M>, ticket: u64) -> u64
        requires seat { seat.old.seat.table_id ≡ self.now.table.shared.table_id }
        requires ticket { seat.old.seat.me.0.ticket ≡ Some ticket }
        requires down { seat.old.seat.me.0.lifted ≡ false }
        ensures seat { seat.new.seat.table_id ≡ seat.old.seat.table_id }
        ensures lifts { MatchBool (result == ticket)
            (Lifts M.steps seat.old.seat.me seat.new.seat.me)
            (seat.new.seat.me ≡ seat.old.seat.me) }
    {
        self.table.shared.load::<Look<M>>(&mut seat.seat, 1)
    }

    // Waits for the turn of the ticket, which is there at the first look, since it was drawn while no
    // other was out. The rule would hold without that.
    fn wait<R: Wait>(&self, rt: &R, seat: &mut RawSeat<M>, ticket: u64)
        requires seat { seat.old.seat.table_id ≡ self.now.table.shared.table_id }
        requires ticket { seat.old.seat.me.0.ticket ≡ Some ticket }
        requires down { seat.old.seat.me.0.lifted ≡ false }
        ensures seat { seat.new.seat.table_id ≡ seat.old.seat.table_id }
        ensures lifts { Lifts M.steps seat.old.seat.me seat.new.seat.me }
    {
        for _ in rt.forever() {
            let found = self.look(seat, ticket);
            if found == ticket {
                return;
            }
            self.table.shared.park(rt, 1, (found & 0xffff_ffff) as u32);
        }
        unreachable!()
    }

    // Waits for the turn, and takes the state out of the slot.
    fn take_up<R: Wait>(&self, rt: &R, seat: &mut RawSeat<M>) -> (M::State, u64)
        requires seat { seat.old.seat.table_id ≡ self.now.table.shared.table_id }
        requires idle { Idle self.now.table.shared.key.value seat.old.seat.me }
        ensures seat { seat.new.seat.table_id ≡ seat.old.seat.table_id }
        ensures lifted { Lifted M.steps self.now.table.shared.key.value seat.old.seat.me
            result.0 result.1 seat.new.seat.me }
    {
        let ticket = self.draw(rt, seat);
        self.wait(rt, seat, ticket);
        let Some((state, _)) = self.table.shared.exchange(&mut seat.seat, 0, None) else {
            unreachable!()
        };
        (state, ticket)
    }

    // Puts the state home, with the call and the answer, and ends the turn.
    fn put_home(
        &self,
        seat: &mut RawSeat<M>,
        ticket: u64,
        state: M::State,
        call: Snapshot<M::Call>,
        answer: Snapshot<M::Answer>,
    )
        requires seat { seat.old.seat.table_id ≡ self.now.table.shared.table_id }
        requires ticket { seat.old.seat.me.0.ticket ≡ Some ticket }
        requires holds { (seat.old.seat.me.1 ≡ (0, None) ∷ [])
            × (seat.old.seat.me.0.lifted ≡ true) }
        requires share { 0 < seat.old.seat.me.0.part }
        requires step { M.steps
            (end_of self.now.table.shared.key.value (entries seat.old.seat.me.0.seen))
            call.value answer.value state }
        requires room { ticket < 18446744073709551615 }
        ensures seat { seat.new.seat.table_id ≡ seat.old.seat.table_id }
        ensures noted { seat.new.seat.me
            ≡ (with_note seat.old.seat.me.0 (note_in state (Some (call, answer))), []) }
    {
        let home = Some((state, Some((call, answer))));
        let None = self.table.shared.exchange(&mut seat.seat, 0, home) else {
            unreachable!()
        };
        self.table
            .shared
            .store::<Release<M>>(&mut seat.seat, 1, ticket + 1);
        self.table.shared.wake_one(1);
    }

    pub fn call<R: Wait>(&self, rt: &R, seat: &mut RawSeat<M>, call: M::Call) -> M::Answer
        requires seat { seat.old.seat.table_id ≡ self.now.table.shared.table_id }
        requires idle { Idle self.now.table.shared.key.value seat.old.seat.me }
        requires fits { M.fits call
            (end_of self.now.table.shared.key.value (entries seat.old.seat.me.0.seen)) }
        ensures seat { seat.new.seat.table_id ≡ seat.old.seat.table_id }
        ensures idle { Idle self.now.table.shared.key.value seat.new.seat.me }
        ensures call { Calls M.steps self.now.table.shared.key.value seat.old.seat.me.0 call result
            seat.new.seat.me.0 }
    {
        let (mut state, ticket) = self.take_up(rt, seat);
        let said = Snapshot::of(&call);
        let answer = M::step(&mut state, call);
        let told = Snapshot::of(&answer);
        self.put_home(seat, ticket, state, said, told);
        answer
    }

    pub fn close<R: Wait>(&self, rt: &R, mut seat: RawSeat<M>) -> M::State
        requires seat { seat.seat.table_id ≡ self.now.table.shared.table_id }
        requires idle { Idle self.now.table.shared.key.value seat.seat.me }
        ensures { Closes M.steps self.now.table.shared.key.value seat.seat.me.0 result }
    {
        let (state, _) = self.take_up(rt, &mut seat);
        state
    }

    pub fn split(&self, seat: &mut RawSeat<M>) -> RawSeat<M>
        requires seat { seat.old.seat.table_id ≡ self.now.table.shared.table_id }
        requires idle { Idle self.now.table.shared.key.value seat.old.seat.me }
        ensures seat { seat.new.seat.table_id ≡ seat.old.seat.table_id }
        ensures idle { Idle self.now.table.shared.key.value seat.new.seat.me }
        ensures left { seat.new.seat.me.0 ≡ left_view seat.old.seat.me.0 }
        ensures new_seat { result.seat.table_id ≡ seat.old.seat.table_id }
        ensures new_idle { Idle self.now.table.shared.key.value result.seat.me }
        ensures right { result.seat.me.0 ≡ right_view seat.old.seat.me.0 }
    {
        let other = self.table.shared.split_seat::<Halves<M>>(&mut seat.seat);
        RawSeat { seat: other }
    }

    pub fn join(&self, seat: &mut RawSeat<M>, other: RawSeat<M>)
        requires seat { seat.old.seat.table_id ≡ self.now.table.shared.table_id }
        requires idle { Idle self.now.table.shared.key.value seat.old.seat.me }
        requires other_seat { other.seat.table_id ≡ self.now.table.shared.table_id }
        requires other_idle { Idle self.now.table.shared.key.value other.seat.me }
        ensures seat { seat.new.seat.table_id ≡ seat.old.seat.table_id }
        ensures idle { Idle self.now.table.shared.key.value seat.new.seat.me }
        ensures agree { Agree seat.old.seat.me.0.seen other.seat.me.0.seen }
        ensures joined { seat.new.seat.me.0 ≡ joined_view seat.old.seat.me.0 other.seat.me.0 }
    {
        self.table
            .shared
            .join_seat::<Joint<M>>(&mut seat.seat, other.into_inner());
        self.table.shared.load::<Settle<M>>(&mut seat.seat, 0);
    }
}

impl<M: Machine> RawSeat<M> {
    pub(crate) fn into_inner(self) -> TableSeat<HeldOf<M>, ViewOf<M>>
        ensures { result ≡ self.seat }
    {
        let RawSeat { seat } = self;
        seat
    }
}

impl<M: Machine> Drop for RawCell<M> {
    fn drop(self) {
        let RawCell { table: _ } = self;
    }
}

impl<M: Machine> Drop for RawSeat<M> {
    fn drop(self) {
        let RawSeat { seat: _ } = self;
    }
}
