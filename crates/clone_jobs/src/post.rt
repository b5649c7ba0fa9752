//! Where a job makes its calls: at a seat of the donor that it shares, with a gate that it passes
//! after each of them.
ghost use Rattle.std.specs.Prelude.{◌≡◌, [], ◌∷◌, IsSome, Some};
ghost use Rattle.clone_turn.specs.Seats.{IsOf};
ghost use Rattle.clone_jobs.specs.Said.{IsAnswered, Says, archived_in, archiving, asking, engine, engine_in, halted_in, halting};

use clone_calls::{DonorAnswer, DonorCall};
use clone_machine::{DonorMachine, JobAnswer, JobCall};
use clone_outside::{Gate, PageDisk, Point};
use clone_plain::{EngineAnswer, EngineCall, EngineRefusal};
use clone_turn::{Seat, TurnCell};
use std::alloc::AllocError;
use std::sync::Wait;
use std::thread;
use std::time::{Clock, Duration};

/// How many milliseconds a job sleeps that has nothing to do for now.
const REST: u64 = 1;

/// Where a job makes its calls. The point is its own, which it passes after each call but a commit.
#[derive(Drop)]
pub(crate) struct Post<'a, D: PageDisk + Send + Drop, G, H> {
    pub(crate) cell: &'a TurnCell<DonorMachine<D>>,
    pub(crate) gate: &'a G,
    pub(crate) rt: &'a H,
    pub(crate) point: Point,
}

impl<'a, D: PageDisk + Send + Drop, G: Gate, H: Wait + Clock> Post<'a, D, G, H> {
    /// Whether the run is to end.
    pub(crate) fn is_halted(&self, seat: &mut Seat<DonorMachine<D>>) -> bool
        requires { IsOf self.now.cell.now seat.old }
        ensures said { Says (asking result ∷ []) seat.old seat.new }
        ensures seat { IsOf self.now.cell.now seat.new }
    {
        let halted = halted_in(&self.ask(seat, JobCall::Halted));
        self.gate.pass(self.point);
        halted
    }

    /// The run is to end.
    pub(crate) fn halt(&self, seat: &mut Seat<DonorMachine<D>>)
        requires { IsOf self.now.cell.now seat.old }
        ensures said { Says (halting ∷ []) seat.old seat.new }
        ensures seat { IsOf self.now.cell.now seat.new }
    {
        let _halted = self.ask(seat, JobCall::Halt);
        self.gate.pass(self.point);
    }

    /// Makes a call of the engine.
    pub(crate) fn engine(
        &self,
        seat: &mut Seat<DonorMachine<D>>,
        call: EngineCall,
    ) -> Result<EngineAnswer, EngineRefusal>
        requires { IsOf self.now.cell.now seat.old }
        ensures said { Says (engine call result ∷ []) seat.old seat.new }
        ensures seat { IsOf self.now.cell.now seat.new }
    {
        let asked = DonorCall::Engine { call };
        let answer = self.ask(seat, JobCall::Donor { call: asked });
        let given = engine_in(answer);
        self.gate.pass(self.point_after(&given));
        given
    }

    /// Archives so many bytes of redo at most.
    pub(crate) fn archive(
        &self,
        seat: &mut Seat<DonorMachine<D>>,
        limit: u64,
    ) -> Result<Option<u64>, AllocError>
        requires { IsOf self.now.cell.now seat.old }
        ensures said { Says (archiving limit result ∷ []) seat.old seat.new }
        ensures seat { IsOf self.now.cell.now seat.new }
    {
        let asked = DonorCall::Archive { limit };
        let answer = self.ask(seat, JobCall::Donor { call: asked });
        self.gate.pass(self.point);
        archived_in(answer)
    }

    /// Sleeps for a while.
    pub(crate) fn rest(&self) {
        thread::sleep(self.rt, Duration::from_millis(REST));
    }

    /// Makes a call in a turn of the donor.
    fn ask(&self, seat: &mut Seat<DonorMachine<D>>, call: JobCall) -> JobAnswer
        requires { IsOf self.now.cell.now seat.old }
        ensures said { Says (record { call = call; answer = result } ∷ []) seat.old seat.new }
        ensures fits { IsAnswered call result }
        ensures seat { IsOf self.now.cell.now seat.new }
    {
        self.cell.call(self.rt, seat, call)
    }

    /// The point that is passed after this answer of the engine.
    fn point_after(&self, given: &Result<EngineAnswer, EngineRefusal>) -> Point {
        match self.point {
            Point::Writer(number) if is_commit(given) => Point::Commit(number),
            point => point,
        }
    }
}

/// Whether a transaction was committed.
fn is_commit(given: &Result<EngineAnswer, EngineRefusal>) -> bool {
    matches!(given, Ok(EngineAnswer::Commit { .. }))
}

/// What is answered to the question whether the run is to end.
fn halted_in(answer: &JobAnswer) -> bool
    requires { IsSome (halted_in answer.now) }
    ensures { halted_in answer.now ≡ Some result }
{
    match answer {
        JobAnswer::Halted(halted) => *halted,
        _ => unreachable!(),
    }
}

/// What an engine answered.
fn engine_in(answer: JobAnswer) -> Result<EngineAnswer, EngineRefusal>
    requires { IsSome (engine_in answer) }
    ensures { engine_in answer ≡ Some result }
{
    let JobAnswer::Donor(given) = answer else {
        unreachable!()
    };
    match given {
        DonorAnswer::Engine(result) => result,
        _ => unreachable!(),
    }
}

/// Up to where redo is archived.
fn archived_in(answer: JobAnswer) -> Result<Option<u64>, AllocError>
    requires { IsSome (archived_in answer) }
    ensures { archived_in answer ≡ Some result }
{
    let JobAnswer::Donor(given) = answer else {
        unreachable!()
    };
    match given {
        DonorAnswer::Archive(result) => result,
        _ => unreachable!(),
    }
}
