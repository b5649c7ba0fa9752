//! A server holds a seat at the cell of a donor: the seat is always one of that cell.
ghost use Rattle.std.specs.Prelude.{◌≡◌, ◌≤◌, true};
ghost use Rattle.std.specs.Arc.{arc_value};
ghost use Rattle.clone_turn.specs.Seats.{IsOf};
ghost use Rattle.clone_calls.specs.Answering.{IsAnswerTo};
ghost use Rattle.clone_serve.specs.Stepping as serve;
ghost use Rattle.clone_machine.specs.Sharing.{SharedDonor, Steps};
ghost use Rattle.clone_machine.specs.declared.calls.JobAnswer.TheVariants as job_answer;
ghost use Rattle.clone_machine.specs.declared.calls.JobCall.TheVariants as job;
ghost use Rattle.clone_links.specs.Calling.{Gives, IsOneCall, Works};
ghost use Rattle.clone_links.specs.Ending.{RoseIfLost};
ghost use Rattle.clone_links.specs.Serving.{Serves};

use crate::ServeEnd;
use crate::service::Service;
use clone_calls::{DonorAnswer, DonorCall};
use clone_machine::{DonorMachine, JobAnswer, JobCall};
use clone_outside::{Gate, Link, PageDisk, Point};
use clone_serve::{ServeAnswer, ServeCore, ServeTurn};
use clone_turn::{Seat, TurnCell};
use std::alloc::Global;
use std::marker::Model;
use std::sync::atomic::AtomicU64;
use std::sync::{Arc, Wait};
use std::time::Duration;

// How long a server sleeps where there is nothing to do.
const PAUSE_MICROS: u64 = 200;

/// The donor's side of a task: its seat at a donor that jobs share, and the gate that it passes
/// after each call. Contracts see the donor's cell and the seat.
#[derive(Drop)]
pub struct Server<D: PageDisk + Send + Drop, G: Gate, H: Wait> {
    rt: H,
    cell: Arc<TurnCell<DonorMachine<D>>>,
    seat: Seat<DonorMachine<D>>,
    task: u8,
    gate: Arc<G>,
}

impl<D: PageDisk + Send + Drop, G: Gate, H: Wait> Model for Server<D, G, H> {
    ghost use Rattle.std.specs.Arc.{arc_value};
    ghost use Rattle.std.specs.Coded.{codes};
    ghost use Rattle.clone_turn.specs.Seats.{IsOf};
    ghost use Rattle.clone_track.specs.TrackedPages.{tracked_pages_code};
    ghost use Rattle.clone_engine.specs.Codes.{engine_code};
    ghost use Rattle.clone_links.specs.Calling.{Server};

    ghost Value = { Server };

    ghost coded = { Prim.hlevel (codes, engine_code, tracked_pages_code) };

    ghost view = { λ s. record { cell = arc_value s.cell; seat = s.seat } };

    ghost invariant = { λ s. IsOf (arc_value s.cell) s.seat };
}

impl<D: PageDisk + Send + Drop, G: Gate + Drop, H: Wait + Drop> Server<D, G, H> {
    /// The server of a task, which calls the donor by this seat.
    pub fn new(
        rt: H,
        cell: Arc<TurnCell<DonorMachine<D>>>,
        seat: Seat<DonorMachine<D>>,
        task: u8,
        gate: Arc<G>,
    ) -> Server<D, G, H>
        requires { IsOf (arc_value cell) seat }
        ensures { result ≡ record { cell = arc_value cell; seat = seat } }
    {
        Server {
            rt,
            cell,
            seat,
            task,
            gate,
        }
    }

    /// Gives the seat back.
    pub fn into_seat(self) -> Seat<DonorMachine<D>>
        ensures seat { result ≡ self.seat }
        ensures of { IsOf self.cell result }
    {
        let Server {
            rt: _,
            cell: _,
            seat,
            task: _,
            gate: _,
        } = self;
        seat
    }
}

impl<D: PageDisk + Send + Drop, G: Gate, H: Wait> Server<D, G, H> {
    // One call in its turn.
    fn call(&mut self, call: JobCall) -> JobAnswer
        ensures made { Works (IsOneCall call result) self.old self.new }
        ensures step { (s : SharedDonor) × (t : SharedDonor) × Steps s call result t }
    {
        self.cell.call(&self.rt, &mut self.seat, call)
    }

    // A call of the donor.
    fn ask(&mut self, call: DonorCall) -> DonorAnswer
        ensures made { Gives self.old call result self.new }
        ensures fits { IsAnswerTo call result }
    {
        match self.call(JobCall::Donor { call }) {
            JobAnswer::Donor(answer) => answer,
            _ => unreachable!(),
        }
    }

    // The same, and the gate is passed after it.
    fn answer(&mut self, call: DonorCall) -> DonorAnswer
        ensures made { Gives self.old call result self.new }
        ensures fits { IsAnswerTo call result }
    {
        let answer = self.ask(call);
        let point = match &answer {
            DonorAnswer::ReadBlock(Ok(_)) => Point::Block(self.task),
            _ => Point::Serve(self.task),
        };
        self.gate.pass(point);
        answer
    }

    /// A whole step of the donor's side of a connection: each call that it asks for is made.
    pub(crate) fn step(
        &mut self,
        alloc: Global,
        core: &mut ServeCore,
        received: &mut Vec<u8>,
        sent: &mut Vec<u8>,
    ) -> ServeAnswer
        ensures { serve.Steps Gives self.old self.new core.old received.old.items received.new.items
            sent.old.items sent.new.items core.new result }
    {
        let mut turn = core.begin_step(alloc, received);
        loop {
            match turn {
                ServeTurn::Done(says) => return says,
                ServeTurn::Ask(call) => {
                    let answer = self.answer(call);
                    turn = core.go_on(alloc, answer, sent);
                }
            }
        }
    }

    // Asks whether the run is to end.
    fn ask_halted(&mut self) -> bool
        ensures { Works (IsOneCall job.Halted (job_answer.Halted result)) self.old self.new }
    {
        match self.call(JobCall::Halted) {
            JobAnswer::Halted(halted) => halted,
            _ => unreachable!(),
        }
    }

    /// Whether the run is to end.
    pub fn is_halted(&mut self) -> bool
        ensures { Works (IsOneCall job.Halted (job_answer.Halted result)) self.old self.new }
    {
        let halted = self.ask_halted();
        self.gate.pass(Point::Serve(self.task));
        halted
    }

    // Asks that the run ends.
    fn ask_halt(&mut self)
        ensures { Works (IsOneCall job.Halt job_answer.Halt) self.old self.new }
    {
        match self.call(JobCall::Halt) {
            JobAnswer::Halt => {}
            _ => unreachable!(),
        }
    }

    /// Lets the run end.
    pub fn halt(&mut self)
        ensures { Works (IsOneCall job.Halt job_answer.Halt) self.old self.new }
    {
        self.ask_halt();
        self.gate.pass(Point::Serve(self.task));
    }

    /// Sleeps a short time, since there is nothing to do.
    pub fn rest(&self) {
        let never_changed = AtomicU64::new(0);
        never_changed.park_timeout(&self.rt, 0, Duration::from_micros(PAUSE_MICROS));
    }
}

impl<D: PageDisk + Send + Drop, G: Gate, H: Wait + Copy> Server<D, G, H> {
    /// Serves a connection until its requester has left, it is lost, the donor refuses or fails,
    /// or the run is to end. Each turn begins with the look whether it is, and where nothing is to
    /// be done and nothing came, the server sleeps a short time.
    pub fn serve<L: Link>(&mut self, alloc: Global, link: &mut L) -> ServeEnd
        requires { L.is_open link.old ≡ true }
        ensures serves { Serves self.old self.new result (L.received link.old)
            (L.received link.new) (L.sent link.old) (L.sent link.new) }
        ensures lost { RoseIfLost result (L.failures link.old) (L.failures link.new) }
        ensures count { L.failures link.old ≤ L.failures link.new }
        ensures name { ◌≡◌ (L.name link.new) (L.name link.old) }
        ensures side { L.side link.new ≡ L.side link.old }
        ensures open { L.is_open link.new ≡ L.is_open link.old }
    {
        let rt = self.rt;
        let mut service = Service::new(alloc);
        for _ in rt.forever() {
            if let Err(end) = service.turn(alloc, self, link) {
                return end;
            }
        }
        unreachable!()
    }
}
