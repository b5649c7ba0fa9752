//! A task that fetches.
ghost use Rattle.std.specs.Prelude.{◌≡◌, ◌++◌, [], List, None, true, false, IfErr, IfOk, IfSome, IsOk};
ghost use Rattle.clone_turn.specs.Worked.{Worked};
ghost use Rattle.clone_fetching.specs.declared.machine.RecipientAnswer.TheVariants as answer;
ghost use Rattle.clone_fetching.specs.declared.machine.RecipientCall.TheVariants as call;
ghost use Rattle.clone_copying.specs.Calling.{IsOne};
ghost use Rattle.clone_copying.specs.Calls.{IsStep, Works, put, taken};
ghost use Rattle.clone_copying.specs.Connecting.{AreLent, Connects, WasRefused};
ghost use Rattle.clone_copying.specs.Fetching.{AreOver, Fetches, HasCause};
ghost use Rattle.clone_copying.specs.Passing.{Acts, GoesOn};
ghost use Rattle.clone_copying.specs.Turning.{Because, GoesOnOrHalts, IsAsked, IsTurn, Waits};
ghost use Rattle.clone_copying.specs.Watching.{AreLooks, HasLooked, WasHalted};

use crate::caller::Caller;
use crate::fetch_end::FetchEnd;
use crate::pause::Pause;
use crate::talk::Talk;
use crate::turn::Turn;
use clone_desk::DeskMachine;
use clone_fetch::{FetchCore, TaskAnswer};
use clone_fetching::{RecipientMachine, TaskStep, TaskStepped};
use clone_outside::{Gate, Link, Net, PageDisk, Point, Refusal};
use clone_tasks::Link as LinkState;
use clone_turn::Seat;
use clone_watch::Watched;
use std::alloc::{AllocError, Global};
use std::marker::Model;
use std::mem;
use std::sync::{Arc, Wait};

// The code of STAGE, which comes before each stage.
const STAGE: u8 = 16;

/// The requester's side of a task. It calls a recipient that tasks share, and passes the gate after
/// each call. Contracts see its seat there, its number, its side of its connection, and the
/// position that was looked up last.
#[derive(Drop)]
pub struct Fetcher<R: PageDisk + Send + Drop, G: Gate, H: Wait> {
    rt: H,
    alloc: Global,
    recipient: Caller<RecipientMachine<R>, H>,
    gate: Arc<G>,
    task: u8,
    core: FetchCore,
    floor: u64,
    pause: Pause,
}

impl<R: PageDisk + Send + Drop, G: Gate, H: Wait> Model for Fetcher<R, G, H> {
    ghost use Rattle.std.specs.Coded.{codes};
    ghost use Rattle.clone_recipient.specs.Receptions.{sizes_code};
    ghost use Rattle.clone_copying.specs.Calls.{FetcherModel};

    ghost Value = { FetcherModel R };

    ghost coded = { Prim.hlevel (codes, sizes_code, R.code) };

    ghost view = { λ f. record {
      seat = f.recipient;
      task = f.task;
      core = f.core;
      floor = f.floor;
    } };
}

impl<R: PageDisk + Send + Drop, G: Gate + Drop, H: Wait + Copy + Drop> Fetcher<R, G, H> {
    /// A task that hasn't connected yet.
    pub fn new(
        rt: H,
        alloc: Global,
        recipient: Caller<RecipientMachine<R>, H>,
        task: u8,
        gate: Arc<G>,
    ) -> Fetcher<R, G, H>
        ensures { result ≡ record { seat = recipient; task = task; core = None; floor = 0 } }
    {
        Fetcher {
            rt,
            alloc,
            recipient,
            gate,
            task,
            core: FetchCore::new(),
            floor: 0,
            pause: Pause::shortest(),
        }
    }

    /// Gives the seat back.
    pub fn into_seat(self) -> Seat<RecipientMachine<R>>
        ensures { result ≡ self.seat }
    {
        let Fetcher {
            rt: _,
            alloc: _,
            recipient,
            gate: _,
            task: _,
            core: _,
            floor: _,
            pause: _,
        } = self;
        recipient.into_seat()
    }
}

impl<R: PageDisk + Send + Drop, G: Gate, H: Wait + Copy> Fetcher<R, G, H> {
    /// Fetches until the clone has ended, the run was halted, or something failed.
    pub fn fetch<N: Net + Send + Drop, M: Watched>(
        &mut self,
        desk: &mut Caller<DeskMachine<N>, H>,
        watch: &mut Caller<M, H>,
    ) -> FetchEnd
    where
        N::End: Send + Drop,
        ensures fetches { (ends : List (N.End × N.End))
            × Worked (Connects self.old.task ends) desk.old desk.new
            × Works (λ made. Fetches N.End.Link self.old.task
            (HasLooked M.asks_position M.position_of watch.new) self.old.core ends made
            self.new.core
            × HasCause (WasRefused self.old.task desk.new)
            (WasHalted M.asks_halted M.is_halted watch.new) result made) self.old self.new }
        ensures looks { Worked (AreLooks M.asks_halted M.asks_position) watch.old watch.new }
    {
        let rt = self.rt;
        if !self.look(watch) {
            return FetchEnd::Halted;
        }
        for _ in rt.forever() {
            if let Some(end) = self.fetch_once(desk, watch) {
                return end;
            }
        }
        unreachable!()
    }

    // Fetches over one connection. None comes where that is over, and the task goes on.
    fn fetch_once<N: Net + Send + Drop, M: Watched>(
        &mut self,
        desk: &mut Caller<DeskMachine<N>, H>,
        watch: &mut Caller<M, H>,
    ) -> Option<FetchEnd>
    where
        N::End: Send + Drop,
        requires looked { HasLooked M.asks_position M.position_of watch.old self.old.floor }
        ensures fetches { (ends : List (N.End × N.End))
            × Worked (λ made. Connects self.old.task ends made
            × (result ≡ None → AreLent self.old.task ends made)) desk.old desk.new
            × Works (λ made. Fetches N.End.Link self.old.task
            (HasLooked M.asks_position M.position_of watch.new) self.old.core ends made
            self.new.core
            × (result ≡ None → AreOver N.End.Link ends made)
            × IfSome result (λ end. HasCause (WasRefused self.old.task desk.new)
            (WasHalted M.asks_halted M.is_halted watch.new) end made)) self.old self.new }
        ensures looked { HasLooked M.asks_position M.position_of watch.new self.new.floor }
        ensures looks { Worked (AreLooks M.asks_halted M.asks_position) watch.old watch.new }
    {
        let first = match self.open(watch) {
            Ok(first) => first,
            Err(end) => return Some(end),
        };
        let (place, end) = match desk.connect(self.task) {
            Ok(made) => made,
            Err(cause) => return Some(FetchEnd::refused(cause)),
        };
        let mut talk = Talk::new(self.alloc, end);
        let ended = self.converse(&mut talk, &first, watch);
        desk.give_back(place, talk.close());
        ended
    }

    // Makes steps without a connection until the task puts out its first command.
    fn open<M: Watched>(&mut self, watch: &mut Caller<M, H>) -> Result<Vec<u8>, FetchEnd>
        requires looked { HasLooked M.asks_position M.position_of watch.old self.old.floor }
        ensures opens { Works (λ made. Waits self.old.task
            (HasLooked M.asks_position M.position_of watch.new) self.old.core made self.new.core
            × IfOk result (λ first. put made ≡ first.items)
            × IfErr result (λ end.
            HasCause ⊥ (WasHalted M.asks_halted M.is_halted watch.new) end made))
            self.old self.new }
        ensures looked { HasLooked M.asks_position M.position_of watch.new self.new.floor }
        ensures looks { Worked (AreLooks M.asks_halted M.asks_position) watch.old watch.new }
    {
        let rt = self.rt;
        let mut sent = Vec::new(self.alloc);
        for _ in rt.forever() {
            match self.wait_apart(&mut sent, watch) {
                Turn::GoesOn => {}
                Turn::Over => return Ok(sent),
                Turn::Ended(end) => return Err(end),
            }
        }
        unreachable!()
    }

    // A step without a connection. That is over where the first command was put out.
    fn wait_apart<M: Watched>(&mut self, sent: &mut Vec<u8>, watch: &mut Caller<M, H>) -> Turn
        requires looked { HasLooked M.asks_position M.position_of watch.old self.old.floor }
        ensures waits { Works (λ made. Waits self.old.task
            (HasLooked M.asks_position M.position_of watch.new) self.old.core made self.new.core
            × (sent.new.items ≡ sent.old.items ++ put made)
            × Because (WasHalted M.asks_halted M.is_halted watch.new) result made)
            self.old self.new }
        ensures looked { HasLooked M.asks_position M.position_of watch.new self.new.floor }
        ensures looks { Worked (AreLooks M.asks_halted M.asks_position) watch.old watch.new }
    {
        let put_out = mem::replace(sent, Vec::new(self.alloc));
        let stepped = self.step(LinkState::Absent, Vec::new(self.alloc), put_out);
        *sent = stepped.sent;
        match stepped.answer {
            TaskAnswer::Sent { .. } => Turn::Over,
            TaskAnswer::NoMemory => Turn::Ended(FetchEnd::NoMemory),
            _ => self.rest(watch),
        }
    }

    // Sends the first command, and takes turns. None comes where the connection is over.
    fn converse<L: Link, M: Watched>(
        &mut self,
        talk: &mut Talk<L>,
        first: &[u8],
        watch: &mut Caller<M, H>,
    ) -> Option<FetchEnd>
        requires open { L.is_open talk.old.end ≡ true }
        requires looked { HasLooked M.asks_position M.position_of watch.old self.old.floor }
        ensures acts { Works (λ made. Acts L.Link self.old.task
            (HasLooked M.asks_position M.position_of watch.new) self.old.core
            first.now talk.old talk.new.end made self.new.core
            × IfSome result (λ end.
            HasCause ⊥ (WasHalted M.asks_halted M.is_halted watch.new) end made))
            self.old self.new }
        ensures looked { HasLooked M.asks_position M.position_of watch.new self.new.floor }
        ensures looks { Worked (AreLooks M.asks_halted M.asks_position) watch.old watch.new }
    {
        match talk.send(first) {
            Ok(()) => self.take_turns(talk, watch),
            Err(_) => Some(FetchEnd::NoMemory),
        }
    }

    // Takes turns until the connection is over, which is answered by none.
    fn take_turns<L: Link, M: Watched>(
        &mut self,
        talk: &mut Talk<L>,
        watch: &mut Caller<M, H>,
    ) -> Option<FetchEnd>
        requires open { L.is_open talk.old.end ≡ true }
        requires looked { HasLooked M.asks_position M.position_of watch.old self.old.floor }
        ensures acts { Works (λ made. Acts L.Link self.old.task
            (HasLooked M.asks_position M.position_of watch.new) self.old.core
            [] talk.old talk.new.end made self.new.core
            × IfSome result (λ end.
            HasCause ⊥ (WasHalted M.asks_halted M.is_halted watch.new) end made))
            self.old self.new }
        ensures looked { HasLooked M.asks_position M.position_of watch.new self.new.floor }
        ensures looks { Worked (AreLooks M.asks_halted M.asks_position) watch.old watch.new }
    {
        let rt = self.rt;
        for _ in rt.forever() {
            match self.turn(talk, watch) {
                Turn::GoesOn => {}
                Turn::Over => return None,
                Turn::Ended(end) => return Some(end),
            }
        }
        unreachable!()
    }

    // A turn: a step over the connection, and what its answer asks for.
    fn turn<L: Link, M: Watched>(&mut self, talk: &mut Talk<L>, watch: &mut Caller<M, H>) -> Turn
        requires open { L.is_open talk.old.end ≡ true }
        requires looked { HasLooked M.asks_position M.position_of watch.old self.old.floor }
        ensures is_turn { Works (λ made. IsTurn L.Link self.old.task
            (HasLooked M.asks_position M.position_of watch.new) self.old.core
            (WasHalted M.asks_halted M.is_halted watch.new) talk.old talk.new result made
            self.new.core) self.old self.new }
        ensures looked { HasLooked M.asks_position M.position_of watch.new self.new.floor }
        ensures looks { Worked (AreLooks M.asks_halted M.asks_position) watch.old watch.new }
    {
        let Ok(answer) = self.act(talk) else {
            return Turn::Ended(FetchEnd::NoMemory);
        };
        match answer {
            TaskAnswer::Lost { .. } | TaskAnswer::Stale => Turn::Over,
            TaskAnswer::NoMemory => Turn::Ended(FetchEnd::NoMemory),
            TaskAnswer::Idle => self.wait(talk, watch),
            TaskAnswer::Ended(_) => self.rest(watch),
            TaskAnswer::Took(took) if took.code == STAGE => self.look_on(watch),
            TaskAnswer::Took(_) | TaskAnswer::Sent { .. } => {
                self.pause = Pause::shortest();
                Turn::GoesOn
            }
        }
    }

    // A step over the connection. What it puts out is sent. The error is out of memory.
    fn act<L: Link>(&mut self, talk: &mut Talk<L>) -> Result<TaskAnswer, AllocError>
        requires open { L.is_open talk.old.end ≡ true }
        ensures acts { Works (λ made.
            Acts L.Link self.old.task (λ n. n ≡ self.old.floor) self.old.core [] talk.old
            talk.new.end made self.new.core
            × (IsOk result → GoesOn L.Link talk.old talk.new (taken made) (put made)))
            self.old self.new }
        ensures floor { self.new.floor ≡ self.old.floor }
    {
        let received = mem::replace(&mut talk.left, Vec::new(self.alloc));
        let stepped = self.step(talk.state(), received, Vec::new(self.alloc));
        talk.left = stepped.received;
        talk.send(&stepped.sent)?;
        Ok(stepped.answer)
    }

    // No whole frame is there: what came is received. Where nothing came the task rests.
    fn wait<L: Link, M: Watched>(&mut self, talk: &mut Talk<L>, watch: &mut Caller<M, H>) -> Turn
        requires open { L.is_open talk.old.end ≡ true }
        requires looked { HasLooked M.asks_position M.position_of watch.old self.old.floor }
        ensures is_turn { Works (λ made. IsTurn L.Link self.old.task
            (HasLooked M.asks_position M.position_of watch.new) self.old.core
            (WasHalted M.asks_halted M.is_halted watch.new) talk.old talk.new result made
            self.new.core) self.old self.new }
        ensures looked { HasLooked M.asks_position M.position_of watch.new self.new.floor }
        ensures looks { Worked (AreLooks M.asks_halted M.asks_position) watch.old watch.new }
    {
        match talk.receive() {
            Ok(true) => Turn::GoesOn,
            Ok(false) => self.rest(watch),
            Err(_) => Turn::Ended(FetchEnd::NoMemory),
        }
    }

    // There is nothing to be done. Unless the clone has ended the task sleeps, and looks whether
    // the run goes on.
    fn rest<M: Watched>(&mut self, watch: &mut Caller<M, H>) -> Turn
        requires looked { HasLooked M.asks_position M.position_of watch.old self.old.floor }
        ensures rests { Works (λ made.
            IsAsked made × Because (WasHalted M.asks_halted M.is_halted watch.new) result made)
            self.old self.new }
        ensures core { self.new.core ≡ self.old.core }
        ensures looked { HasLooked M.asks_position M.position_of watch.new self.new.floor }
        ensures looks { Worked (AreLooks M.asks_halted M.asks_position) watch.old watch.new }
    {
        let told = self.recipient.ended();
        self.gate.pass(Point::Fetch(self.task));
        match told {
            Ok(Some(how)) => Turn::Ended(FetchEnd::Ended(how)),
            Ok(None) => {
                self.pause.sleep(&self.rt);
                self.look_on(watch)
            }
            Err(_) => Turn::Ended(FetchEnd::NoMemory),
        }
    }

    // Looks the position up. The fetch ends where the run was halted.
    fn look_on<M: Watched>(&mut self, watch: &mut Caller<M, H>) -> Turn
        requires looked { HasLooked M.asks_position M.position_of watch.old self.old.floor }
        ensures halts { GoesOnOrHalts (WasHalted M.asks_halted M.is_halted watch.new) result }
        ensures same { self.new ≡ record self.old { floor = self.new.floor } }
        ensures looked { HasLooked M.asks_position M.position_of watch.new self.new.floor }
        ensures looks { Worked (AreLooks M.asks_halted M.asks_position) watch.old watch.new }
    {
        if self.look(watch) {
            Turn::GoesOn
        } else {
            Turn::Ended(FetchEnd::Halted)
        }
    }

    // Looks the donor's position up, and answers whether the run goes on.
    fn look<M: Watched>(&mut self, watch: &mut Caller<M, H>) -> bool
        ensures looked { result ≡ true
            → HasLooked M.asks_position M.position_of watch.new self.new.floor }
        ensures halted { result ≡ false
            → WasHalted M.asks_halted M.is_halted watch.new × (self.new ≡ self.old) }
        ensures same { self.new ≡ record self.old { floor = self.new.floor } }
        ensures looks { Worked (AreLooks M.asks_halted M.asks_position) watch.old watch.new }
    {
        match watch.look() {
            Some(position) => {
                self.floor = position;
                true
            }
            None => false,
        }
    }

    // A step of the task over a connection in this state. The gate is passed after it.
    fn step(&mut self, link: LinkState, received: Vec<u8>, sent: Vec<u8>) -> TaskStepped
        ensures step { Worked (IsStep (record {
          core = self.old.core;
          task = self.old.task;
          link = link;
          floor = self.old.floor;
          received = received;
          sent = sent;
        }) result) self.old.seat self.new.seat }
        ensures same { self.new
            ≡ record self.old { seat = self.new.seat; core = result.core } }
    {
        let stepped = self.recipient.step(TaskStep {
            core: self.core,
            task: self.task,
            link,
            floor: self.floor,
            received,
            sent,
        });
        self.gate.pass(Point::Fetch(self.task));
        self.core = stepped.core;
        stepped
    }
}
