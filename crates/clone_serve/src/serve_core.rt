//! The donor's side of one connection: what it is doing, and nothing of what it has done. A command
//! or an EXECUTE asks for a call; what follows its answer is done once the answer comes.
ghost use Rattle.std.specs.Prelude.{◌≡◌, ◌⊎◌, IsSome, OnErr, OnOk};
ghost use Rattle.clone_serve.specs.Commands.{command_of};
ghost use Rattle.clone_serve.specs.Serving.{AsksFor, Awaits, Begins, Fails, Follows, GoesOn};
ghost use Rattle.clone_serve.specs.Serving.{IsOfDonor, IsOver, TakesCommand, WasSent, is_over};
ghost use Rattle.clone_serve.specs.Serving.{with_frame};
ghost use Rattle.clone_serve.specs.declared.after.After.TheVariants.{Ends};
ghost use Rattle.clone_serve.specs.declared.doing.Doing.TheVariants.{New, Over};
ghost use Rattle.clone_serve.specs.declared.turn.ServeAnswer.TheVariants.{NoMemory};
ghost use Rattle.clone_serve.specs.declared.turn.ServeTurn.TheVariants.{Done};

use crate::commands::{command_of, is_out_of_turn};
use crate::following::{after, call_in};
use crate::{After, Command, Doing, ServeAnswer, ServeTurn};
use clone_calls::DonorAnswer;
use clone_session::Caller;
use clone_stream::{StreamRefusal, keep_front, put_frame, take_frame};
use clone_wire::{Frame, Side};
use std::alloc::{AllocError, Global};
use std::marker::Model;

/// The donor's side of one connection.
#[derive(Drop)]
pub struct ServeCore {
    doing: Doing,
}

impl Model for ServeCore {
    ghost use Rattle.clone_serve.specs.declared.doing.Doing.{Doing};

    ghost Value = { Doing };

    ghost view = { λ c. c.doing };
}

impl ServeCore {
    /// The side of a new connection. This takes no memory.
    pub fn new() -> ServeCore
        ensures { result ≡ New }
    {
        ServeCore { doing: Doing::New }
    }

    /// Whether it is over, so that its steps do nothing.
    pub fn is_over(&self) -> bool
        ensures { result ≡ is_over self.now }
    {
        matches!(self.doing, Doing::Over)
    }

    /// What it is doing.
    pub fn doing(&self) -> Doing
        ensures { result ≡ self.now }
    {
        self.doing
    }

    /// A step begins: it asks for the next call of an EXECUTE, or for that of a command, which is
    /// taken from the bytes that were received.
    pub fn begin_step(&mut self, alloc: Global, received: &mut Vec<u8>) -> ServeTurn
        ensures { Begins self.old received.old.items received.new.items self.new result }
    {
        match self.doing {
            Doing::New => self.take_command(alloc, None, received),
            Doing::Ready { caller } => self.take_command(alloc, Some(caller), received),
            Doing::Serving { execution, work } => ServeTurn::Ask(call_in(execution, work)),
            Doing::Telling { .. } | Doing::Starting { .. } | Doing::Leaving | Doing::Over => {
                ServeTurn::Done(ServeAnswer::Idle)
            }
        }
    }

    /// A step goes on with the answer to the call that it asked for last.
    pub fn go_on(&mut self, alloc: Global, answer: DonorAnswer, sent: &mut Vec<u8>) -> ServeTurn
        requires { Awaits self.old answer }
        ensures { GoesOn self.old answer sent.old.items sent.new.items self.new result }
    {
        match after(self.doing, answer) {
            After::Asks { execution, work } => {
                self.doing = Doing::Serving { execution, work };
                ServeTurn::Ask(call_in(execution, work))
            }
            After::Ends { doing, sends, says } => self.end(alloc, doing, sends, says, sent),
        }
    }

    // The step ends, once the frame is sent, if there is one.
    fn end(
        &mut self,
        alloc: Global,
        doing: Doing,
        sends: Option<Frame>,
        says: ServeAnswer,
        sent: &mut Vec<u8>,
    ) -> ServeTurn
        requires { IsOfDonor sends }
        ensures { Follows (Ends doing sends says) sent.old.items sent.new.items self.new result
            ⊎ Fails sent.old.items sent.new.items self.new result }
    {
        if send(alloc, &sends, sent).is_err() {
            return self.no_memory();
        }
        self.doing = doing;
        ServeTurn::Done(says)
    }

    // Takes a command from the bytes, where one in turn is there.
    fn take_command(
        &mut self,
        alloc: Global,
        bound: Option<Caller>,
        received: &mut Vec<u8>,
    ) -> ServeTurn
        ensures { TakesCommand bound received.old.items received.new.items self.old self.new
            result }
    {
        if is_out_of_turn(bound, received) {
            return self.garbled(alloc, received);
        }
        match take_frame(alloc, received, Side::Command) {
            Ok(Some(frame)) => self.ask(bound, frame),
            Ok(None) => ServeTurn::Done(ServeAnswer::Idle),
            Err(StreamRefusal::Garbled) => self.garbled(alloc, received),
            Err(StreamRefusal::NoMemory) => self.no_memory(),
        }
    }

    // Asks for the call of a command.
    fn ask(&mut self, bound: Option<Caller>, frame: Frame) -> ServeTurn
        requires { IsSome (command_of bound frame) }
        ensures { AsksFor (command_of bound frame) self.new result }
    {
        let Some(Command { call, doing }) = command_of(bound, frame) else {
            unreachable!();
        };
        self.doing = doing;
        ServeTurn::Ask(call)
    }

    // What was received is no command in turn.
    fn garbled(&mut self, alloc: Global, received: &[u8]) -> ServeTurn
        ensures { IsOver received.now self.new result }
    {
        self.doing = Doing::Over;
        match keep_front(alloc, received, Side::Command) {
            Ok(kept) => ServeTurn::Done(ServeAnswer::Garbled { kept }),
            Err(_) => ServeTurn::Done(ServeAnswer::NoMemory),
        }
    }

    fn no_memory(&mut self) -> ServeTurn
        ensures doing { self.new ≡ Over }
        ensures turn { result ≡ Done NoMemory }
    {
        self.doing = Doing::Over;
        ServeTurn::Done(ServeAnswer::NoMemory)
    }
}

// Puts a frame after the bytes, if there is one. The error is out of memory, and the bytes are as
// before.
fn send(alloc: Global, frame: &Option<Frame>, sent: &mut Vec<u8>) -> Result<(), AllocError>
    requires { IsOfDonor frame.now }
    ensures ok { OnOk result (sent.new.items ≡ with_frame frame.now sent.old.items) }
    ensures is { OnOk result (WasSent frame.now) }
    ensures err { OnErr result (sent.new.items ≡ sent.old.items) }
{
    match frame {
        Some(frame) => put_frame(alloc, sent, frame),
        None => Ok(()),
    }
}
