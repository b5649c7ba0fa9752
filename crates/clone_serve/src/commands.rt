//! The first command of a connection opens a session, joins one or comes back to one, and binds
//! the caller. The later ones are EXECUTE, ACK and EXIT. Any other command is out of turn.
ghost use Rattle.std.specs.Prelude.{◌≡◌};
ghost use Rattle.clone_serve.specs.Commands.{caller_of, command_of, first_command, is_in_turn};
ghost use Rattle.clone_serve.specs.Commands.{is_out_of_turn, later_command, telling};

use crate::{Doing, Execution};
use clone_calls::DonorCall;
use clone_session::{Caller, Hello};
use clone_wire::{Attempt, Frame};

/// The call of a command, and what is done until it is answered.
#[derive(Drop)]
pub struct Command {
    pub call: DonorCall,
    pub doing: Doing,
}

/// What a command asks for, or none where it comes out of turn.
pub(crate) fn command_of(bound: Option<Caller>, frame: Frame) -> Option<Command>
    ensures { result ≡ command_of bound frame }
{
    match bound {
        None => first_command(frame),
        Some(caller) => later_command(caller, frame),
    }
}

fn first_command(frame: Frame) -> Option<Command>
    ensures { result ≡ first_command frame }
{
    match frame {
        Frame::Init {
            attempt,
            version,
            page_size,
            compressed,
            tasks,
        } => {
            let hello = Hello {
                version,
                page_size,
                compress: compressed,
                tasks,
                session: attempt.session,
                incarnation: attempt.incarnation,
            };
            Some(telling(DonorCall::Init { hello }, caller_of(attempt, 0)))
        }
        Frame::Attach { attempt, task } => {
            let caller = caller_of(attempt, task);
            Some(telling(DonorCall::Attach { caller }, caller))
        }
        Frame::Reinit {
            attempt,
            stage,
            finished,
        } => {
            let caller = caller_of(attempt, 0);
            let stage = stage.number();
            Some(telling(
                DonorCall::Reinit {
                    caller,
                    stage,
                    finished,
                },
                caller,
            ))
        }
        Frame::Reinit2 {
            attempt,
            stage,
            taken,
        } => {
            let caller = caller_of(attempt, 0);
            let stage = stage.number();
            Some(telling(
                DonorCall::ReinitBlocks {
                    caller,
                    stage,
                    taken,
                },
                caller,
            ))
        }
        _ => None,
    }
}

fn later_command(caller: Caller, frame: Frame) -> Option<Command>
    ensures { result ≡ later_command caller frame }
{
    match frame {
        Frame::Execute { stage } => Some(Command {
            call: DonorCall::Execute {
                caller,
                stage: stage.number(),
            },
            doing: Doing::Starting {
                execution: Execution { caller, stage },
            },
        }),
        Frame::Ack { stage, floor } => {
            let stage = stage.number();
            Some(telling(
                DonorCall::Ack {
                    caller,
                    stage,
                    floor,
                },
                caller,
            ))
        }
        Frame::Exit => Some(Command {
            call: DonorCall::Exit { caller },
            doing: Doing::Leaving,
        }),
        _ => None,
    }
}

// A command whose call is answered by a stage.
fn telling(call: DonorCall, caller: Caller) -> Command
    ensures { result ≡ telling call caller }
{
    Command {
        call,
        doing: Doing::Telling { caller },
    }
}

fn caller_of(attempt: Attempt, task: u8) -> Caller
    ensures { result ≡ caller_of attempt task }
{
    Caller {
        session: attempt.session,
        incarnation: attempt.incarnation,
        task,
    }
}

/// Whether the bytes begin a command out of turn.
pub(crate) fn is_out_of_turn(bound: Option<Caller>, bytes: &[u8]) -> bool
    ensures { result ≡ is_out_of_turn bound bytes.now }
{
    match bytes.first() {
        Some(code) => !is_in_turn(bound, *code),
        None => false,
    }
}

fn is_in_turn(bound: Option<Caller>, code: u8) -> bool
    ensures { result ≡ is_in_turn bound code }
{
    match bound {
        None => (1 <= code && code <= 3) || code == 7,
        Some(_) => 4 <= code && code <= 6,
    }
}
