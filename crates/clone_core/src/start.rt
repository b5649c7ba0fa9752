//! How a clone begins.
ghost use Rattle.std.specs.Prelude.{◌≡◌, IfOk, OnErr};
ghost use Rattle.std.specs.String.{string_bytes};
ghost use Rattle.clone_script.specs.declared.lines.Line.TheVariants as lines;
ghost use Rattle.clone_events.specs.Events.{event_text};
ghost use Rattle.clone_core.specs.CloneEvents.{Begins, started_as};
ghost use Rattle.clone_core.specs.Lines.{Answers, BreaksOff};

use crate::World;
use crate::world::{Copying, Course, SESSION};
use clone_network::Network;
use clone_outside::PageDisk;
use clone_recipient::{BeginCause, Reception};
use std::alloc::{AllocError, Global};

/// What came of a wish that a clone begins.
#[derive(Clone, Copy, Debug, PartialEq, Eq)]
pub enum Begun {
    /// One begins, at a donor that has no session yet or has one.
    Now {
        /// It has none.
        is_alone: bool,
    },
    /// One began before.
    Before,
    /// The recipient's disk failed, which ended it.
    Fault,
    /// The recipient's disk isn't empty any more, and none begins.
    Occupied,
}

impl<D: PageDisk, R: PageDisk> World<D, R> {
    // A clone begins, unless one began before.
    pub(crate) fn start_line(&mut self, alloc: Global) -> Result<String, AllocError>
        ensures ok { IfOk result (λ text. Answers self.old lines.Start (string_bytes text)
            self.new) }
        ensures err { OnErr result (BreaksOff self.old lines.Start self.new) }
    {
        let begun = self.start(alloc)?;
        String::from_str(alloc, begun_word(begun))
    }

    // A clone begins, unless one began before.
    pub(crate) fn start(&mut self, alloc: Global) -> Result<Begun, AllocError>
        ensures { Begins self.old result self.new }
    {
        match self.course {
            Course::Absent => {}
            Course::Unbegun | Course::Begun(_) => return Ok(Begun::Before),
        }
        let network = Network::new(alloc, self.terms.tasks)?;
        let begun = Reception::begin(
            alloc,
            &mut self.recipient,
            SESSION,
            self.terms.tasks,
            self.terms.limit,
            self.terms.version,
        );
        match begun {
            Ok(reception) => {
                self.course = Course::Begun(Copying { reception, network });
                self.is_alone = self.donor.session().is_none();
                return Ok(Begun::Now {
                    is_alone: self.is_alone,
                });
            }
            Err(BeginCause::NotEmpty) => return Ok(Begun::Occupied),
            Err(BeginCause::DiskFault) => {
                self.course = Course::Unbegun;
                return Ok(Begun::Fault);
            }
            Err(BeginCause::NoMemory) => {
                self.course = Course::Unbegun;
                return Err(AllocError);
            }
        }
    }
}

// What a line answers of it.
fn begun_word(begun: Begun) -> &'static str
    ensures { result.now ≡ event_text (started_as begun) }
{
    match begun {
        Begun::Now { .. } => "started",
        Begun::Before | Begun::Occupied => "idle",
        Begun::Fault => "recipient disk fault",
    }
}
