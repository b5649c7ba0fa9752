ghost use Rattle.std.specs.Prelude.{◌≡◌, IfOk, OnErr};
ghost use Rattle.std.specs.String.{string_bytes};
ghost use Rattle.clone_events.specs.World.{HasEnded};
ghost use Rattle.clone_script.specs.declared.lines.Line.TheVariants as lines;
ghost use Rattle.clone_core.specs.Lines.{Answers, BreaksOff};
ghost use Rattle.clone_core.specs.Showing.{Reads};

use crate::World;
use crate::texts::recipient_fault;
use crate::world::Course;
use clone_dump::{damage_text, recovered_rows, rows_shown};
use clone_model::Value;
use clone_outside::PageDisk;
use clone_recover::RecoverRefusal;
use clone_staged::holds_laws;
use std::alloc::{AllocError, Global};

// What the requester looks up, what the donor archives, and the rows of the clone.
impl<D: PageDisk, R: PageDisk> World<D, R> {
    // Looks up how many commits there are. That is the floor of an acknowledgement that comes later.
    pub(crate) fn look_line(&mut self, alloc: Global) -> Result<String, AllocError>
        ensures ok { IfOk result (λ text. Answers self.old lines.Look (string_bytes text)
            self.new) }
        ensures err { OnErr result (BreaksOff self.old lines.Look self.new) }
    {
        let position = self.donor.look();
        self.looked = position;
        format!(in alloc; "position {position}")
    }

    // Archives so many bytes of the log.
    pub(crate) fn archive_line(&mut self, alloc: Global, bytes: u32) -> Result<String, AllocError>
        ensures ok { IfOk result (λ text. Answers self.old (lines.Archive bytes) (string_bytes text)
            self.new) }
        ensures err { OnErr result (BreaksOff self.old (lines.Archive bytes) self.new) }
    {
        match self.donor.archive(u64::from(bytes))? {
            Some(lsn) => format!(in alloc; "archived {lsn}"),
            None => String::from_str(alloc, "idle"),
        }
    }

    // Recovers the recipient's disk, and shows the rows of the clone, once that has ended.
    pub(crate) fn rows_line(&mut self, alloc: Global) -> Result<String, AllocError>
        ensures ok { IfOk result (λ text. Answers self.old lines.Rows (string_bytes text)
            self.new) }
        ensures err { OnErr result (BreaksOff self.old lines.Rows self.new) }
    {
        if self.course.has_ended() {
            self.show_rows(alloc)
        } else {
            String::from_str(alloc, "incomplete")
        }
    }

    // The rows of a clone that has ended.
    fn show_rows(&mut self, alloc: Global) -> Result<String, AllocError>
        requires ended { HasEnded self.old.clone.progress }
        ensures ok { IfOk result (λ text. Answers self.old lines.Rows (string_bytes text)
            self.new) }
        ensures err { OnErr result (BreaksOff self.old lines.Rows self.new) }
    {
        match self.read_rows(alloc) {
            Ok(rows) => rows_shown(alloc, &rows),
            Err(RecoverRefusal::Incomplete) => String::from_str(alloc, "incomplete"),
            Err(RecoverRefusal::Damaged { space, page, why }) => {
                damage_text(alloc, space, page, why)
            }
            Err(RecoverRefusal::DiskFault) => recipient_fault(alloc),
            Err(RecoverRefusal::NoMemory) => Err(AllocError),
        }
    }

    // Recovers the recipient's disk and reads its rows, and notes what came of it.
    pub(crate) fn read_rows(
        &mut self,
        alloc: Global,
    ) -> Result<Vec<(u32, u64, Value)>, RecoverRefusal>
        requires ended { HasEnded self.old.clone.progress }
        ensures { Reads self.old result self.new }
    {
        holds_laws();
        let read = recovered_rows(alloc, &mut self.recipient);
        match &read {
            Ok(_) => {
                self.is_shown = true;
                if let Course::Begun(copying) = &mut self.course {
                    copying.reception.note_recovered();
                }
            }
            Err(RecoverRefusal::Incomplete) => {}
            Err(RecoverRefusal::Damaged { .. }) => {}
            Err(RecoverRefusal::DiskFault) => self.is_doubted = true,
            Err(RecoverRefusal::NoMemory) => self.is_doubted = true,
        }
        read
    }
}
