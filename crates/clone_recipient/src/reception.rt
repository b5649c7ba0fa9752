//! The chunks of the stage that is copied have as many blocks as what was told of it is cut into.
//! The files have fewer than 2^32 chunks.
ghost use Rattle.std.specs.Prelude.{◌≡◌, ◌≤◌, ◌<◌, true, IfOk, OnErr, OnOk, IsTrue, Some};
ghost use Rattle.clone_tasks.specs.Losing.{loss_answer, loss_table};
ghost use Rattle.clone_tasks.specs.Rules.{sending_rule};
ghost use Rattle.clone_tasks.specs.Sending.{Sends, after_sending};
ghost use Rattle.clone_tasks.specs.Tables.{IsBounded, is_running};
ghost use Rattle.clone_base.specs.declared.limits.TheConstants.{LSN_LIMIT};
ghost use Rattle.clone_recipient.specs.Receptions.{AreCounted};

use clone_base::Counts;
use clone_outside::CloneEnd as LaidEnd;
use clone_tasks::{CloneEnd, LossAnswer, TaskTable};
use clone_wire::Frame;
use std::alloc::{AllocError, Global};
use std::marker::Model;

/// What a requester knows of a clone.
#[derive(Drop)]
pub struct Reception {
    pub(crate) table: TaskTable,
    pub(crate) sizes: Counts,
    pub(crate) files: Vec<(u32, u32)>,
    pub(crate) pages: u32,
    pub(crate) end: LaidEnd,
    pub(crate) synced: bool,
    pub(crate) recovered: bool,
}

impl Model for Reception {
    ghost use Rattle.std.specs.Prelude.{◌<◌, ◌^◌};
    ghost use Rattle.std.specs.Coded.{codes};
    ghost use Rattle.clone_snapshot.specs.StageLists.{Files, chunk_count};
    ghost use Rattle.clone_recipient.specs.Receptions.{Reception, AreCounted, sizes_code};

    ghost Value = { Reception };

    ghost coded = { Prim.hlevel (codes, sizes_code) };

    ghost view = { λ r. record {
      table = r.table;
      sizes = r.sizes;
      files = r.files.items;
      pages = r.pages;
      checkpoint = r.end.checkpoint;
      lsn = r.end.lsn;
      position = r.end.position;
      synced = r.synced;
      recovered = r.recovered;
    } };

    ghost invariant = { λ r. (chunk_count (Files r.files.items) < 2 ^ 32)
        × AreCounted r.table.phase (record {
          table = r.table;
          sizes = r.sizes;
          files = r.files.items;
          pages = r.pages;
          checkpoint = r.end.checkpoint;
          lsn = r.end.lsn;
          position = r.end.position;
          synced = r.synced;
          recovered = r.recovered;
        }) };
}

impl Reception {
    /// The tasks.
    pub fn table(&self) -> &TaskTable
        ensures { result.now ≡ self.now.table }
    {
        &self.table
    }

    /// What holds of every reception: the chunks of the stage that is copied have as many blocks as
    /// what was told of it is cut into, the redo ends where a log may, and the table of tasks is
    /// bounded.
    pub fn laws(&self)
        ensures bounded { IsBounded self.now.table }
        ensures counted { AreCounted self.now.table.phase self.now }
        ensures ordered { self.now.checkpoint ≤ self.now.lsn }
        ensures within { self.now.lsn < LSN_LIMIT }
    {
        self.table.laws();
    }

    /// The frame that a task sends next, as the table of tasks says. All else stays as it is.
    pub fn next_send(
        &mut self,
        alloc: Global,
        task: u8,
        floor: u64,
    ) -> Result<Option<Frame>, AllocError>
        ensures frame { IfOk result
            (Sends (sending_rule self.old.table task) self.old.table task floor) }
        ensures table { OnOk result (self.new ≡ record self.old {
          table = after_sending (sending_rule self.old.table task) self.old.table task floor;
        }) }
        ensures err { OnErr result (self.new ≡ self.old) }
    {
        self.table.next_send(alloc, task, floor)
    }

    /// A task has found its connection lost, which it made in this incarnation. All but the table
    /// of tasks stays as it is.
    pub fn lost(&mut self, incarnation: u32) -> LossAnswer
        requires { IsTrue (is_running self.old.table) }
        ensures answer { result ≡ loss_answer self.old.table incarnation }
        ensures table { self.new ≡ record self.old {
          table = loss_table self.old.table incarnation;
        } }
    {
        self.table.lost(incarnation)
    }

    /// The clone has ended so.
    pub fn end(&mut self, how: CloneEnd)
        ensures { self.new ≡ record self.old {
          table = record self.old.table { ended = Some how };
        } }
    {
        self.table.end(how);
    }

    /// The disk was recovered.
    pub fn note_recovered(&mut self)
        ensures { self.new ≡ record self.old { recovered = true } }
    {
        self.recovered = true;
    }
}
