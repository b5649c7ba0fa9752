ghost use Rattle.std.specs.Prelude.{◌≡◌, ◌≤◌, length, IfOk};
ghost use Rattle.clone_base.specs.declared.limits.TheConstants.{SPACE_LIMIT};
ghost use Rattle.clone_chunk.specs.Partials.{ArePartials};
ghost use Rattle.clone_chunk.specs.Plans.{sizes_of};
ghost use Rattle.clone_chunk.specs.Stages.{stage_number};
ghost use Rattle.clone_snapshot.specs.Resets.{IsReset};
ghost use Rattle.clone_snapshot.specs.StageLists.{stage_of};
ghost use Rattle.clone_session.specs.CloneCalls.{of_stage};
ghost use Rattle.clone_session.specs.Effects.{spaces_in};

use clone_chunk::{PartialChunk, Spaces, Stage};
use clone_snapshot::Snapshot;
use std::alloc::{AllocError, Global};
use std::marker::Model;

/// A session: who asked for it, and the stage that it has come to.
#[derive(Drop)]
pub struct Session {
    /// Its number.
    pub number: u64,
    /// The requester's incarnation.
    pub incarnation: u32,
    /// How many tasks the requester has.
    pub tasks: u8,
    /// The version of the protocol.
    pub version: u16,
    /// The stage with its chunks.
    pub snapshot: Snapshot,
    /// The spaces that were created while files were copied, each with its number of pages. There
    /// are none before the end of the copy of files.
    pub created: Vec<(u32, u32)>,
}

impl Model for Session {
    ghost use Rattle.clone_session.specs.Cloning.{Session};

    ghost Value = { Session };

    ghost view = { λ s. record {
      number = s.number;
      incarnation = s.incarnation;
      tasks = s.tasks;
      version = s.version;
      snap = s.snapshot;
      created = s.created.items;
    } };
}

impl Session {
    /// The stage that it has come to.
    pub fn stage(&self) -> Stage
        ensures { result ≡ stage_of self.now.snap.list }
    {
        self.snapshot.stage()
    }

    /// The number of that stage.
    pub fn stage_number(&self) -> u8
        ensures { result ≡ stage_number (stage_of self.now.snap.list) }
    {
        self.snapshot.stage().number()
    }

    /// The spaces that the stage lists.
    pub fn spaces(&self) -> &[(u32, u32)]
        ensures { result.now ≡ spaces_in self.now self.now.snap.list }
    {
        match self.stage() {
            Stage::FileCopy => self.snapshot.spaces(),
            Stage::PageCopy => &self.created,
            Stage::RedoCopy | Stage::Done => &[],
        }
    }

    /// The same as a list of its own. The error is out of memory.
    pub fn told_spaces(&self, alloc: Global) -> Result<Spaces, AllocError>
        requires { length (spaces_in self.now self.now.snap.list) ≤ SPACE_LIMIT }
        ensures { IfOk result
            (λ spaces. spaces ≡ sizes_of (spaces_in self.now self.now.snap.list)) }
    {
        Spaces::of_pairs(alloc, self.spaces())
    }

    /// Its chunks are what a requester in this stage has of them: where that is the stage before
    /// the donor's, nothing.
    pub fn reset(&mut self, stage: u8, bitmap: &[u8], partials: &[PartialChunk])
        requires { ArePartials partials.now }
        ensures session { self.new ≡ record self.old { snap = self.new.snap } }
        ensures list { self.new.snap.list ≡ self.old.snap.list }
        ensures chunks { IsReset self.old.snap.list (of_stage stage self.old bitmap.now)
            (of_stage stage self.old partials.now) self.new.snap.chunks self.new.snap.kept }
        ensures room { self.new.snap.room ≡ self.old.snap.room }
    {
        if stage == self.stage_number() {
            self.snapshot.reset_blocks(bitmap, partials);
        } else {
            self.snapshot.reset_to(&[]);
        }
    }
}
