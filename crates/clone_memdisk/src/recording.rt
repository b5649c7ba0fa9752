//! The list of its changes that a disk in memory keeps.
//!
//! `ended` has the changes that a sync or a stop ended, and `since` those that came later. There
//! is room in `since` for as many more as were reserved.
ghost use Rattle.std.specs.Prelude.{◌≡◌, ◌≤◌, ◌<◌, ◌+◌, IfOk, OnOk, OnErr, fold};
ghost use Rattle.clone_memdisk.specs.Changes.{entry_of};
ghost use Rattle.clone_memdisk.specs.Recorded.{laid, laid_all, left_image, unchanged, with_entry, with_end};
ghost use Rattle.clone_outside.specs.Disk.{blank};

use crate::change::{Change, Entry, kept};
use crate::image::Image;
use std::alloc::{AllocError, Global};
use std::marker::Model;
use std::mem;

/// Changes that a sync or a stop ended, and what was kept of them.
#[derive(Drop)]
pub struct Stretch {
    changes: Vec<Entry>,
    choice: u8,
}

impl Model for Stretch {
    ghost use Rattle.clone_memdisk.specs.Recorded.{Ended};
    ghost use Rattle.clone_memdisk.specs.Codes.{ended_code};

    ghost Value = { Ended };

    ghost coded = { ended_code };

    ghost view = { λ s. record { changes = s.changes.items; choice = s.choice } };
}

/// All changes of a disk, with room for more.
#[derive(Drop)]
pub struct Recording {
    alloc: Global,
    ended: Vec<Stretch>,
    since: Vec<Entry>,
}

impl Model for Recording {
    ghost use Rattle.std.specs.Prelude.{◌-◌, vec_len, vec_capacity};
    ghost use Rattle.clone_memdisk.specs.Recorded.{Roomy};
    ghost use Rattle.clone_memdisk.specs.Codes.{roomy_code};

    ghost Value = { Roomy };

    ghost coded = { roomy_code };

    ghost view = { λ r. record {
      list = record { ended = r.ended.items; since = r.since.items };
      room = vec_capacity r.since - vec_len r.since;
    } };
}

impl Recording {
    /// No changes. This takes no memory.
    pub fn new(alloc: Global) -> Recording
        ensures { result.list ≡ unchanged }
    {
        Recording {
            alloc,
            ended: Vec::new(alloc),
            since: Vec::new(alloc),
        }
    }

    /// Makes room for so many changes more.
    pub fn reserve(&mut self, room: usize) -> Result<(), AllocError>
        ensures list { self.new.list ≡ self.old.list }
        ensures more { self.old.room ≤ self.new.room }
        ensures room { OnOk result (room ≤ self.new.room) }
    {
        self.since.reserve(room)
    }

    /// Keeps a change, for which there is room.
    pub fn note(&mut self, change: &Change)
        requires { 0 < self.old.room }
        ensures list { self.new.list ≡ with_entry (entry_of change.now) self.old.list }
        ensures room { self.new.room + 1 ≡ self.old.room }
    {
        self.since.push_reserved(Entry::of(change));
    }

    /// Ends the changes since, of which so much is kept, and makes room for so many more.
    pub fn end(&mut self, choice: u8, room: usize) -> Result<(), AllocError>
        ensures ok { OnOk result (self.new.list ≡ with_end choice self.old.list) }
        ensures room { OnOk result (room ≤ self.new.room) }
        ensures err { OnErr result (self.new ≡ self.old) }
    {
        self.ended.reserve(1)?;
        let next = Vec::with_capacity(self.alloc, room)?;
        let changes = mem::replace(&mut self.since, next);
        self.ended.push_reserved(Stretch { changes, choice });
        Ok(())
    }

    /// What a stop with this choice leaves of the disk.
    pub fn left(&self, choice: u8) -> Result<Image, AllocError>
        ensures { IfOk result (λ image. image ≡ left_image choice self.now.list) }
    {
        let mut image = ended_image(self.alloc, &self.ended)?;
        lay_all(&mut image, &self.since, choice)?;
        Ok(image)
    }
}

// What the disk was when the last of these changes were ended.
fn ended_image(alloc: Global, ended: &[Stretch]) -> Result<Image, AllocError>
    ensures { IfOk result (λ image. image ≡ fold laid_all blank ended.now) }
{
    let mut image = Image::blank(alloc);
    for stretch in ended {
        lay_all(&mut image, &stretch.changes, stretch.choice)?;
    }
    Ok(image)
}

// Makes what is kept of changes.
fn lay_all(image: &mut Image, changes: &[Entry], choice: u8) -> Result<(), AllocError>
    ensures { OnOk result (image.new ≡ fold (laid choice) image.old changes.now) }
{
    for entry in changes {
        lay_kept(image, entry, choice)?;
    }
    Ok(())
}

// Makes what is kept of a change.
fn lay_kept(image: &mut Image, entry: &Entry, choice: u8) -> Result<(), AllocError>
    ensures { OnOk result (image.new ≡ laid choice image.old entry.now) }
{
    match kept(choice, entry.change()) {
        Some(change) => image.make(&change, false),
        None => Ok(()),
    }
}
