//! What a disk in memory holds, and the list of its changes, where it keeps one.
//!
//! The list makes, with no write open, what is held. There is room in it for the removal of each
//! space that is there.
ghost use Rattle.std.specs.Prelude.{◌≡◌, ◌<◌, ◌+◌, ◌^◌, None, Some, OnOk, OnErr, IfOk, is_some};
ghost use Rattle.clone_memdisk.specs.Changes.{entry_of};
ghost use Rattle.clone_memdisk.specs.Contained.{HasRoom, KeepsList, Notes};

use crate::change::{ALL, Change};
use crate::image::Image;
use crate::recording::Recording;
use clone_base::PAGE_SIZE;
use clone_outside::MARK_SIZE;
use std::alloc::{AllocError, Global};
use std::marker::Model;

/// The spaces and the mark, and the list of all changes of them, where it is kept.
#[derive(Drop)]
pub struct Contents {
    image: Image,
    recording: Option<Recording>,
}

impl Model for Contents {
    ghost use Rattle.std.specs.Prelude.{option_map};
    ghost use Rattle.clone_memdisk.specs.Contained.{Contained, IsKept};
    ghost use Rattle.clone_memdisk.specs.Codes.{contained_code};

    ghost Value = { Contained };

    ghost coded = { contained_code };

    ghost view = { λ c. record {
      image = c.image;
      list = option_map (λ r. r.list) c.recording;
    } };

    ghost invariant = { λ c. IsKept c.image c.recording };
}

impl Contents {
    ghost use Rattle.std.specs.List.Sorted.{IsStrictlyIncreasing};
    ghost use Rattle.clone_outside.specs.Disk.{blank, space_numbers, page_count, page_of, with_page};
    ghost use Rattle.clone_memdisk.specs.Stored.{IsRead, interrupted};
    ghost use Rattle.clone_memdisk.specs.Recorded.{unchanged};
    ghost use Rattle.clone_memdisk.specs.Contained.{IsTied, IsRemoved, changed_by, synced, stopped};

    /// No space and no mark, and no list of changes.
    pub fn new(alloc: Global) -> Contents
        ensures { result ≡ record { image = blank; list = None } }
    {
        Contents {
            image: Image::blank(alloc),
            recording: None,
        }
    }

    /// The same, with a list of changes.
    pub fn recording(alloc: Global) -> Contents
        ensures { result ≡ record { image = blank; list = Some unchanged } }
    {
        Contents {
            image: Image::blank(alloc),
            recording: Some(Recording::new(alloc)),
        }
    }

    /// Whether a list of changes is kept.
    pub fn is_recording(&self) -> bool
        ensures { result ≡ is_some self.now.list }
    {
        self.recording.is_some()
    }

    /// The numbers of the spaces, ascending.
    pub fn numbers(&self, alloc: Global) -> Result<Vec<u32>, AllocError>
        ensures all { IfOk result (λ all. all.items ≡ space_numbers self.now.image) }
        ensures ascending { IfOk result (λ all. IsStrictlyIncreasing all.items) }
    {
        self.image.numbers(alloc)
    }

    /// How many pages a space has, if it is there.
    pub fn pages(&self, space: u32) -> Option<u32>
        ensures { result ≡ page_count self.now.image space }
    {
        self.image.pages(space)
    }

    /// The mark, if there is one.
    pub fn mark(&self) -> Option<[u8; MARK_SIZE]>
        ensures { result ≡ self.now.image.mark }
    {
        self.image.mark()
    }

    /// Reads a page, if it is there.
    pub fn read(&self, tear: Option<u8>, space: u32, page: u32, into: &mut [u8; PAGE_SIZE])
        ensures { IsRead tear (page_of self.now.image space page) into.old into.new }
    {
        self.image.read(tear, space, page, into)
    }

    /// Opens the write of a page, if it is there. This is no change that is kept.
    pub fn open(&mut self, space: u32, page: u32)
        ensures opened { self.new
            ≡ record self.old { image = with_page self.old.image space page interrupted } }
        ensures tied { IsTied self.new }
    {
        self.image.open(space, page)
    }

    /// Makes a change, and keeps it. After a refusal all is as before.
    pub fn change(&mut self, change: &Change) -> Result<(), AllocError>
        ensures ok { OnOk result (self.new ≡ changed_by (entry_of change.now) self.old) }
        ensures err { OnErr result (self.new ≡ self.old) }
        ensures tied { IsTied self.new }
    {
        make_room(&mut self.recording, self.image.len())?;
        self.image.make(change, true)?;
        note(&mut self.recording, change);
        Ok(())
    }

    /// Takes a space away, if it is there. The room for the change was made before.
    pub fn remove(&mut self, space: u32)
        ensures removed { IsRemoved space self.old self.new }
        ensures tied { IsTied self.new }
    {
        if let Some(_count) = self.image.pages(space) {
            self.image.remove(space);
            note(&mut self.recording, &Change::Remove { space });
        }
    }

    /// Lets all that is held stay.
    pub fn sync(&mut self) -> Result<(), AllocError>
        ensures ok { OnOk result (self.new ≡ synced self.old) }
        ensures err { OnErr result (self.new ≡ self.old) }
        ensures tied { IsTied self.new }
    {
        let Some(recording) = &mut self.recording else {
            return Ok(());
        };
        recording.end(ALL, self.image.len())
    }

    /// Goes on with what a stop with this choice leaves, if a list of changes is kept.
    pub fn stop(&mut self, choice: u8) -> Result<(), AllocError>
        ensures ok { OnOk result (self.new ≡ stopped choice self.old) }
        ensures err { OnErr result (self.new ≡ self.old) }
        ensures tied { IsTied self.new }
    {
        let Some(recording) = &mut self.recording else {
            return Ok(());
        };
        let image = recording.left(choice)?;
        recording.end(choice, image.len())?;
        self.image = image;
        Ok(())
    }
}

// Makes room for a change, and for the removal of each of so many spaces and one more.
fn make_room(recording: &mut Option<Recording>, spaces: usize) -> Result<(), AllocError>
    requires { spaces < 2 ^ 63 }
    ensures list { KeepsList recording.old recording.new }
    ensures room { OnOk result (HasRoom (spaces + 2) recording.new) }
{
    match recording {
        Some(recording) => recording.reserve(spaces + 2),
        None => Ok(()),
    }
}

// Keeps a change, for which there is room.
fn note(recording: &mut Option<Recording>, change: &Change)
    requires { HasRoom 1 recording.old }
    ensures { Notes (entry_of change.now) recording.old recording.new }
{
    if let Some(recording) = recording {
        recording.note(change);
    }
}
