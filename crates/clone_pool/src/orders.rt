//! What is kept beside the frames, by their numbers: each part has something for frame i at i.
//! `names` has the page that it holds or is set aside for; `going` ranks the frames that may go by
//! their last use; `dirty` ranks the dirty ones by their oldest change, then by page. Any other
//! frame has the last rank.
ghost use Rattle.std.specs.Prelude.{◌≡◌, ◌<◌, length, replicate, IfOk};
ghost use Rattle.clone_pool.specs.Frames.{no_frame, frame_at};
ghost use Rattle.clone_pool.specs.Orders.{AreLong, orders_of, refreshed, used_again, no_name, use_rank, age_rank};
ghost use Rattle.clone_pool.specs.Tournament.{no_rank};

use crate::Frame;
use crate::index::Index;
use crate::row::Row;
use crate::tournament::{NO_NAME, NO_NUMBER, NO_RANK, Rank, Tournament};
use std::alloc::{AllocError, Global};
use std::marker::Model;

/// What is kept of the frames beside them: their pages, the last uses of those that may go, and the
/// oldest changes of the dirty ones.
#[derive(Drop)]
pub struct Orders {
    pub names: Index,
    pub going: Tournament,
    pub dirty: Row,
}

impl Orders {
    /// Those of so many frames without pages. No later call takes memory.
    pub fn new(alloc: Global, count: u32) -> Result<Orders, AllocError>
        ensures { IfOk result (λ orders. orders ≡ orders_of (replicate count no_frame)) }
    {
        let free = Rank {
            number: 0,
            name: NO_NAME,
        };
        Ok(Orders {
            names: Index::new(alloc, count)?,
            going: Tournament::new(alloc, count, free)?,
            dirty: Row::new(alloc, count)?,
        })
    }

    /// Takes over what a frame is now.
    pub fn refresh(&mut self, frames: &[Frame], at: usize)
        requires at { at < length frames.now }
        requires long { AreLong (length frames.now) self.old }
        ensures { self.new ≡ refreshed at (frame_at frames.now at) self.old }
    {
        let frame = &frames[at];
        self.names.set(at, frame.claim());
        self.going.set(at, use_rank(frame));
        self.dirty.set(at, age_rank(frame));
    }

    /// Takes over the last use and the pins of a frame that has the page and the oldest change that
    /// it had.
    pub fn refresh_use(&mut self, frames: &[Frame], at: usize)
        requires at { at < length frames.now }
        requires long { length self.old.going ≡ length frames.now }
        ensures { self.new ≡ used_again at (frame_at frames.now at) self.old }
    {
        self.going.set(at, use_rank(&frames[at]));
    }
}

fn use_rank(frame: &Frame) -> Rank
    ensures { result ≡ use_rank frame.now }
{
    if !frame.may_go() {
        return NO_RANK;
    }
    Rank {
        number: frame.last_use,
        name: NO_NAME,
    }
}

fn age_rank(frame: &Frame) -> Rank
    ensures { result ≡ age_rank frame.now }
{
    Rank {
        number: frame.oldest.unwrap_or(NO_NUMBER),
        name: frame.name().unwrap_or(NO_NAME),
    }
}
