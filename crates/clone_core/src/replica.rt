//! What follows a clone: a follower, once there is one, the commits that the donor ever sent it,
//! and whether its next answer is to be lost.
ghost use Rattle.std.specs.Prelude.{◌≡◌, IfNone, IfOk, IfSome, IsSome, OnOk, OnErr, Some};
ghost use Rattle.std.specs.FinMap as finite;
ghost use Rattle.std.specs.Option.{option_map};
ghost use Rattle.clone_follow.specs.Following.{Following, with_rows};
ghost use Rattle.clone_follow.specs.declared.frame.FollowFrame as frames;
ghost use Rattle.clone_events.specs.Events as events;
ghost use Rattle.clone_events.specs.Events.{IsNumbered};
ghost use Rattle.clone_events.specs.World.{no_replica};
ghost use Rattle.clone_core.specs.Following.{Exchanges, Keeps, RepeatsSo, RowsOf, TakesFrame};

use clone_follow::{FollowFrame, FollowRefusal, FollowTook, Follower};
use clone_model::Value;
use std::alloc::{AllocError, Global};
use std::marker::Model;

/// What a follower did with a frame, or why it refused it.
pub(crate) type Took = Result<FollowTook, FollowRefusal>;

/// What follows a clone.
#[derive(Drop)]
pub struct Replica {
    follower: Option<Follower>,
    // the COMMIT frames that were ever sent, in their order
    sent: Vec<FollowFrame>,
    is_losing: bool,
}

impl Model for Replica {
    ghost use Rattle.std.specs.Coded.{codes};
    ghost use Rattle.clone_follow.specs.Following.{following_code};
    ghost use Rattle.clone_events.specs.World as plain;

    ghost Value = { plain.Replica };

    ghost coded = { Prim.hlevel (codes, following_code) };

    ghost view = { λ r. record {
      follower = r.follower;
      sent = r.sent.items;
      losing = r.is_losing;
    } };
}

impl Replica {
    /// No follower is there, and nothing was sent.
    pub(crate) fn new(alloc: Global) -> Replica
        ensures { result ≡ no_replica }
    {
        Replica {
            follower: None,
            sent: Vec::new(alloc),
            is_losing: false,
        }
    }

    /// The position of the follower, if there is one.
    pub(crate) fn position(&self) -> Option<u64>
        ensures { result ≡ option_map (λ (f : Following). f.position) self.now.follower }
    {
        match &self.follower {
            Some(follower) => Some(follower.want()),
            None => None,
        }
    }

    /// The follower begins with these rows, at this position.
    pub(crate) fn open(
        &mut self,
        alloc: Global,
        rows: &[(u32, u64, Value)],
        position: u64,
    ) -> Result<(), AllocError>
        ensures ok { OnOk result (self.new ≡ record self.old {
          follower = Some (record {
            rows = with_rows finite.empty rows.now;
            position = position;
          });
        }) }
        ensures err { OnErr result (self.new ≡ self.old) }
    {
        self.follower = Some(Follower::open(alloc, rows, position)?);
        Ok(())
    }

    /// The next answer is to be lost.
    pub(crate) fn set_to_lose(&mut self)
        ensures { self.new ≡ events.replica_after events.set_to_lose self.old }
    {
        self.is_losing = true;
    }

    /// The donor's answer is sent. It comes to the follower, or is lost, and then there is nothing
    /// that the follower did. Without memory it was sent at most.
    pub(crate) fn exchange(&mut self, frame: FollowFrame) -> Result<Option<Took>, AllocError>
        requires { IsSome self.old.follower }
        ensures { Exchanges self.old frame result self.new }
    {
        let other = self.keep(frame)?;
        if self.is_losing {
            self.is_losing = false;
            return Ok(None);
        }
        let Some(follower) = &mut self.follower else {
            unreachable!()
        };
        let took = match &other {
            Some(frame) => take(follower, frame)?,
            None => take(follower, &self.sent[self.sent.len() - 1])?,
        };
        Ok(Some(took))
    }

    // Keeps a COMMIT that is sent, and gives any other frame back.
    fn keep(&mut self, frame: FollowFrame) -> Result<Option<FollowFrame>, AllocError>
        ensures { Keeps self.old frame result self.new }
    {
        match frame {
            FollowFrame::Commit { position, commit } => {
                self.sent.push(FollowFrame::Commit { position, commit })?;
                Ok(None)
            }
            other => Ok(Some(other)),
        }
    }

    /// The commit of this number comes again, if it was sent and there is a follower.
    pub(crate) fn repeat(&mut self, number: u64) -> Result<Option<Took>, AllocError>
        ensures { RepeatsSo self.old number result self.new }
    {
        match (&mut self.follower, frame_at(&self.sent, number)) {
            (Some(follower), Some(frame)) => Ok(Some(take(follower, frame)?)),
            _ => Ok(None),
        }
    }

    /// The rows of the follower, if there is one, in ascending order.
    pub(crate) fn rows(&self, alloc: Global) -> Result<Option<Vec<(u32, u64, Value)>>, AllocError>
        ensures { IfOk result (λ rows. RowsOf self.now rows) }
    {
        match &self.follower {
            Some(follower) => Ok(Some(follower.rows(alloc)?)),
            None => Ok(None),
        }
    }
}

// The follower takes a frame.
fn take(follower: &mut Follower, frame: &FollowFrame) -> Result<Took, AllocError>
    ensures { TakesFrame follower.old frame.now result follower.new }
{
    match follower.take(frame) {
        Err(FollowRefusal::NoMemory) => Err(AllocError),
        took => Ok(took),
    }
}

// The frame of this number, the first of which has number 1.
fn frame_at(sent: &[FollowFrame], number: u64) -> Option<&FollowFrame>
    ensures some { IfSome result (λ frame. IsNumbered sent.now number frame.now) }
    ensures none { IfNone result
        ((frame : frames.FollowFrame) → IsNumbered sent.now number frame → ⊥) }
{
    if number == 0 || number > sent.len() as u64 {
        return None;
    }
    Some(&sent[(number - 1) as usize])
}
