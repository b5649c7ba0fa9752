ghost use Rattle.clone_script.specs.Script.{head_text, IsHeadInRange};
ghost use Rattle.clone_script.specs.Reading.{IsOfClone, Parses};

use crate::fields::{loss_limit, pool_size, ring_size, task_count, version_of};

/// A line of a script's head.
#[derive(Clone, Copy)]
pub enum HeadLine {
    /// `pool N`: the pool has N frames.
    Pool {
        /// How many frames there are.
        frames: u32,
    },
    /// `ring N`: the ring has N bytes.
    Ring {
        /// How many bytes there are.
        bytes: u64,
    },
    /// `version N`: the two ends of a clone speak version N.
    Version {
        /// The version.
        version: u16,
    },
    /// `tasks N`: N tasks copy the clone.
    Tasks {
        /// How many tasks there are.
        tasks: u8,
    },
    /// `limit N`: the clone is let off N losses.
    Limit {
        /// How many losses.
        losses: u32,
    },
}

/// The head line that has this text.
pub fn parse_head(text: &[u8]) -> Option<HeadLine>
    ensures { Parses IsHeadInRange head_text text.now result }
{
    if let Some(field) = text.strip_prefix(b"pool ") {
        let frames = pool_size(field)?;
        return Some(HeadLine::Pool { frames });
    }
    if let Some(field) = text.strip_prefix(b"ring ") {
        let bytes = ring_size(field)?;
        return Some(HeadLine::Ring { bytes });
    }
    clone_head(text)
}

/// The head line of a clone that has this text.
fn clone_head(text: &[u8]) -> Option<HeadLine>
    ensures { Parses IsOfClone head_text text.now result }
{
    if let Some(field) = text.strip_prefix(b"version ") {
        let version = version_of(field)?;
        return Some(HeadLine::Version { version });
    }
    if let Some(field) = text.strip_prefix(b"tasks ") {
        let tasks = task_count(field)?;
        return Some(HeadLine::Tasks { tasks });
    }
    if let Some(field) = text.strip_prefix(b"limit ") {
        let losses = loss_limit(field)?;
        return Some(HeadLine::Limit { losses });
    }
    None
}
