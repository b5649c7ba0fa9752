//! Whether the numbers of a STAGE fit one another.
ghost use Rattle.std.specs.Prelude.{◌≡◌, ◌<◌, ◌^◌};
ghost use Rattle.clone_snapshot.specs.StageLists.{Files, chunk_count};
ghost use Rattle.clone_marks.specs.Counts.{pairs_of};
ghost use Rattle.clone_recipient.specs.Expecting.{are_spaces, fits, is_space};

use crate::{MOST_COPIED, MOST_SPACE};
use clone_base::LSN_LIMIT;
use clone_chunk::{SpaceSize, StagePlan};
use clone_model::MOST_PAGES;
use clone_snapshot::{CHUNK_BYTES, CHUNK_PAGES};

/// Whether the numbers of a STAGE fit one another.
pub(crate) fn fits(plan: &StagePlan) -> bool
    ensures { result ≡ fits plan.now }
{
    match plan {
        StagePlan::FileCopy { chunks, .. } => {
            let spaces = plan.spaces();
            are_spaces(spaces) && *chunks == chunks_of(spaces)
        }
        StagePlan::PageCopy {
            chunks,
            position,
            ..
        } => {
            are_spaces(plan.spaces())
                && *position <= MOST_COPIED
                && *chunks as u64 == position.div_ceil(CHUNK_PAGES as u64)
        }
        StagePlan::RedoCopy {
            chunks,
            checkpoint,
            lsn,
            ..
        } => {
            *checkpoint <= *lsn
                && *lsn < LSN_LIMIT
                && *chunks as u64 == (*lsn - *checkpoint).div_ceil(CHUNK_BYTES as u64)
        }
        StagePlan::Done { .. } => true,
    }
}

// Whether spaces ascend, and each may be one of a donor.
fn are_spaces(spaces: &[SpaceSize]) -> bool
    ensures { result ≡ are_spaces 0 spaces.now }
{
    let mut least = 0u64;
    for space in spaces {
        if !is_space(least, *space) {
            return false;
        }
        least = space.space as u64 + 1;
    }
    true
}

// Whether a space may be one of a donor, and its number isn't below the least.
fn is_space(least: u64, space: SpaceSize) -> bool
    ensures { result ≡ is_space least space }
{
    least <= space.space as u64
        && space.space <= MOST_SPACE
        && 1 <= space.pages
        && space.pages <= MOST_PAGES
}

// How many chunks the files of these spaces have.
fn chunks_of(spaces: &[SpaceSize]) -> u32
    requires { chunk_count (Files (pairs_of spaces.now)) < 2 ^ 32 }
    ensures { result ≡ chunk_count (Files (pairs_of spaces.now)) }
{
    spaces
        .iter()
        .map(|space| space.pages.div_ceil(CHUNK_PAGES))
        .sum()
}
