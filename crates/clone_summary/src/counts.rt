ghost use Rattle.std.specs.Prelude.{◌≡◌, IfOk, map};
ghost use Rattle.std.specs.List.{range_with_len};
ghost use Rattle.clone_summary.specs.Summary.{commits_of};

use clone_model::Binlog;
use std::alloc::{AllocError, Global};

/// How many commits of a binlog are of each writer, the first of which is 0. One of another writer
/// counts for none.
pub fn commit_counts(alloc: Global, writers: u32, binlog: &Binlog) -> Result<Vec<usize>, AllocError>
    ensures { IfOk result (λ counts. counts.items
        ≡ map (commits_of binlog.now.commits) (range_with_len 0 writers)) }
{
    let mut counts = vec![in alloc; 0; writers as usize]?;
    for commit in binlog.as_slice() {
        if commit.writer < writers {
            counts[commit.writer as usize] += 1;
        }
    }
    Ok(counts)
}
