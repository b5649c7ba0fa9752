ghost use Rattle.std.specs.Prelude.{◌≡◌, ◌≤◌, length, IfOk};
ghost use Rattle.clone_session.specs.Effects.{created_since, is_listed};

use std::alloc::{AllocError, Global};

/// The files of spaces that weren't there when these were listed. Each space, and each file, has
/// its number and how many pages it has.
pub(crate) fn created_since(
    alloc: Global,
    spaces: &[(u32, u32)],
    files: &[(u32, u32)],
) -> Result<Vec<(u32, u32)>, AllocError>
    ensures created { IfOk result (λ created. created.items ≡ created_since spaces.now files.now) }
    ensures few { IfOk result (λ created. length created.items ≤ length files.now) }
{
    let mut created = Vec::new(alloc);
    for (space, pages) in files {
        if !is_listed(*space, spaces) {
            created.push((*space, *pages))?;
        }
    }
    Ok(created)
}

// Whether a space is one of these.
fn is_listed(space: u32, spaces: &[(u32, u32)]) -> bool
    ensures { result ≡ is_listed space spaces.now }
{
    spaces.iter().any(|listed| listed.0 == space)
}
