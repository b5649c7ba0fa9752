//! A page is written whole, in its two halves.
ghost use Rattle.std.specs.Prelude.{OnOk, OnErr};
ghost use Rattle.clone_outside.specs.Disk.{ChangesOnly, Steps, whole, with_page};
ghost use Rattle.clone_outside.specs.DiskCalls.{Works};
ghost use Rattle.clone_outside.specs.Scopes.{OnlyPage};
ghost use Rattle.clone_outside.specs.Stops.{Keeps};

use crate::{PageDisk, Refusal};
use clone_base::PAGE_SIZE;

/// Writes both halves of a page. A page that isn't there stays so. After an error its write may be
/// open, and what bytes it has is left open.
pub fn write_page<D: PageDisk>(
    disk: &mut D,
    space: u32,
    number: u32,
    page: &[u8; PAGE_SIZE],
) -> Result<(), Refusal>
    ensures written { OnOk result (Steps (D.state disk.old).told (D.state disk.new).told
        (λ m. with_page m space number (λ _. whole page.now))) }
    ensures partial { OnErr result
        (ChangesOnly space (D.state disk.old).told (D.state disk.new).told) }
    ensures works { Works (D.state disk.old) (D.state disk.new) result }
    ensures stops { Keeps (OnlyPage space number)
        (D.state disk.old).stops (D.state disk.new).stops }
{
    disk.write_half(space, number, page)?;
    disk.write_rest(space, number, page)
}
