//! What an answer brings is laid on the disk, page by page and space by space.
ghost use Rattle.std.specs.Prelude.{◌<◌, OnErr, OnOk};
ghost use Rattle.std.specs.List.{AllByRecursion};
ghost use Rattle.clone_model.specs.declared.line.TheConstants.{MOST_PAGES};
ghost use Rattle.clone_outside.specs.Disk.{ForTold, Steps};
ghost use Rattle.clone_outside.specs.DiskCalls.{Works};
ghost use Rattle.clone_lay.specs.Laid.{laid_pages};
ghost use Rattle.clone_lay.specs.Sized.{AreSizes};
ghost use Rattle.clone_accepted.specs.Disk.{with_rooms};
ghost use Rattle.clone_marks.specs.Counts.{pairs_of};
ghost use Rattle.clone_recipient.specs.Taking.{KeepsMark, laid_at};

use clone_base::Counts;
use clone_chunk::SpaceSize;
use clone_lay::{lay_page, make_room};
use clone_outside::{PageDisk, Refusal};
use clone_page::PageAt;

/// Lays pages, each at its place. After an error the copy is to be given up.
pub(crate) fn lay_pages<R: PageDisk>(
    disk: &mut R,
    sizes: &mut Counts,
    pages: &[PageAt],
) -> Result<(), Refusal>
    requires sizes { ForTold (R.state disk.old).told (AreSizes sizes.old) }
    requires low { AllByRecursion (λ p. p.number < MOST_PAGES) pages.now }
    ensures ok { OnOk result (Steps (R.state disk.old).told (R.state disk.new).told
        (laid_pages (laid_at pages.now))) }
    ensures sizes { OnOk result (ForTold (R.state disk.new).told (AreSizes sizes.new)) }
    ensures mark { OnErr result
        (KeepsMark (R.state disk.old).told (R.state disk.new).told) }
    ensures works { Works (R.state disk.old) (R.state disk.new) result }
{
    for page in pages {
        lay_page(disk, sizes, page.space, page.number, page.page.bytes())?;
    }
    Ok(())
}

/// Makes room for these spaces, each of so many pages. After an error the copy is to be given up.
pub(crate) fn make_rooms<R: PageDisk>(
    disk: &mut R,
    sizes: &mut Counts,
    spaces: &[SpaceSize],
) -> Result<(), Refusal>
    requires { ForTold (R.state disk.old).told (AreSizes sizes.old) }
    ensures ok { OnOk result (Steps (R.state disk.old).told (R.state disk.new).told
        (with_rooms (pairs_of spaces.now))) }
    ensures sizes { OnOk result (ForTold (R.state disk.new).told (AreSizes sizes.new)) }
    ensures mark { OnErr result
        (KeepsMark (R.state disk.old).told (R.state disk.new).told) }
    ensures works { Works (R.state disk.old) (R.state disk.new) result }
{
    for space in spaces {
        make_room(disk, sizes, space.space, space.pages)?;
    }
    Ok(())
}
