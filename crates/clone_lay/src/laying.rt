//! Where a clone stands on a disk: page n of a space is at n of that space, and redo byte i,
//! counted from the checkpoint, is in the redo's space on page i / 4,096 at i mod 4,096. Behind
//! the last redo byte its page has zero bytes. A page that is made to give room has zero bytes.
ghost use Rattle.std.specs.Prelude.{◌≡◌, ◌<◌, ◌≤◌, ◌+◌, ◌-◌, ◌*◌, ◌%◌, ◌^◌, OnOk, OnErr, length};
ghost use Rattle.std.specs.FinMap as finite;
ghost use Rattle.clone_base.specs.declared.limits.TheConstants.{LSN_LIMIT, PAGE_SIZE, REDO_SPACE};
ghost use Rattle.clone_outside.specs.Disk.{ForTold, IsBeforeOrAfter, Steps, with_page, whole, ChangesOnly, IsSameBut};
ghost use Rattle.clone_outside.specs.DiskCalls.{Works};
ghost use Rattle.clone_outside.specs.Stops.{Keeps};
ghost use Rattle.clone_lay.specs.Laid.{with_room, laid_page};
ghost use Rattle.clone_lay.specs.Redo.{filled, redo_page, laid_redo};
ghost use Rattle.clone_lay.specs.Sized.{AreSizes};

use clone_base::{Counts, PAGE_SIZE, REDO_SPACE};
use clone_outside::{PageDisk, Refusal, write_page};

/// How many bytes a block of redo has. The last one may have fewer.
pub const REDO_BLOCK: usize = 4 * PAGE_SIZE;

/// Sees to it that a space has at least so many pages. A space that isn't there is made, and one
/// with fewer pages is extended, by pages of zero bytes. Before pages that follow one another this
/// spares an extension for each of them. After an error the copy is to be given up, since the sizes
/// may be behind.
pub fn make_room<R: PageDisk>(
    disk: &mut R,
    sizes: &mut Counts,
    space: u32,
    pages: u32,
) -> Result<(), Refusal>
    requires { ForTold (R.state disk.old).told (AreSizes sizes.old) }
    ensures ok { OnOk result
        (Steps (R.state disk.old).told (R.state disk.new).told (with_room space pages)) }
    ensures sizes { OnOk result (ForTold (R.state disk.new).told (AreSizes sizes.new)) }
    ensures partial { OnErr result
        (IsBeforeOrAfter (R.state disk.old).told (R.state disk.new).told (with_room space pages)) }
    ensures works { Works (R.state disk.old) (R.state disk.new) result }
    ensures stops { Keeps (IsSameBut space) (R.state disk.old).stops (R.state disk.new).stops }
{
    if sizes.reaches(space, pages) {
        return Ok(());
    }
    grow(disk, sizes, space, pages)?;
    sizes.insert(space, pages)?;
    Ok(())
}

// Makes a space of so many pages, or extends it where it is there.
fn grow<R: PageDisk>(disk: &mut R, sizes: &Counts, space: u32, pages: u32) -> Result<(), Refusal>
    requires { ForTold (R.state disk.old).told (AreSizes sizes.now) }
    ensures ok { OnOk result
        (Steps (R.state disk.old).told (R.state disk.new).told (with_room space pages)) }
    ensures partial { OnErr result
        (IsBeforeOrAfter (R.state disk.old).told (R.state disk.new).told (with_room space pages)) }
    ensures works { Works (R.state disk.old) (R.state disk.new) result }
    ensures stops { Keeps (IsSameBut space) (R.state disk.old).stops (R.state disk.new).stops }
{
    match sizes.get(space) {
        Some(_) => disk.extend(space, pages),
        None => disk.create(space, pages),
    }
}

/// Lays a page at its place. A page past the end of its space, or of a space that isn't there, is
/// written after room was made for it. After an error the copy is to be given up.
pub fn lay_page<R: PageDisk>(
    disk: &mut R,
    sizes: &mut Counts,
    space: u32,
    number: u32,
    page: &[u8; PAGE_SIZE],
) -> Result<(), Refusal>
    requires sizes { ForTold (R.state disk.old).told (AreSizes sizes.old) }
    requires within { number < 2 ^ 32 - 1 }
    ensures ok { OnOk result
        (Steps (R.state disk.old).told (R.state disk.new).told (laid_page space number page.now)) }
    ensures sizes { OnOk result (ForTold (R.state disk.new).told (AreSizes sizes.new)) }
    ensures partial { OnErr result
        (ChangesOnly space (R.state disk.old).told (R.state disk.new).told) }
    ensures works { Works (R.state disk.old) (R.state disk.new) result }
    ensures stops { Keeps (IsSameBut space) (R.state disk.old).stops (R.state disk.new).stops }
{
    make_room(disk, sizes, space, number + 1)?;
    write_page(disk, space, number, page)
}

/// Lays redo bytes from an LSN on, in the redo's space at their distance from the checkpoint. Zero
/// bytes fill the page of the last of them. After an error the copy is to be given up.
pub fn lay_redo<R: PageDisk>(
    disk: &mut R,
    sizes: &mut Counts,
    checkpoint: u64,
    from: u64,
    bytes: &[u8],
) -> Result<(), Refusal>
    requires sizes { ForTold (R.state disk.old).told (AreSizes sizes.old) }
    requires behind { checkpoint ≤ from }
    requires whole { (from - checkpoint) % PAGE_SIZE ≡ 0 }
    requires within { from + length bytes.now ≤ LSN_LIMIT }
    ensures ok { OnOk result
        (Steps (R.state disk.old).told (R.state disk.new).told
        (laid_redo (from - checkpoint) bytes.now)) }
    ensures sizes { OnOk result (ForTold (R.state disk.new).told (AreSizes sizes.new)) }
    ensures partial { OnErr result
        (ChangesOnly REDO_SPACE (R.state disk.old).told (R.state disk.new).told) }
    ensures works { Works (R.state disk.old) (R.state disk.new) result }
    ensures stops { Keeps (IsSameBut REDO_SPACE) (R.state disk.old).stops (R.state disk.new).stops }
{
    let first = ((from - checkpoint) / PAGE_SIZE as u64) as u32;
    let count = bytes.len().div_ceil(PAGE_SIZE) as u32;
    make_room(disk, sizes, REDO_SPACE, first + count)?;
    for number in 0..count {
        write_redo_page(disk, first, bytes, number)?;
    }
    Ok(())
}

// Writes the page of this number among those of redo bytes, the first of which stands at `first`.
fn write_redo_page<R: PageDisk>(
    disk: &mut R,
    first: u32,
    bytes: &[u8],
    number: u32,
) -> Result<(), Refusal>
    requires within { PAGE_SIZE * number ≤ length bytes.now }
    requires fits { first + number < 2 ^ 32 }
    ensures ok { OnOk result (Steps (R.state disk.old).told (R.state disk.new).told
        (λ m. with_page m REDO_SPACE (first + number) (λ _. whole (redo_page bytes.now number)))) }
    ensures partial { OnErr result
        (ChangesOnly REDO_SPACE (R.state disk.old).told (R.state disk.new).told) }
    ensures works { Works (R.state disk.old) (R.state disk.new) result }
    ensures stops { Keeps (IsSameBut REDO_SPACE) (R.state disk.old).stops (R.state disk.new).stops }
{
    let rest = &bytes[PAGE_SIZE * number as usize..];
    match rest.first_chunk() {
        Some(page) => write_page(disk, REDO_SPACE, first + number, page),
        None => write_page(disk, REDO_SPACE, first + number, &fill(rest)),
    }
}

// A page that begins with these bytes, and has zero bytes behind them.
fn fill(bytes: &[u8]) -> [u8; PAGE_SIZE]
    requires { length bytes.now ≤ PAGE_SIZE }
    ensures { result ≡ filled bytes.now }
{
    let mut page = [0; PAGE_SIZE];
    page[..bytes.len()].copy_from_slice(bytes);
    page
}
