//! What is read of a disk whose pages aren't being written.
ghost use Rattle.std.specs.Prelude.{◌≡◌, IfOk, OnOk};
ghost use Rattle.std.specs.FinMap as finite;
ghost use Rattle.clone_outside.specs.Disk.{ForTold, page_count};
ghost use Rattle.clone_outside.specs.DiskCalls.{Asks};
ghost use Rattle.clone_increment.specs.Readings.{AreSizesOf, ReadsAll, ReadsFirst, ReadsPlace, ReadsPlaces, all_joined, joined};

use crate::counting::is_within;
use crate::page_map::PageMap;
use clone_base::Counts;
use clone_outside::{PageDisk, Refusal};
use std::alloc::Global;
use std::collections::BTreeSet;

/// How many pages each space of a disk has.
pub(crate) fn sizes_of<D: PageDisk>(alloc: Global, disk: &mut D) -> Result<Counts, Refusal>
    ensures sizes { IfOk result (λ sizes. ForTold (D.state disk.old).told (AreSizesOf sizes)) }
    ensures asks { Asks (D.state disk.old) (D.state disk.new) result }
{
    let spaces = disk.spaces(alloc)?;
    let sizes = sizes_in(alloc, disk, &spaces)?;
    Ok(sizes)
}

// How many pages these spaces have.
fn sizes_in<D: PageDisk>(alloc: Global, disk: &mut D, spaces: &[u32]) -> Result<Counts, Refusal>
    ensures sizes { IfOk result (λ sizes. ForTold (D.state disk.old).told
        (λ m. sizes ≡ all_joined (page_count m) finite.empty spaces.now)) }
    ensures asks { Asks (D.state disk.old) (D.state disk.new) result }
{
    let mut sizes = Counts::new(alloc);
    for space in spaces {
        add_size(disk, *space, &mut sizes)?;
    }
    Ok(sizes)
}

fn add_size<D: PageDisk>(disk: &mut D, space: u32, sizes: &mut Counts) -> Result<(), Refusal>
    ensures added { OnOk result (ForTold (D.state disk.old).told
        (λ m. sizes.new ≡ joined sizes.old space (page_count m space))) }
    ensures asks { Asks (D.state disk.old) (D.state disk.new) result }
{
    if let Some(count) = disk.pages(space)? {
        sizes.insert(space, count)?;
    }
    Ok(())
}

/// Every page of a disk that has these sizes.
pub(crate) fn read_all<D: PageDisk>(
    alloc: Global,
    disk: &mut D,
    sizes: &Counts,
) -> Result<PageMap, Refusal>
    ensures pages { IfOk result (λ pages.
        ForTold (D.state disk.old).told (ReadsAll sizes.now pages)) }
    ensures asks { Asks (D.state disk.old) (D.state disk.new) result }
{
    let mut pages = PageMap::new(alloc);
    let list = sizes.list(alloc)?;
    for entry in &list {
        read_first(disk, entry.0, entry.1, &mut pages)?;
    }
    Ok(pages)
}

// Reads the first pages of a space.
fn read_first<D: PageDisk>(
    disk: &mut D,
    space: u32,
    count: u32,
    pages: &mut PageMap,
) -> Result<(), Refusal>
    ensures first { OnOk result
        (ForTold (D.state disk.old).told (ReadsFirst space count pages.old pages.new)) }
    ensures asks { Asks (D.state disk.old) (D.state disk.new) result }
{
    for number in 0..count {
        pages.read(disk, space, number)?;
    }
    Ok(())
}

/// The pages at these places that are there, of a disk that has these sizes.
pub(crate) fn read_places<D: PageDisk>(
    alloc: Global,
    disk: &mut D,
    places: &BTreeSet<(u32, u32)>,
    sizes: &Counts,
) -> Result<PageMap, Refusal>
    ensures pages { IfOk result (λ pages. ForTold (D.state disk.old).told
        (ReadsPlaces sizes.now places.now.keys pages)) }
    ensures asks { Asks (D.state disk.old) (D.state disk.new) result }
{
    let mut pages = PageMap::new(alloc);
    for place in places {
        read_place(disk, *place, sizes, &mut pages)?;
    }
    Ok(pages)
}

fn read_place<D: PageDisk>(
    disk: &mut D,
    place: (u32, u32),
    sizes: &Counts,
    pages: &mut PageMap,
) -> Result<(), Refusal>
    ensures read { OnOk result (ForTold (D.state disk.old).told
        (ReadsPlace sizes.now place pages.old pages.new)) }
    ensures asks { Asks (D.state disk.old) (D.state disk.new) result }
{
    if is_within(sizes, place) {
        pages.read(disk, place.0, place.1)
    } else {
        Ok(())
    }
}
