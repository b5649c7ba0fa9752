//! Pages by space and number, each in a slot of its own. A slot that holds no page is room for one.
ghost use Rattle.std.specs.Prelude.{ℕ, ◌≡◌, ◌||◌, None, IsSome, OnErr, OnOk, cond, is_some};
ghost use Rattle.std.specs.Option.{option_or};
ghost use Rattle.std.specs.BTreeMap.{get};
ghost use Rattle.std.specs.FinMap as finite;
ghost use Rattle.clone_model.specs.Keys.{row_cmp};
ghost use Rattle.clone_model.specs.Room.{kept};
ghost use Rattle.clone_outside.specs.DiskCalls.{Asks};
ghost use Rattle.clone_increment.specs.Copies.{is_within, laid};
ghost use Rattle.clone_increment.specs.Slots.{HasRoomFor, HasRoomForPages, page_in};
ghost use Rattle.clone_increment.specs.Readings.{ReadsPage, joined};

use crate::counting::is_within;
use crate::slot::Slot;
use clone_base::Counts;
use clone_outside::{PageDisk, Refusal};
use clone_page::Page;
use std::alloc::{AllocError, Global};
use std::collections::BTreeMap;
use std::marker::Model;

type Slots = BTreeMap<(u32, u32), Slot>;

/// Pages, each named by its space and its number there.
#[derive(Drop)]
pub(crate) struct PageMap {
    alloc: Global,
    slots: Slots,
}

impl Model for PageMap {
    ghost use Rattle.clone_model.specs.Room.{kept};
    ghost use Rattle.clone_increment.specs.Copies.{PagesByPlace, pages_code};

    ghost Value = { PagesByPlace };

    ghost coded = { pages_code };

    ghost view = { λ p. kept p.slots.entries };
}

impl PageMap {
    /// No page. No memory is taken.
    pub(crate) fn new(alloc: Global) -> PageMap
        ensures { result ≡ finite.empty }
    {
        PageMap {
            alloc,
            slots: BTreeMap::new(alloc),
        }
    }

    /// The page at a place, if there is one.
    pub(crate) fn get(&self, space: u32, number: u32) -> Option<&Page>
        ensures { page_in result ≡ finite.get self.now (space, number) }
    {
        page_of(&self.slots, space, number)
    }

    /// How many pages there are.
    pub(crate) fn count(&self) -> usize
        ensures { result ≡ finite.len self.now }
    {
        count_filled(&self.slots)
    }

    /// Reads a page of a disk. After a refusal all is as before.
    pub(crate) fn read<D: PageDisk>(
        &mut self,
        disk: &mut D,
        space: u32,
        number: u32,
    ) -> Result<(), Refusal>
        ensures ok { OnOk result
            (ReadsPage (D.state disk.old).told space number self.old self.new) }
        ensures err { OnErr result (self.new ≡ self.old) }
        ensures asks { Asks (D.state disk.old) (D.state disk.new) result }
    {
        let slot = Slot::read(self.alloc, disk, space, number)?;
        self.slots.insert((space, number), slot)?;
        Ok(())
    }

    /// Lays copies of other pages over those that stay. After a refusal all is as before.
    pub(crate) fn lay(&mut self, stay: &Counts, others: &PageMap) -> Result<(), AllocError>
        ensures ok { OnOk result
            (self.new ≡ laid others.now (finite.retain_keys self.old (is_within stay.now))) }
        ensures err { OnErr result (self.new ≡ self.old) }
    {
        make_room(self.alloc, &mut self.slots, &others.slots)?;
        keep(&mut self.slots, stay, &others.slots);
        write(&mut self.slots, &others.slots);
        Ok(())
    }
}

#[tactic(auto, using(clone_model::proofs::RowMaps::get_rows))]
fn page_of(slots: &Slots, space: u32, number: u32) -> Option<&Page>
    ensures { page_in result ≡ finite.get (kept slots.now.entries) (space, number) }
{
    match slots.get(&(space, number)) {
        Some(slot) => slot.page(),
        None => None,
    }
}

#[tactic(auto, using(clone_model::proofs::RowMaps::get_rows))]
fn has_page(slots: &Slots, place: (u32, u32)) -> bool
    ensures { result ≡ is_some (finite.get (kept slots.now.entries) place) }
{
    match slots.get(&place) {
        Some(slot) => slot.is_filled(),
        None => false,
    }
}

// How many slots hold a page.
fn count_filled(slots: &Slots) -> usize
    ensures { result ≡ finite.len (kept slots.now.entries) }
{
    let mut count = 0;
    for slot in slots.values() {
        if slot.is_filled() {
            count += 1;
        }
    }
    count
}

// Makes a slot for each of others.
fn make_room(alloc: Global, slots: &mut Slots, others: &Slots) -> Result<(), AllocError>
    ensures same { kept slots.new.entries ≡ kept slots.old.entries }
    ensures room { OnOk result (HasRoomFor slots.new others.now) }
{
    for place in others.keys() {
        make_slot(alloc, slots, *place)?;
    }
    Ok(())
}

// Makes a slot where there is none.
fn make_slot(alloc: Global, slots: &mut Slots, place: (u32, u32)) -> Result<(), AllocError>
    ensures same { kept slots.new.entries ≡ kept slots.old.entries }
    ensures room { OnOk result (IsSome (get row_cmp slots.new place)) }
    ensures others { (q : ℕ × ℕ) → IsSome (get row_cmp slots.old q)
        → IsSome (get row_cmp slots.new q) }
{
    if slots.contains_key(&place) {
        return Ok(());
    }
    let slot = Slot::new(alloc)?;
    slots.insert(place, slot)?;
    Ok(())
}

// Keeps the slots of pages that stay, and those where others have a page.
fn keep(slots: &mut Slots, stay: &Counts, others: &Slots)
    ensures { (q : ℕ × ℕ) → get row_cmp slots.new q
        ≡ cond (is_within stay.now q || is_some (finite.get (kept others.now.entries) q))
        (get row_cmp slots.old q) None }
{
    slots.retain(|place, _| is_within(stay, *place) || has_page(others, *place));
}

// Lays copies of the pages of others, for which there is room.
fn write(slots: &mut Slots, others: &Slots)
    requires { HasRoomForPages slots.old others.now }
    ensures { (q : ℕ × ℕ) → finite.get (kept slots.new.entries) q
        ≡ option_or (finite.get (kept others.now.entries) q)
        (finite.get (kept slots.old.entries) q) }
{
    for (place, slot) in others {
        write_slot(slots, *place, slot);
    }
}

// Lays a copy of the page of a slot, if that holds one.
fn write_slot(slots: &mut Slots, place: (u32, u32), slot: &Slot)
    requires { IsSome slot.now → IsSome (get row_cmp slots.old place) }
    ensures value { kept slots.new.entries
        ≡ joined (kept slots.old.entries) place slot.now }
    ensures others { (q : ℕ × ℕ) → IsSome (get row_cmp slots.old q)
        → IsSome (get row_cmp slots.new q) }
{
    if let Some(page) = slot.page() {
        write_page(slots, place, page);
    }
}

// Lays a copy of a page, for which there is room.
fn write_page(slots: &mut Slots, place: (u32, u32), page: &Page)
    requires { IsSome (get row_cmp slots.old place) }
    ensures value { kept slots.new.entries
        ≡ finite.insert (kept slots.old.entries) place page.now }
    ensures others { (q : ℕ × ℕ) → IsSome (get row_cmp slots.old q)
        → IsSome (get row_cmp slots.new q) }
{
    if let Some(slot) = slots.get_mut(&place) {
        slot.fill(page);
    }
}
