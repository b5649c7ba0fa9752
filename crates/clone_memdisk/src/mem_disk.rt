ghost use Rattle.std.specs.Prelude.{◌≡◌, ◌≢◌, Err, IfOk, IsErr, OnOk, OnErr, IsErrOf, drop, is_some};
ghost use Rattle.std.specs.List.Sorted.{IsStrictlyIncreasing};
ghost use Rattle.clone_outside.specs.DiskCalls.{Asks, Changes, IsGiven, Reads, Syncs, Takes, Writes};
ghost use Rattle.clone_outside.specs.Stops as change;
ghost use Rattle.clone_outside.specs.Disk.{GivesQuiet, Opens, space_numbers, page_count, page_of, with_page, half_written, rest_written, with_extended, with_created, with_removed, with_mark};
ghost use Rattle.clone_memdisk.specs.Changes.{change_of, entry_of, with_change};
ghost use Rattle.clone_memdisk.specs.Contained.{IsTied};
ghost use Rattle.clone_memdisk.specs.Halts.{halting};
ghost use Rattle.clone_memdisk.specs.Stored.{IsCounted, state_of, fresh, fresh_recording, interrupted, ordered, resumed, IsRead};

use crate::change::Change;
use crate::contents::Contents;
use crate::halts::{Halt, Halts, begin};
use clone_base::PAGE_SIZE;
use clone_outside::{DiskOrder, FaultPlan, MARK_SIZE, PageDisk, Refusal};
use std::alloc::{AllocError, Global};
use std::marker::Model;

/// A page disk in memory.
///
/// A call fails exactly where an order named it or the disk has stopped, and a failed call changes
/// no byte, no space and no mark; but after a failed half write the page's write is open. A read of
/// an open page gives the bytes that the page has by then, or what the last order to tear says.
///
/// A disk that records keeps the list of its changes, and tells what a stop leaves. Each changing
/// call but `remove` takes memory for the list, and so does `sync`. Other disks do nothing on the
/// orders to stop and to go on.
#[derive(Drop)]
pub struct MemDisk {
    contents: Contents,
    tear: Option<u8>,
    plan: FaultPlan,
    orders: Vec<DiskOrder>,
    halts: Halts,
}

impl Model for MemDisk {
    ghost use Rattle.clone_memdisk.specs.Stored.{Stored};
    ghost use Rattle.clone_memdisk.specs.StoredCodes.{stored_code};

    ghost Value = { Stored };

    ghost coded = { stored_code };

    ghost use Rattle.clone_memdisk.specs.Contained.{IsTied};

    ghost view = { λ d. record {
      contents = d.contents;
      tear = d.tear;
      calls = d.plan;
      orders = d.orders.items;
      halts = d.halts;
    } };

    ghost invariant = { λ d. IsTied d.contents };
}

impl MemDisk {
    /// A disk without spaces and mark, with no calls yet and no orders.
    pub fn new(alloc: Global) -> MemDisk
        ensures { result ≡ fresh }
    {
        MemDisk::with(alloc, Contents::new(alloc))
    }

    /// The same, which keeps the list of its changes and tells what a stop leaves.
    pub fn recording(alloc: Global) -> MemDisk
        ensures { result ≡ fresh_recording }
    {
        MemDisk::with(alloc, Contents::recording(alloc))
    }

    // A disk that holds this, with no calls yet and no orders.
    fn with(alloc: Global, contents: Contents) -> MemDisk
        ensures { result ≡ record fresh { contents = contents } }
    {
        MemDisk {
            contents,
            tear: None,
            plan: FaultPlan::new(alloc),
            orders: Vec::new(alloc),
            halts: Halts::new(alloc),
        }
    }

    // Makes a change. Where it fails all is as before.
    fn change(&mut self, change: &Change) -> Result<(), Refusal>
        ensures takes { Takes (change_of (entry_of change.now)) (with_change (entry_of change.now))
            (state_of self.old) (state_of self.new) result }
        ensures failed { OnErr result (self.new.contents ≡ self.old.contents) }
        ensures counted { IsCounted self.old self.new result }
    {
        if !begin(&mut self.plan, &mut self.halts) {
            return Err(Refusal::Fault);
        }
        self.contents.change(change)?;
        Ok(())
    }

    // Makes a change of a page. Where it fails the page's write is open.
    fn write(&mut self, space: u32, page: u32, change: &Change) -> Result<(), Refusal>
        ensures writes { Changes (change_of (entry_of change.now))
            (with_change (entry_of change.now)) (Opens space page)
            (state_of self.old) (state_of self.new) result }
        ensures opened { IsErrOf result Refusal.Fault → self.new.contents.image
            ≡ with_page self.old.contents.image space page interrupted }
        ensures counted { IsCounted self.old self.new result }
    {
        if !begin(&mut self.plan, &mut self.halts) {
            self.contents.open(space, page);
            return Err(Refusal::Fault);
        }
        self.contents.change(change)?;
        Ok(())
    }

    // Carries out an order, and keeps it.
    fn obey(&mut self, order: DiskOrder) -> Result<(), AllocError>
        ensures carried { OnOk result (self.new ≡ ordered order self.old) }
        ensures same { OnErr result (self.new ≡ self.old) }
    {
        self.orders.reserve(1)?;
        match order {
            DiskOrder::FailAt { call } => self.plan.fail_from_now(call)?,
            DiskOrder::Tear { byte } => self.tear = Some(byte),
            DiskOrder::Stop { calls, choice } => {
                halt(&self.contents, &mut self.halts, Halt { calls, choice })?
            }
            DiskOrder::Again => go_on(&mut self.contents, &mut self.halts)?,
        }
        self.orders.push_reserved(order);
        Ok(())
    }
}

// Lets a disk come to a stop, if its changes are kept.
fn halt(contents: &Contents, halts: &mut Halts, halt: Halt) -> Result<(), AllocError>
    ensures ok { OnOk result
        (halts.new ≡ halting (is_some contents.now.list) halt halts.old) }
    ensures err { OnErr result (halts.new ≡ halts.old) }
{
    if contents.is_recording() {
        halts.push(halt)?;
    }
    Ok(())
}

// Goes on with what the first of the stops leaves, if there is one.
fn go_on(contents: &mut Contents, halts: &mut Halts) -> Result<(), AllocError>
    ensures contents { OnOk result (contents.new ≡ resumed halts.old contents.old) }
    ensures halts { OnOk result (halts.new ≡ drop 1 halts.old) }
    ensures same { OnErr result (contents.new ≡ contents.old) }
    ensures kept { OnErr result (halts.new ≡ halts.old) }
    ensures tied { IsTied contents.old → IsTied contents.new }
{
    let Some(halt) = halts.first() else {
        return Ok(());
    };
    contents.stop(halt.choice)?;
    halts.end_first();
    Ok(())
}

impl PageDisk for MemDisk {
    ghost state = { state_of };

    fn faults(&self) -> u64 {
        self.plan.faults()
    }

    /// The numbers of the spaces that are there, ascending.
    fn spaces(&mut self, alloc: Global) -> Result<Vec<u32>, Refusal>
        ensures ascending { IfOk result (λ all. IsStrictlyIncreasing all.items) }
        ensures all { IfOk result
            (λ all. all.items ≡ space_numbers self.old.contents.image) }
        ensures asks { Asks (state_of self.old) (state_of self.new) result }

        ensures counted { IsCounted self.old self.new result }
    {
        if !begin(&mut self.plan, &mut self.halts) {
            return Err(Refusal::Fault);
        }
        Ok(self.contents.numbers(alloc)?)
    }

    fn pages(&mut self, space: u32) -> Result<Option<u32>, Refusal>
        ensures count { IfOk result (λ n. n ≡ page_count self.old.contents.image space) }
        ensures asks { Asks (state_of self.old) (state_of self.new) result }

        ensures memory { result ≢ Err Refusal.NoMemory }
        ensures counted { IsCounted self.old self.new result }
    {
        if !begin(&mut self.plan, &mut self.halts) {
            return Err(Refusal::Fault);
        }
        Ok(self.contents.pages(space))
    }

    /// A page that isn't there leaves `into` as it is.
    fn read_page(
        &mut self,
        space: u32,
        page: u32,
        into: &mut [u8; PAGE_SIZE],
    ) -> Result<(), Refusal>
        ensures quiet { OnOk result (GivesQuiet self.old.contents.image space page into.new) }
        ensures memory { result ≢ Err Refusal.NoMemory }
        ensures reads { Reads (IsErr result) (state_of self.old) (state_of self.new) }

        ensures read { OnOk result
            (IsRead self.old.tear (page_of self.old.contents.image space page)
            into.old into.new) }
        ensures counted { IsCounted self.old self.new result }
    {
        if !begin(&mut self.plan, &mut self.halts) {
            return Err(Refusal::Fault);
        }
        self.contents.read(self.tear, space, page, into);
        Ok(())
    }

    fn write_half(&mut self, space: u32, page: u32, from: &[u8; PAGE_SIZE]) -> Result<(), Refusal>
        ensures writes { Writes change.WriteHalf space page (half_written from.now)
            (state_of self.old) (state_of self.new) result }

        ensures opened { IsErrOf result Refusal.Fault → self.new.contents.image
            ≡ with_page self.old.contents.image space page interrupted }
        ensures counted { IsCounted self.old self.new result }
    {
        self.write(space, page, &Change::Half { space, page, from })
    }

    fn write_rest(&mut self, space: u32, page: u32, from: &[u8; PAGE_SIZE]) -> Result<(), Refusal>
        ensures writes { Writes change.WriteRest space page (rest_written from.now)
            (state_of self.old) (state_of self.new) result }

        ensures opened { IsErrOf result Refusal.Fault → self.new.contents.image
            ≡ with_page self.old.contents.image space page interrupted }
        ensures counted { IsCounted self.old self.new result }
    {
        self.write(space, page, &Change::Rest { space, page, from })
    }

    fn extend(&mut self, space: u32, pages: u32) -> Result<(), Refusal>
        ensures takes { Takes (change.Extend space pages) (λ m. with_extended m space pages)
            (state_of self.old) (state_of self.new) result }

        ensures failed { OnErr result (self.new.contents ≡ self.old.contents) }
        ensures counted { IsCounted self.old self.new result }
    {
        self.change(&Change::Extend { space, pages })
    }

    fn create(&mut self, space: u32, pages: u32) -> Result<(), Refusal>
        ensures takes { Takes (change.Create space pages) (λ m. with_created m space pages)
            (state_of self.old) (state_of self.new) result }

        ensures failed { OnErr result (self.new.contents ≡ self.old.contents) }
        ensures counted { IsCounted self.old self.new result }
    {
        self.change(&Change::Create { space, pages })
    }

    fn remove(&mut self, space: u32) -> Result<(), Refusal>
        ensures memory { result ≢ Err Refusal.NoMemory }
        ensures takes { Takes (change.Remove space) (λ m. with_removed m space)
            (state_of self.old) (state_of self.new) result }

        ensures failed { OnErr result (self.new.contents ≡ self.old.contents) }
        ensures counted { IsCounted self.old self.new result }
    {
        if !begin(&mut self.plan, &mut self.halts) {
            return Err(Refusal::Fault);
        }
        self.contents.remove(space);
        Ok(())
    }

    fn read_mark(&mut self) -> Result<Option<[u8; MARK_SIZE]>, Refusal>
        ensures mark { IfOk result (λ mark. mark ≡ self.old.contents.image.mark) }
        ensures asks { Asks (state_of self.old) (state_of self.new) result }

        ensures memory { result ≢ Err Refusal.NoMemory }
        ensures counted { IsCounted self.old self.new result }
    {
        if !begin(&mut self.plan, &mut self.halts) {
            return Err(Refusal::Fault);
        }
        Ok(self.contents.mark())
    }

    fn write_mark(&mut self, mark: &[u8; MARK_SIZE]) -> Result<(), Refusal>
        ensures takes { Takes (change.WriteMark mark.now) (λ m. with_mark m mark.now)
            (state_of self.old) (state_of self.new) result }

        ensures failed { OnErr result (self.new.contents ≡ self.old.contents) }
        ensures counted { IsCounted self.old self.new result }
    {
        self.change(&Change::Mark { bytes: mark })
    }

    fn sync(&mut self) -> Result<(), Refusal>
        ensures syncs { Syncs (state_of self.old) (state_of self.new) result }

        ensures counted { IsCounted self.old self.new result }
    {
        if !begin(&mut self.plan, &mut self.halts) {
            return Err(Refusal::Fault);
        }
        self.contents.sync()?;
        Ok(())
    }

    /// Lets a call fail, says what reads of open pages give from now on, or lets a disk that
    /// records stop and go on.
    fn order(&mut self, order: DiskOrder) -> Result<(), AllocError>
        ensures given { OnOk result (IsGiven order (state_of self.old) (state_of self.new)) }
        ensures refused { OnErr result (state_of self.new ≡ state_of self.old) }

        ensures carried { OnOk result (self.new ≡ ordered order self.old) }
        ensures same { OnErr result (self.new ≡ self.old) }
    {
        self.obey(order)
    }
}
