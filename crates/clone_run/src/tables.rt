//! The tables of a workload, which are made before anything is written.
ghost use Rattle.std.specs.Prelude.{◌≡◌, ◌≤◌, ◌⊎◌, Some, IfErr, IfSome};
ghost use Rattle.clone_base.specs.declared.limits.TheConstants.{TABLE_LIMIT};
ghost use Rattle.clone_run.specs.Beginning.{IsRefused, StopsSetup, of_refusal};
ghost use Rattle.clone_run.specs.Tables.{SetsUp};

use crate::failure::Failure;
use clone_donor::Donor;
use clone_model::{BucketCount, TableNumber};
use clone_outside::PageDisk;
use clone_plain::{Cause, EngineRefusal};
use std::sync::Wait;

/// Makes so many tables, from 1 on. The error is why one isn't made.
pub(crate) fn make_tables<D: PageDisk, H: Wait>(
    rt: &H,
    donor: &mut Donor<D>,
    tables: u32,
    buckets: BucketCount,
) -> Result<(), Failure>
    requires { tables ≤ TABLE_LIMIT }
    ensures sets_up { SetsUp donor.old donor.new }
    ensures why { IfErr result (λ failure. StopsSetup failure donor.old donor.new) }
{
    for number in 1..=tables {
        let Some(table) = TableNumber::new(number) else {
            unreachable!();
        };
        make_table(rt, donor, table, buckets)?;
    }
    Ok(())
}

/// Makes a table. Where the log or the pool is full, pages are flushed first.
fn make_table<D: PageDisk, H: Wait>(
    rt: &H,
    donor: &mut Donor<D>,
    table: TableNumber,
    buckets: BucketCount,
) -> Result<(), Failure>
    ensures sets_up { SetsUp donor.old donor.new }
    ensures why { IfErr result (λ failure. StopsSetup failure donor.old donor.new) }
{
    for _ in rt.forever() {
        if let Some(made) = try_table(donor, table, buckets) {
            return made;
        }
    }
    unreachable!()
}

/// Makes a table that isn't there, or some room for it, which is answered by none.
fn try_table<D: PageDisk>(
    donor: &mut Donor<D>,
    table: TableNumber,
    buckets: BucketCount,
) -> Option<Result<(), Failure>>
    ensures sets_up { SetsUp donor.old donor.new }
    ensures why { IfSome result (λ made. IfErr made (λ failure.
        StopsSetup failure donor.old donor.new)) }
{
    match donor.create(table, buckets) {
        Ok(()) => Some(Ok(())),
        Err(refusal) => {
            if is_there(&refusal) {
                return Some(Ok(()));
            }
            match make_room(donor, refusal) {
                Ok(()) => None,
                Err(failure) => Some(Err(failure)),
            }
        }
    }
}

/// Whether a table isn't made since it is there.
fn is_there(refusal: &EngineRefusal) -> bool {
    match refusal {
        EngineRefusal::Because(Cause::TableExists) => true,
        _ => false,
    }
}

/// Flushes the page that has waited the longest, and takes a checkpoint. The error is the failure
/// that the refusal was, or that of a call.
fn make_room<D: PageDisk>(donor: &mut Donor<D>, refusal: EngineRefusal) -> Result<(), Failure>
    ensures sets_up { SetsUp donor.old donor.new }
    ensures why { IfErr result (λ failure. StopsSetup failure donor.old donor.new
        ⊎ ((of_refusal refusal ≡ Some failure) × (donor.new ≡ donor.old))) }
{
    if let Some(failure) = failure_of(refusal) {
        return Err(failure);
    }
    if let Some((space, page)) = donor.oldest_dirty() {
        if let Some(failure) = flush_page(donor, space, page) {
            return Err(failure);
        }
    }
    let _lsn = donor.checkpoint();
    Ok(())
}

/// Flushes a page, as far as that isn't refused. The answer is a failure.
fn flush_page<D: PageDisk>(donor: &mut Donor<D>, space: u32, page: u32) -> Option<Failure>
    ensures sets_up { SetsUp donor.old donor.new }
    ensures why { IfSome result (λ failure. StopsSetup failure donor.old donor.new) }
{
    match flush(donor, space, page) {
        Ok(()) => None,
        Err(refusal) => failure_of(refusal),
    }
}

fn flush<D: PageDisk>(donor: &mut Donor<D>, space: u32, page: u32) -> Result<(), EngineRefusal>
    ensures sets_up { SetsUp donor.old donor.new }
    ensures refused { IfErr result (λ why. IsRefused why donor.old donor.new) }
{
    donor.flush_begin(space, page)?;
    donor.flush_half(space, page)?;
    donor.flush_land(space, page)
}

fn failure_of(refusal: EngineRefusal) -> Option<Failure>
    ensures { result ≡ of_refusal refusal }
{
    match refusal {
        EngineRefusal::Because(Cause::DiskFault) => Some(Failure::DonorDisk),
        EngineRefusal::Because(_) => None,
        EngineRefusal::NoMemory => Some(Failure::Memory),
    }
}
