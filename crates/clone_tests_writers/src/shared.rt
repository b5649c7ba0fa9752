//! A donor over a disk in memory that jobs share.
ghost use Rattle.clone_model.specs.Config.{IsConfig};

use clone_donor::Donor;
use clone_engine::OpenRefusal;
use clone_hub::Hub;
use clone_machine::{DonorMachine, JobCall, SharedDonor};
use clone_memdisk::MemDisk;
use clone_model::{BucketCount, Config, TableNumber};
use std::alloc::Global;
use std::sync::Wait;
use std::test::Fail;

pub type Machine = DonorMachine<MemDisk>;

/// A donor with tables from 1 to `tables`, of four buckets each.
pub fn opened(alloc: Global, config: Config, tables: u32) -> Result<Donor<MemDisk>, Fail>
    requires config { IsConfig config }
{
    let mut donor = match Donor::open(alloc, MemDisk::new(alloc), config) {
        Ok(donor) => donor,
        Err(refusal) => {
            let OpenRefusal { cause: _, disk: _ } = refusal;
            return Err(Fail::from("not opened"));
        }
    };
    match make_tables(&mut donor, tables) {
        Ok(()) => Ok(donor),
        Err(refused) => {
            let _disk = donor.into_disk();
            Err(refused)
        }
    }
}

fn make_tables(donor: &mut Donor<MemDisk>, tables: u32) -> Result<(), Fail> {
    let buckets = BucketCount::new(4).ok_or("no count")?;
    for number in 1..=tables {
        let table = TableNumber::new(number).ok_or("no number")?;
        donor.create(table, buckets)?;
    }
    Ok(())
}

/// The donor for jobs, which have seats at it.
pub fn share<R: Wait>(rt: &R, alloc: Global, donor: Donor<MemDisk>) -> Result<Hub<Machine>, Fail> {
    match Hub::new(rt, alloc, SharedDonor::new(alloc, donor)) {
        Ok(hub) => Ok(hub),
        Err(_) => Err(Fail::from("no memory for the cell")),
    }
}

/// From here on the run is to end.
pub fn halt<R: Wait>(rt: &R, hub: &mut Hub<Machine>) {
    let _halted = hub.call(rt, JobCall::Halt);
}
