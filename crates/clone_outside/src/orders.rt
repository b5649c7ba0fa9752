//! Orders that leave what a disk holds.
ghost use Rattle.std.specs.Prelude.{◌≢◌};
ghost use Rattle.clone_outside.specs.DiskCalls.{Orders};
ghost use Rattle.clone_outside.specs.declared.disk.DiskOrder.TheVariants.{Again};

use crate::{DiskOrder, PageDisk};
use std::alloc::AllocError;

/// Gives a disk an order that leaves what it holds: any but the one to go on after a stop.
pub fn give_order<D: PageDisk>(disk: &mut D, order: DiskOrder) -> Result<(), AllocError>
    requires { order ≢ Again }
    ensures { Orders order (D.state disk.old) (D.state disk.new) result }
{
    disk.order(order)
}
