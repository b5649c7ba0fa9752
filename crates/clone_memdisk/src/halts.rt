//! The stops that a disk in memory is to make, and its calls, of which each may come to a stop.
ghost use Rattle.std.specs.Prelude.{◌≡◌, true, false, OnOk, OnErr, List, [], ◌∷◌, ◌++◌, drop, slice_get};
ghost use Rattle.clone_memdisk.specs.Halts.{Fails, Goes, has_stopped, nearer};

use clone_outside::FaultPlan;
use std::alloc::{AllocError, Global};
use std::marker::Model;

/// A stop, after so many calls more, of which this choice says what it keeps.
#[derive(Clone, Copy)]
pub struct Halt {
    pub calls: u64,
    pub choice: u8,
}

/// The stops that are still to end. The first of them is under way, or has come.
#[derive(Drop)]
pub struct Halts {
    list: Vec<Halt>,
}

impl Model for Halts {
    ghost use Rattle.std.specs.Prelude.{List};
    ghost use Rattle.clone_memdisk.specs.declared.halts.Halt.{Halt};

    ghost Value = { List Halt };

    ghost view = { λ h. h.list.items };
}

impl Halts {
    /// No stops.
    pub fn new(alloc: Global) -> Halts
        ensures { result ≡ [] }
    {
        Halts {
            list: Vec::new(alloc),
        }
    }

    /// The first of them.
    pub fn first(&self) -> Option<Halt>
        ensures { result ≡ slice_get self.now 0 }
    {
        self.list.first().copied()
    }

    /// One more, which waits for those before it.
    pub fn push(&mut self, halt: Halt) -> Result<(), AllocError>
        ensures ok { OnOk result (self.new ≡ self.old ++ halt ∷ []) }
        ensures err { OnErr result (self.new ≡ self.old) }
    {
        self.list.push(halt)?;
        Ok(())
    }

    /// The first of them has ended, if there is one.
    pub fn end_first(&mut self)
        ensures { self.new ≡ drop 1 self.old }
    {
        if !self.list.is_empty() {
            self.list.remove(0);
        }
    }

    // Whether the disk has stopped.
    fn has_come(&self) -> bool
        ensures { result ≡ has_stopped self.now }
    {
        has_stopped(&self.list)
    }

    // Counts a call that is carried out.
    fn count(&mut self)
        ensures { self.new ≡ nearer self.old }
    {
        come_nearer(&mut self.list);
    }
}

/// Counts a call, and says whether it is carried out: it isn't exactly where the plan names it or
/// the disk has stopped.
pub fn begin(plan: &mut FaultPlan, halts: &mut Halts) -> bool
    ensures goes { result ≡ true → Goes plan.old plan.new halts.old halts.new }
    ensures fails { result ≡ false → Fails plan.old plan.new halts.old halts.new }
{
    if halts.has_come() {
        let _ = plan.fail();
        return false;
    }
    if plan.begin().is_err() {
        return false;
    }
    halts.count();
    true
}

fn has_stopped(halts: &[Halt]) -> bool
    ensures { result ≡ has_stopped halts.now }
{
    match halts.first() {
        Some(halt) => halt.calls == 0,
        None => false,
    }
}

fn come_nearer(halts: &mut [Halt])
    ensures { halts.new ≡ nearer halts.old }
{
    if let Some(halt) = halts.first_mut() {
        halt.calls = halt.calls.saturating_sub(1);
    }
}
