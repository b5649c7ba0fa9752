ghost use Rattle.std.specs.Prelude.{◌≡◌, ◌≤◌, ◌↔◌, IfOk, IsSome, IsSomeAnd, IsTrue, OnErr, OnOk};
ghost use Rattle.std.specs.FinMap as finite;
ghost use Rattle.clone_base.specs.Counted.{counted_in};

use std::alloc::{AllocError, Global};
use std::collections::BTreeMap;
use std::marker::Model;

/// How many there are of each of some numbers: pages of a space, or buckets of a table.
#[derive(Drop)]
pub struct Counts {
    counts: BTreeMap<u32, u32>,
}

impl Model for Counts {
    ghost use Rattle.std.specs.FinMap as finite;
    ghost use Rattle.std.specs.Coded.{coded_ℕ};
    ghost use Rattle.clone_base.specs.Counted.{Counted, counted_in};

    ghost Value = { Counted };

    ghost coded = { finite.code coded_ℕ coded_ℕ };

    ghost view = { λ c. counted_in c.counts.entries };
}

impl Counts {
    /// No number is counted.
    pub fn new(alloc: Global) -> Counts
        ensures { result ≡ finite.empty }
    {
        Counts {
            counts: BTreeMap::new(alloc),
        }
    }

    /// How many numbers are counted.
    pub fn len(&self) -> usize
        ensures { result ≡ finite.len self.now }
    {
        self.counts.len()
    }

    /// How many there are of a number, if it is counted.
    pub fn get(&self, number: u32) -> Option<u32>
        ensures { result ≡ finite.get self.now number }
    {
        self.counts.get(&number).copied()
    }

    /// Whether a number is counted and there are at least so many.
    pub fn reaches(&self, number: u32, least: u32) -> bool
        ensures { IsTrue result
            ↔ (IsSomeAnd (finite.get self.now number) (λ count. least ≤ count)) }
    {
        match self.get(number) {
            Some(count) => least <= count,
            None => false,
        }
    }

    /// The numbers in ascending order, each with how many there are.
    pub fn list(&self, alloc: Global) -> Result<Vec<(u32, u32)>, AllocError>
        ensures { IfOk result (λ counts. counts.items ≡ finite.entries self.now) }
    {
        let _count = self.counts.len();
        listed(alloc, &self.counts)
    }

    /// There are so many of a number from now on. After a refusal all is as before.
    pub fn insert(&mut self, number: u32, count: u32) -> Result<(), AllocError>
        ensures ok { OnOk result (self.new ≡ finite.insert self.old number count) }
        ensures err { OnErr result (self.new ≡ self.old) }
    {
        self.counts.insert(number, count)?;
        Ok(())
    }

    /// There are so many from now on of a number that is counted. No memory is taken.
    pub fn raise(&mut self, number: u32, count: u32)
        ensures { IsSome (finite.get self.old number)
            → self.new ≡ finite.insert self.old number count }
    {
        raise_in(&mut self.counts, number, count);
    }

    /// A number isn't counted any more. No memory is taken.
    pub fn remove(&mut self, number: u32)
        ensures { self.new ≡ finite.remove self.old number }
    {
        let _ = self.counts.remove(&number);
    }
}

// The entries of a map, in its order.
fn listed(alloc: Global, map: &BTreeMap<u32, u32>) -> Result<Vec<(u32, u32)>, AllocError>
    ensures { IfOk result (λ all. all.items ≡ map.now.entries) }
{
    map.iter().map(|(key, value)| (*key, *value)).collect(alloc)
}

// The value of a key that is there.
fn raise_in(map: &mut BTreeMap<u32, u32>, key: u32, value: u32)
    ensures { IsSome (finite.get (counted_in map.old.entries) key)
        → counted_in map.new.entries ≡ finite.insert (counted_in map.old.entries) key value }
{
    if let Some(known) = map.get_mut(&key) {
        *known = value;
    }
}
