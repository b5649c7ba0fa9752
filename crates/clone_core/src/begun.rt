ghost use Rattle.std.specs.Prelude.{◌≡◌, ◌+◌, ◌<◌, ◌-◌, ◌^◌, ℕ, IsSome, OnOk, OnErr, unwrap_or};
ghost use Rattle.std.specs.FinMap as finite;
ghost use Rattle.std.specs.Ordering.{nat_cmp};

use std::alloc::{AllocError, Global};
use std::collections::BTreeMap;
use std::marker::Model;

/// How many transactions each writer has begun.
#[derive(Drop)]
pub struct Begun {
    counts: BTreeMap<u32, u64>,
}

impl Model for Begun {
    ghost use Rattle.std.specs.Prelude.{ℕ};
    ghost use Rattle.std.specs.FinMap as finite;
    ghost use Rattle.std.specs.Ordering.{nat_cmp};
    ghost use Rattle.std.specs.Coded.{coded_ℕ};

    ghost Value = { finite.FinMap nat_cmp ℕ };

    ghost coded = { finite.code coded_ℕ coded_ℕ };

    ghost view = { λ b. finite.from_entries b.counts.entries };
}

impl Begun {
    /// No writer has begun a transaction.
    pub fn new(alloc: Global) -> Begun
        ensures { result ≡ finite.empty }
    {
        Begun {
            counts: BTreeMap::new(alloc),
        }
    }

    /// How many transactions a writer has begun, if it was ever counted.
    pub fn count(&self, writer: u32) -> Option<u64>
        ensures { result ≡ finite.get self.now writer }
    {
        self.counts.get(&writer).copied()
    }

    /// A writer begins a transaction. After a refusal nothing has changed.
    pub fn begin(&mut self, writer: u32) -> Result<(), AllocError>
        requires { unwrap_or (finite.get self.old writer) 0 < 2 ^ 64 - 1 }
        ensures ok { OnOk result (self.new
            ≡ finite.insert self.old writer (unwrap_or (finite.get self.old writer) 0 + 1)) }
        ensures err { OnErr result (self.new ≡ self.old) }
    {
        let next = self.count(writer).unwrap_or(0) + 1;
        self.counts.insert(writer, next)?;
        Ok(())
    }

    /// Gives a writer that is counted the count back that it had before. This takes no memory.
    pub fn restore(&mut self, writer: u32, was: Option<u64>)
        requires { IsSome (finite.get self.old writer) }
        ensures { (before : finite.FinMap nat_cmp ℕ) (count : ℕ) → finite.get before writer ≡ was
            → self.old ≡ finite.insert before writer count → self.new ≡ before }
    {
        let Some(count) = was else {
            let _ = self.counts.remove(&writer);
            return;
        };
        match self.counts.insert(writer, count) {
            Ok(_) => {}
            Err(_) => unreachable!(),
        }
    }
}
