//! The locks of rows, kept twice: who holds each row, and for each of the 64 transactions the rows
//! that it holds. A row stands in the list of a transaction exactly where that transaction holds
//! it.
ghost use Rattle.std.specs.Prelude.{◌≡◌, ◌<◌, ◌==◌, [], Some, IfOk, OnOk, OnErr, IsOk, IfSome};
ghost use Rattle.std.specs.List.{list_any};
ghost use Rattle.std.specs.FinMap as finite;
ghost use Rattle.clone_base.specs.declared.limits.TheConstants.{TRANSACTION_LIMIT};
ghost use Rattle.clone_plain.specs.Causes.{least_holder};
ghost use Rattle.clone_plain.specs.Effects.{Releases};
ghost use Rattle.clone_trx.specs.Locked.{holders_of, without};

use clone_plain::TRANSACTION_LIMIT;
use std::alloc::{AllocError, Global};
use std::collections::BTreeMap;
use std::marker::Model;

type RowName = (u32, u64);

/// Which transaction holds the lock of each locked row.
#[derive(Drop)]
pub struct Locks {
    holders: BTreeMap<RowName, u32>,
    // the rows that each transaction holds, by its number
    rows: Vec<Vec<RowName>>,
}

impl Model for Locks {
    ghost use Rattle.std.specs.Coded.{coded_ℕ, coded×};
    ghost use Rattle.std.specs.FinMap as finite;
    ghost use Rattle.clone_plain.specs.Donor as plain;

    ghost Value = { plain.Locks };

    ghost coded = { finite.code (coded× coded_ℕ coded_ℕ) coded_ℕ };

    ghost use Rattle.clone_trx.specs.Locked.{holders_of, AreListed};

    ghost view = { λ l. holders_of l.holders.entries };

    ghost invariant = { λ l. AreListed (holders_of l.holders.entries) l.rows.items };
}

impl Locks {
    /// No row is locked.
    pub fn new(alloc: Global) -> Result<Locks, AllocError>
        ensures { IfOk result (λ locks. locks ≡ finite.empty) }
    {
        let mut rows = Vec::new(alloc);
        for _ in 0..TRANSACTION_LIMIT {
            rows.push(Vec::new(alloc))?;
        }
        Ok(Locks {
            holders: BTreeMap::new(alloc),
            rows,
        })
    }

    /// The transaction that holds the row's lock, if one does.
    pub fn holder(&self, table: u32, key: u64) -> Option<u32>
        ensures { result ≡ finite.get self.now (table, key) }
    {
        self.holders.get(&(table, key)).copied()
    }

    /// The least transaction that holds the lock of a row of the table, if one does.
    pub fn least_holder(&self, table: u32) -> Option<u32>
        ensures { result ≡ least_holder self.now table }
    {
        for trx in 0..TRANSACTION_LIMIT {
            if has_row_of(&self.rows[trx as usize], table) {
                return Some(trx);
            }
        }
        None
    }

    /// The transaction holds the row's lock, which no other does. Where it holds it already this
    /// takes no memory. After a refusal the locks are as before.
    pub fn lock(&mut self, trx: u32, table: u32, key: u64) -> Result<(), AllocError>
        requires open { trx < TRANSACTION_LIMIT }
        requires free { IfSome (finite.get self.old (table, key)) (λ holder. holder ≡ trx) }
        ensures ok { OnOk result (self.new ≡ finite.insert self.old (table, key) trx) }
        ensures err { OnErr result (self.new ≡ self.old) }
        ensures without_memory { finite.get self.old (table, key) ≡ Some trx → IsOk result }
    {
        let row = (table, key);
        if self.holders.contains_key(&row) {
            return Ok(());
        }
        self.rows[trx as usize].reserve(1)?;
        self.holders.insert(row, trx)?;
        self.rows[trx as usize].push_reserved(row);
        Ok(())
    }

    /// The transaction holds no lock, and the others hold theirs. This takes no memory.
    pub fn release(&mut self, trx: u32)
        requires { trx < TRANSACTION_LIMIT }
        ensures { Releases trx self.old self.new }
    {
        remove_all(&mut self.holders, &self.rows[trx as usize]);
        self.rows[trx as usize].clear();
    }
}

// Takes the rows out of the map.
fn remove_all(holders: &mut BTreeMap<RowName, u32>, rows: &[RowName])
    ensures { holders_of holders.new.entries ≡ without rows.now (holders_of holders.old.entries) }
{
    for row in rows {
        holders.remove(row);
    }
}

// Whether one of the rows is one of the table.
fn has_row_of(rows: &[RowName], table: u32) -> bool
    ensures { result ≡ list_any (λ row. row.0 == table) rows.now }
{
    rows.iter().any(|row| row.0 == table)
}
