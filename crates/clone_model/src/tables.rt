//! The rows of all tables, by table and key. A slot holds a value, or nothing: then there is no
//! row, but room for one, so that a change of that row takes no memory.
ghost use Rattle.std.specs.Prelude.{◌≡◌, ℕ, OnOk, OnErr, IfOk};
ghost use Rattle.std.specs.FinMap as finite;
ghost use Rattle.clone_model.specs.History.{after_change, after_changes, after_commit, after_commits, rows_in};
ghost use Rattle.clone_model.specs.Room.{HasRoom, HasRoomFor, kept};

use crate::{Change, Commit, Value};
use std::alloc::{AllocError, Global};
use std::collections::BTreeMap;
use std::marker::Model;

/// Each row that was ever set, with its value or none.
type Slots = BTreeMap<(u32, u64), Option<Value>>;

/// The rows of all tables.
#[derive(Debug, Drop)]
pub struct Tables {
    slots: Slots,
}

impl Model for Tables {
    ghost use Rattle.std.specs.Prelude.{List, ℕ};
    ghost use Rattle.std.specs.FinMap as finite;
    ghost use Rattle.std.specs.Coded.{coded_ℕ, coded×, coded_list};
    ghost use Rattle.clone_model.specs.Keys.{row_cmp};

    ghost Value = { finite.FinMap row_cmp (List ℕ) };

    ghost coded = { finite.code (coded× coded_ℕ coded_ℕ) (coded_list coded_ℕ) };

    ghost use Rattle.clone_model.specs.Room.{kept};

    ghost view = { λ t. kept t.slots.entries };
}

impl Tables {
    /// No rows. This takes no memory.
    pub fn new(alloc: Global) -> Tables
        ensures { result ≡ finite.empty }
    {
        Tables {
            slots: BTreeMap::new(alloc),
        }
    }

    /// Applies a commit. After a refusal the rows are as before.
    pub fn apply(&mut self, commit: &Commit) -> Result<(), AllocError>
        ensures ok { OnOk result (self.new ≡ after_commit self.old commit.now) }
        ensures err { OnErr result (self.new ≡ self.old) }
    {
        let changes = commit.changes.as_slice();
        make_room(&mut self.slots, changes)?;
        write(&mut self.slots, changes);
        Ok(())
    }

    /// The rows in ascending order of table and key.
    pub fn rows(&self, alloc: Global) -> Result<Vec<(u32, u64, Value)>, AllocError>
        ensures { IfOk result (λ rows. rows.items ≡ rows_in self.now) }
    {
        rows_of(alloc, &self.slots)
    }

    /// Gives a row its value. After a refusal the rows are as before.
    pub fn set(&mut self, table: u32, key: u64, value: Value) -> Result<(), AllocError>
        ensures ok { OnOk result (self.new ≡ finite.insert self.old (table, key) value) }
        ensures err { OnErr result (self.new ≡ self.old) }
    {
        put(&mut self.slots, table, key, value)
    }

    /// The value of a row, or none.
    pub fn get(&self, table: u32, key: u64) -> Option<Value>
        ensures { result ≡ finite.get self.now (table, key) }
    {
        look(&self.slots, table, key)
    }
}

/// The rows that commits leave: they are applied to no rows, one after the other.
pub fn fold(alloc: Global, commits: &[Commit]) -> Result<Tables, AllocError>
    ensures { IfOk result (λ tables. tables ≡ after_commits finite.empty commits.now) }
{
    let mut tables = Tables::new(alloc);
    for commit in commits {
        tables.apply(commit)?;
    }
    Ok(tables)
}

#[tactic(auto, using(crate::proofs::RowMaps::get_rows))]
fn look(slots: &Slots, table: u32, key: u64) -> Option<Value>
    ensures { result ≡ finite.get (kept slots.now.entries) (table, key) }
{
    match slots.get(&(table, key)) {
        Some(Some(value)) => Some(value.copied()),
        _ => None,
    }
}

// The rows that have a value.
fn rows_of(alloc: Global, slots: &Slots) -> Result<Vec<(u32, u64, Value)>, AllocError>
    ensures { IfOk result (λ rows. rows.items ≡ rows_in (kept slots.now.entries)) }
{
    let mut rows = Vec::new(alloc);
    for ((table, key), value) in slots {
        if let Some(value) = value {
            rows.push((*table, *key, value.copied()))?;
        }
    }
    Ok(rows)
}

fn put(slots: &mut Slots, table: u32, key: u64, value: Value) -> Result<(), AllocError>
    ensures ok { OnOk result
        (kept slots.new.entries ≡ finite.insert (kept slots.old.entries) (table, key) value) }
    ensures err { OnErr result (kept slots.new.entries ≡ kept slots.old.entries) }
{
    slots.insert((table, key), Some(value))?;
    Ok(())
}

// Makes a slot for each row that changes.
fn make_room(slots: &mut Slots, changes: &[Change]) -> Result<(), AllocError>
    ensures same { kept slots.new.entries ≡ kept slots.old.entries }
    ensures room { OnOk result (HasRoom slots.new changes.now) }
{
    for change in changes {
        make_slot(slots, change.table, change.key)?;
    }
    Ok(())
}

fn make_slot(slots: &mut Slots, table: u32, key: u64) -> Result<(), AllocError>
    ensures same { kept slots.new.entries ≡ kept slots.old.entries }
    ensures room { OnOk result (HasRoomFor slots.new (table, key)) }
    ensures others { (q : ℕ × ℕ) → HasRoomFor slots.old q → HasRoomFor slots.new q }
{
    if slots.contains_key(&(table, key)) {
        return Ok(());
    }
    slots.insert((table, key), None)?;
    Ok(())
}

// Writes the new values, for which there is room.
fn write(slots: &mut Slots, changes: &[Change])
    requires { HasRoom slots.old changes.now }
    ensures { kept slots.new.entries ≡ after_changes (kept slots.old.entries) changes.now }
{
    for change in changes {
        write_one(slots, change);
    }
}

fn write_one(slots: &mut Slots, change: &Change)
    requires { HasRoomFor slots.old (change.now.table, change.now.key) }
    ensures value { kept slots.new.entries ≡ after_change (kept slots.old.entries) change.now }
    ensures others { (q : ℕ × ℕ) → HasRoomFor slots.old q → HasRoomFor slots.new q }
{
    let value = copied(&change.value);
    match slots.insert((change.table, change.key), value) {
        Ok(_) => {}
        Err(_) => unreachable!(),
    }
}

fn copied(value: &Option<Value>) -> Option<Value>
    ensures { result ≡ value.now }
{
    match value {
        Some(value) => Some(value.copied()),
        None => None,
    }
}
