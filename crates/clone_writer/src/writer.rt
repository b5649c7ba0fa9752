//! A writer keeps the changes of the transaction that is open: they are those that the workload
//! generates for its index. Before the first one is open it keeps none.
ghost use Rattle.std.specs.Prelude.{◌≡◌, ◌<◌, ◌≤◌, OnOk, OnErr};
ghost use Rattle.std.specs.Prelude.{List};
ghost use Rattle.clone_workload.specs.declared.generator.TheConstants.{INDEX_LIMIT};
ghost use Rattle.clone_writer.specs.Writers.{asked, call_of, starting, told};
ghost use Rattle.clone_writer.specs.declared.writer.Place.TheVariants.{Within};

use clone_model::{Change, Changes};
use clone_plain::{Cause, EngineAnswer, EngineCall, EngineRefusal, Undone};
use clone_workload::generated;
use std::alloc::{AllocError, Global};
use std::marker::Model;

/// How far a writer is with its next transaction.
#[derive(Clone, Copy, Debug, PartialEq, Eq, Drop)]
pub enum Place {
    /// It isn't open.
    Before,
    /// It is open, and so many of its changes are made.
    Within {
        /// Its number at the donor.
        trx: u32,
        /// How many changes are made.
        made: usize,
    },
    /// It is open, and its changes are taken back, since another transaction had locked a row.
    Undoing {
        /// Its number at the donor.
        trx: u32,
    },
}

/// A writer, which commits the transactions that a workload generates for it, one after the other.
#[derive(Drop)]
pub struct Writer {
    seed: u64,
    number: u32,
    tables: u32,
    count: u64,
    index: u64,
    place: Place,
    changes: Changes,
}

impl Model for Writer {
    ghost use Rattle.std.specs.Prelude.{◌<◌, ◌≤◌};
    ghost use Rattle.clone_workload.specs.declared.generator.TheConstants.{INDEX_LIMIT};
    ghost use Rattle.clone_writer.specs.Writers.{Writer, KeepsChanges};

    ghost Value = { Writer };

    ghost view = { λ w. record {
      seed = w.seed;
      number = w.number;
      tables = w.tables;
      count = w.count;
      index = w.index;
      place = w.place;
    } };

    ghost invariant = { λ w. (0 < w.tables) × (w.count ≤ INDEX_LIMIT) × (w.index ≤ w.count)
        × KeepsChanges (record {
          seed = w.seed;
          number = w.number;
          tables = w.tables;
          count = w.count;
          index = w.index;
          place = w.place;
        }) w.changes };
}

impl Writer {
    /// A writer that has made nothing yet: it is to commit so many transactions, on tables from 1
    /// to `tables`. This takes no memory.
    pub fn new(alloc: Global, seed: u64, number: u32, tables: u32, count: u64) -> Writer
        requires tables { 0 < tables }
        requires count { count ≤ INDEX_LIMIT }
        ensures { result ≡ starting seed number tables count }
    {
        Writer {
            seed,
            number,
            tables,
            count,
            index: 0,
            place: Place::Before,
            changes: Changes::new(alloc),
        }
    }

    /// The call that the writer makes next, or none once all its transactions are committed.
    pub fn next(&self) -> Option<EngineCall>
        ensures { result ≡ asked self.now }
    {
        if self.index == self.count {
            return None;
        }
        Some(match self.place {
            Place::Before => EngineCall::Begin {
                writer: self.number,
                index: self.index,
            },
            Place::Within { trx, made } => match self.changes.as_slice().get(made) {
                Some(change) => call_of(trx, change),
                None => EngineCall::Commit { trx },
            },
            Place::Undoing { trx } => EngineCall::UndoOne { trx },
        })
    }

    /// Takes the answer to that call. Memory is asked for the changes of a transaction that has
    /// begun; where there is none, the writer is as before.
    pub fn take(
        &mut self,
        alloc: Global,
        answer: &Result<EngineAnswer, EngineRefusal>,
    ) -> Result<(), AllocError>
        ensures ok { OnOk result (self.new ≡ told self.old answer.now) }
        ensures err { OnErr result (self.new ≡ self.old) }
    {
        if self.index == self.count {
            return Ok(());
        }
        match self.place {
            Place::Before => {
                if let Ok(EngineAnswer::Begin { trx }) = *answer {
                    self.changes = generated(
                        alloc,
                        self.seed,
                        self.number,
                        self.index,
                        self.tables,
                    )?;
                    self.place = Place::Within { trx, made: 0 };
                }
            }
            Place::Within { trx, made } => self.take_within(trx, made, answer),
            Place::Undoing { .. } => {
                if let Ok(
                    EngineAnswer::UndoOne {
                        undone: Undone::Ended,
                    },
                ) = answer
                {
                    self.place = Place::Before;
                }
            }
        }
        Ok(())
    }

    /// Takes the answer to a change or to the commit of the open transaction.
    fn take_within(&mut self, trx: u32, made: usize, answer: &Result<EngineAnswer, EngineRefusal>)
        requires place { self.old.place ≡ Within trx made }
        requires more { self.old.index < self.old.count }
        ensures { self.new ≡ told self.old answer.now }
    {
        let whole = made >= self.changes.len();
        match answer {
            Ok(_) if whole => {
                self.index += 1;
                self.place = Place::Before;
            }
            Ok(_) => {
                self.place = Place::Within {
                    trx,
                    made: made + 1,
                };
            }
            Err(EngineRefusal::Because(Cause::RowLocked { .. })) if !whole => {
                self.place = Place::Undoing { trx };
            }
            Err(_) => {}
        }
    }
}

/// The call that makes a change.
fn call_of(trx: u32, change: &Change) -> EngineCall
    ensures { result ≡ call_of trx change.now }
{
    match &change.value {
        Some(value) => EngineCall::Put {
            trx,
            table: change.table,
            key: change.key,
            value: value.copied(),
        },
        None => EngineCall::Delete {
            trx,
            table: change.table,
            key: change.key,
        },
    }
}
