//! Redo records, and mini-transactions of them. A mini-transaction has one record at least, each
//! with its numbers in their ranges; its records count together or not at all.
ghost use Rattle.std.specs.Prelude.{◌≡◌, ◌++◌, ◌∷◌, [], OnOk, OnErr, IfOk};
ghost use Rattle.clone_mtr.specs.Records.{IsRecord, IsMtr};

use crate::Patch;
use clone_page::PageKind;
use std::alloc::{AllocError, Global};
use std::marker::Model;

/// One change that the redo log tells.
#[derive(Drop)]
pub enum Record {
    /// A page is made anew, with a body of zero bytes.
    Init {
        space: u32,
        page: u32,
        kind: PageKind,
    },
    /// Bytes are written on a page.
    Write {
        space: u32,
        page: u32,
        patch: Patch,
    },
    /// A space has at least so many pages.
    Extend {
        space: u32,
        pages: u32,
    },
    /// A space is made, with so many unused pages.
    Create {
        space: u32,
        pages: u32,
    },
    /// A space is gone.
    Drop {
        space: u32,
    },
}

impl Record {
    /// Each record is in its ranges: its numbers are of their types, and its patch is one.
    pub fn known(&self)
        ensures { IsRecord self.now }
    {
        match self {
            Record::Init { space, page, .. } => {
                let _ = (*space, *page);
            }
            Record::Write { space, page, patch } => {
                let _ = (*space, *page);
                patch.bytes();
            }
            Record::Extend { space, pages } | Record::Create { space, pages } => {
                let _ = (*space, *pages);
            }
            Record::Drop { space } => {
                let _space = *space;
            }
        }
    }
}

/// One record or more, which count together or not at all.
#[derive(Drop)]
pub struct Mtr {
    records: Vec<Record>,
}

impl Model for Mtr {
    ghost use Rattle.std.specs.Prelude.{List};
    ghost use Rattle.clone_mtr.specs.Records.{IsMtr};
    ghost use Rattle.clone_mtr.specs.declared.record.Record.{Record};

    ghost Value = { List Record };

    ghost view = { λ m. m.records.items };

    ghost invariant = { λ m. IsMtr m.records.items };
}

impl Mtr {
    /// A mini-transaction of one record.
    pub fn new(alloc: Global, first: Record) -> Result<Mtr, AllocError>
        ensures { IfOk result (λ mtr. mtr ≡ first ∷ []) }
    {
        first.known();
        let mut records = Vec::new(alloc);
        records.push(first)?;
        Ok(Mtr { records })
    }

    /// Adds a record at the end. After a refusal the mini-transaction is as before.
    pub fn push(&mut self, next: Record) -> Result<(), AllocError>
        ensures ok { OnOk result (self.new ≡ self.old ++ next ∷ []) }
        ensures err { OnErr result (self.new ≡ self.old) }
    {
        next.known();
        self.records.push(next)?;
        Ok(())
    }

    /// The records in their order.
    pub fn records(&self) -> &[Record]
        ensures value { result.now ≡ self.now }
        ensures mtr { IsMtr self.now }
    {
        &self.records
    }
}
