//! The records of a mini-transaction where their spellings stand, one behind the other: these
//! bytes hold nothing else, and each record is in its ranges.
ghost use Rattle.std.specs.Prelude.{◌≡◌};
ghost use Rattle.clone_mtr.specs.Answers.{IsNext};
ghost use Rattle.clone_mtr.specs.Left.{records_of, AreRecords};

use crate::RecordRef;
use crate::fields::item_of;
use clone_bytes::Reader;
use std::marker::Model;

/// The records that are left of a mini-transaction, read where their spelling stands. No memory is
/// taken.
#[derive(Drop)]
pub struct Records<'a> {
    left: &'a [u8],
}

impl<'a> Model for Records<'a> {
    ghost use Rattle.std.specs.Prelude.{List};
    ghost use Rattle.clone_mtr.specs.declared.record.Record.{Record};
    ghost use Rattle.clone_mtr.specs.Left.{records_of, AreRecords};

    ghost Value = { List Record };

    ghost view = { λ r. records_of r.left.now };

    ghost invariant = { λ r. AreRecords r.left.now };
}

impl<'a> Records<'a> {
    // The records whose spellings these bytes are.
    pub(crate) fn new(left: &'a [u8]) -> Records<'a>
        requires { AreRecords left.now }
        ensures { result ≡ records_of left.now }
    {
        Records { left }
    }

    /// The next record, or none where none is left.
    pub fn next(&mut self) -> Option<RecordRef<'a>>
        ensures { IsNext self.old self.new result }
    {
        if self.left.is_empty() {
            return None;
        }
        let mut reader = Reader::new(self.left);
        match item_of(0, &mut reader) {
            Ok(entry) => {
                self.left = reader.rest();
                entry
            }
            Err(_) => None,
        }
    }

    /// The same records, to be read once more.
    pub fn again(&self) -> Records<'a>
        ensures { result ≡ self.now }
    {
        Records { left: self.left }
    }
}
