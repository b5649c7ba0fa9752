ghost use Rattle.std.specs.Prelude.{◌≡◌};
ghost use Rattle.clone_mtr.specs.Effects.{effect};
ghost use Rattle.clone_mtr.specs.References.{record_of};

use crate::{Record, RecordRef};
use clone_page::Page;

/// Does to a page what the record says, where the record names it. `lsn` is the end of the record's
/// mini-transaction.
pub fn apply(entry: &Record, page: &mut Page, lsn: u64)
    ensures { page.new ≡ effect lsn entry.now page.old }
{
    entry.by_reference().apply(page, lsn);
}

impl RecordRef<'_> {
    /// Does to a page what the record says, where the record names it. `lsn` is the end of the
    /// record's mini-transaction.
    pub fn apply(&self, page: &mut Page, lsn: u64)
        ensures { page.new ≡ effect lsn (record_of self.now) page.old }
    {
        match self {
            RecordRef::Init {
                space,
                page: number,
                kind,
            } => page.init(*space, *number, *kind, lsn),
            RecordRef::Write { patch, .. } => {
                page.write_at(patch.offset(), patch.bytes());
                page.set_lsn(lsn);
            }
            RecordRef::Extend { .. } | RecordRef::Create { .. } | RecordRef::Drop { .. } => {}
        }
    }
}
