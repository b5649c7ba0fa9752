ghost use Rattle.std.specs.Prelude.{◌≡◌, ◌∷◌, []};
ghost use Rattle.clone_contents.specs.Records.{opening_records, position_record};

use clone_contents::SYSTEM_PAGES;
use clone_mtr::{Patch, Record};
use clone_page::{POSITION_AT, PageKind};

/// Makes the system space of 257 pages, and its first page.
pub fn opening() -> [Record; 2]
    ensures { result ≡ opening_records }
{
    [
        Record::Create {
            space: 0,
            pages: SYSTEM_PAGES,
        },
        Record::Init {
            space: 0,
            page: 0,
            kind: PageKind::System,
        },
    ]
}

/// Writes the number of commits.
pub fn position(commits: u64) -> Record
    ensures { result ≡ position_record commits }
{
    Record::Write {
        space: 0,
        page: 0,
        patch: Patch::new(POSITION_AT, &commits.to_be_bytes()),
    }
}
