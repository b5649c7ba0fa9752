//! What proofs alone read of a donor: its redo log from the beginning, and whether each page that
//! was read is the one that the log makes. It has no bytes, and does nothing at run time.
ghost use Rattle.std.specs.Prelude.{◌≡◌};
ghost use Rattle.std.specs.Borrow.{ftrue};
ghost use Rattle.clone_buffer.specs.ShadowState.{State, state_code, first};

use clone_mtr::Record;
use clone_page::Page;
use std::marker::Model;

/// The redo log from its beginning, as mini-transactions, and whether each page that was read so
/// far was the one that the log made by then. It has no bytes, and its calls do nothing at run
/// time.
#[derive(Drop)]
pub struct Shadow {
    pub ghost state: { State } by { state_code },
}

impl Model for Shadow {
    ghost also_owns = { λ _. ftrue };
}

// It owns nothing.
unsafe impl Send for Shadow {}

/// What happened.
#[derive(Clone, Copy, Drop)]
pub enum Note<'a> {
    /// The page of this number of this space was read, and was this one.
    Read(u32, u32, &'a Page),
    /// A mini-transaction was written.
    Wrote(&'a [Record]),
}

impl Shadow {
    ghost use Rattle.clone_buffer.specs.Noted.{noted};

    /// An empty log, and no page was read.
    pub fn new() -> Shadow
        ensures { result.state ≡ first }
    {
        Shadow {}
    }

    /// The shadow once this has happened.
    #[inline(always)]
    pub fn then(&self, _note: &Note<'_>) -> Shadow
        ensures { result.state ≡ noted self.now.state _note.now }
    {
        Shadow {}
    }
}

/// A shadow may go to another thread.
pub fn sent(shadow: Shadow) -> Shadow
    ensures { result.state ≡ shadow.state }
{
    moved(shadow)
}

fn moved<T: Send>(value: T) -> T
    ensures { result ≡ value }
{
    value
}
