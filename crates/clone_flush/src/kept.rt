ghost use Rattle.std.specs.Prelude.{◌≡◌, IfOk, true, false};

use crate::flusher::PageWrite;
use clone_page::Page;
use std::alloc::{AllocError, Global};
use std::marker::Model;

/// The write of a page in memory of its own, so that its image isn't copied when the write is
/// moved.
#[derive(Drop)]
pub struct KeptWrite {
    memory: Box<PageWrite>,
}

impl Model for KeptWrite {
    ghost use Rattle.clone_flush.specs.Flights.{write_code};
    ghost use Rattle.clone_flush.specs.declared.flusher.PageWrite.{PageWrite};

    ghost Value = { PageWrite };

    ghost coded = { write_code };

    ghost view = { λ w. w.memory.value };
}

impl KeptWrite {
    /// The write of a page as it is, of which no half is written.
    pub fn new(alloc: Global, page: &Page) -> Result<KeptWrite, AllocError>
        ensures { IfOk result (λ w. w ≡ record { image = page.now; halved = false }) }
    {
        let write = PageWrite {
            image: Page::from_bytes(page.bytes()),
            halved: false,
        };
        let memory = Box::new(alloc, write)?;
        Ok(KeptWrite { memory })
    }

    /// It becomes the write of a page as it is, of which no half is written.
    pub fn refill(&mut self, page: &Page)
        ensures { self.new ≡ record { image = page.now; halved = false } }
    {
        let write = self.memory.as_mut();
        write.image.bytes_mut().copy_from_slice(page.bytes());
        write.halved = false;
    }

    /// The page as it was when its flush began.
    pub fn image(&self) -> &Page
        ensures { result.now ≡ self.now.image }
    {
        &self.memory.image
    }

    /// Whether its first half is written.
    pub fn is_halved(&self) -> bool
        ensures { result ≡ self.now.halved }
    {
        self.memory.halved
    }

    /// Its first half is written.
    pub fn halve(&mut self)
        ensures { self.new ≡ record self.old { halved = true } }
    {
        self.memory.as_mut().halved = true;
    }
}
