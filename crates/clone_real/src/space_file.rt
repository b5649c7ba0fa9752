//! The file of a space, open. It has whole pages, fewer than 2^32 of them, and nothing but this
//! file's calls changes how many.
ghost use Rattle.std.specs.Prelude.{◌≤◌};

use clone_base::PAGE_SIZE;
use clone_outside::HALF_PAGE;
use std::fs::{File, OpenOptions};
use std::io;
use std::io::ErrorKind;
use std::os::unix::fs::FileExt;
use std::rt::Files;

const PAGE_BYTES: u64 = PAGE_SIZE as u64;

const HALF_BYTES: u64 = HALF_PAGE as u64;

/// The file of a space.
#[derive(Drop)]
pub(crate) struct SpaceFile {
    file: File,
    pages: u32,
    unsynced: bool,
}

impl SpaceFile {
    /// The file at this path, or none where there is none. One that isn't whole pages is an error.
    pub(crate) fn open<R: Files<File = File>>(rt: &R, path: &str) -> io::Result<Option<SpaceFile>> {
        let opened = OpenOptions::new().read(true).write(true).open(rt, path);
        let file = match opened {
            Ok(file) => file,
            Err(error) if error.kind() == ErrorKind::NotFound => return Ok(None),
            Err(error) => return Err(error),
        };
        let pages = whole_pages(file.metadata()?.len())?;
        Ok(Some(SpaceFile {
            file,
            pages,
            unsynced: false,
        }))
    }

    /// The file at this path, which is made if there is none, with no pages.
    pub(crate) fn make<R: Files<File = File>>(rt: &R, path: &str) -> io::Result<SpaceFile> {
        let file = OpenOptions::new()
            .read(true)
            .write(true)
            .create(true)
            .truncate(true)
            .open(rt, path)?;
        Ok(SpaceFile {
            file,
            pages: 0,
            unsynced: true,
        })
    }

    pub(crate) fn pages(&self) -> u32 {
        self.pages
    }

    /// Reads a page by one read, which has to give it whole.
    pub(crate) fn read_page(&self, page: u32, into: &mut [u8; PAGE_SIZE]) -> io::Result<()> {
        let count = self.file.read_at(into, u64::from(page) * PAGE_BYTES)?;
        if count < PAGE_SIZE {
            return Err(io::Error::from(ErrorKind::UnexpectedEof));
        }
        Ok(())
    }

    /// Writes the first half of a page by one write.
    pub(crate) fn write_half(&mut self, page: u32, from: &[u8; PAGE_SIZE]) -> io::Result<()> {
        self.write(page, 0, &from[..HALF_PAGE])
    }

    /// Writes the other half of a page by one write.
    pub(crate) fn write_rest(&mut self, page: u32, from: &[u8; PAGE_SIZE]) -> io::Result<()> {
        self.write(page, HALF_BYTES, &from[HALF_PAGE..])
    }

    // The write has to take all the bytes. A page that isn't there isn't written.
    fn write(&mut self, page: u32, offset: u64, bytes: &[u8]) -> io::Result<()>
        requires { offset ≤ 4096 }
    {
        if page >= self.pages {
            return Err(io::Error::from(ErrorKind::InvalidInput));
        }
        self.unsynced = true;
        let place = u64::from(page) * PAGE_BYTES + offset;
        let count = self.file.write_at(bytes, place)?;
        if count < bytes.len() {
            return Err(io::Error::from(ErrorKind::WriteZero));
        }
        Ok(())
    }

    /// Gives it so many pages, where it has fewer. The new ones are of zero bytes.
    pub(crate) fn extend(&mut self, pages: u32) -> io::Result<()> {
        if pages > self.pages {
            self.set_pages(pages)?;
        }
        Ok(())
    }

    /// Makes it so many pages of zero bytes.
    pub(crate) fn renew(&mut self, pages: u32) -> io::Result<()> {
        self.set_pages(0)?;
        self.set_pages(pages)
    }

    fn set_pages(&mut self, pages: u32) -> io::Result<()> {
        self.unsynced = true;
        self.file.set_len(u64::from(pages) * PAGE_BYTES)?;
        self.pages = pages;
        Ok(())
    }

    /// Syncs the file where it was written since the last time.
    pub(crate) fn sync(&mut self) -> io::Result<()> {
        if self.unsynced {
            self.file.sync_all()?;
            self.unsynced = false;
        }
        Ok(())
    }
}

// How many pages a file of this length has.
fn whole_pages(length: u64) -> io::Result<u32> {
    if length % PAGE_BYTES != 0 {
        return Err(io::Error::from(ErrorKind::InvalidData));
    }
    match u32::try_from(length / PAGE_BYTES) {
        Ok(pages) => Ok(pages),
        Err(_) => Err(io::Error::from(ErrorKind::FileTooLarge)),
    }
}
