//! The directory of a disk: the file `mark`, if there is a mark, and a file `space_N.pages` for
//! each space N, with its pages one after another. Other files are foreign, and stay as they are.
ghost use Rattle.std.specs.Prelude.{◌≢◌, Err, IfOk};
ghost use Rattle.std.specs.List.Sorted.{IsStrictlyIncreasing};

use crate::fault_count::faulted;
use crate::names::{push_file_name, space_named};
use crate::space_file::SpaceFile;
use clone_base::PAGE_SIZE;
use clone_outside::{MARK_SIZE, Refusal};
use std::alloc::{AllocError, Global};
use std::collections::BTreeMap;
use std::collections::btree_map::Entry;
use std::fs::{File, ReadDir};
use std::io::{ErrorKind, Write};
use std::os::unix::fs::FileExt;
use std::path::Path;
use std::rt::Files;
use std::{fs, io};

// How many bytes a path has at most behind the directory's.
const NAME_ROOM: usize = 32;

/// The directory, with the files of the spaces that were used so far. They stay open.
#[derive(Drop)]
pub(crate) struct Directory {
    rt: HostRuntime,
    alloc: Global,
    directory: String,
    // room for the path of a file
    path: String,
    files: BTreeMap<u32, SpaceFile>,
    // how many directories, from this one upwards, have an entry that isn't synced
    unsynced: usize,
}

impl Directory {
    /// The directory at this path, of which nothing is touched yet.
    pub(crate) fn new(rt: HostRuntime, directory: &str) -> Result<Directory, AllocError> {
        let alloc = rt.alloc();
        let room = directory.len().saturating_add(NAME_ROOM);
        Ok(Directory {
            rt,
            alloc,
            directory: String::from_str(alloc, directory)?,
            path: String::with_capacity(alloc, room)?,
            files: BTreeMap::new(alloc),
            unsynced: 0,
        })
    }

    /// The numbers of the spaces, by the names of the files.
    pub(crate) fn spaces(&self, alloc: Global) -> Result<Vec<u32>, Refusal>
        ensures { IfOk result (λ all. IsStrictlyIncreasing all.items) }
    {
        match fs::read_dir(&self.rt, self.directory.as_str()) {
            Ok(entries) => numbers_in(alloc, entries),
            Err(error) if error.kind() == ErrorKind::NotFound => Ok(Vec::new(alloc)),
            Err(error) => Err(refusal_of(&error)),
        }
    }

    /// How many pages a space has, or none where it isn't there.
    pub(crate) fn pages(&mut self, space: u32) -> Result<Option<u32>, Refusal> {
        self.open(space)?;
        match self.files.get(&space) {
            Some(file) => Ok(Some(file.pages())),
            None => Ok(None),
        }
    }

    /// Reads a page. No memory for a file that isn't open yet is a fault.
    pub(crate) fn read_page(
        &mut self,
        space: u32,
        page: u32,
        into: &mut [u8; PAGE_SIZE],
    ) -> Result<(), Refusal>
        ensures { result ≢ Err Refusal.NoMemory }
    {
        if self.open(space).is_err() {
            return Err(Refusal::Fault);
        }
        match self.files.get(&space) {
            Some(file) => faulted(file.read_page(page, into)),
            None => Err(Refusal::Fault),
        }
    }

    /// Writes the first half of a page.
    pub(crate) fn write_half(
        &mut self,
        space: u32,
        page: u32,
        from: &[u8; PAGE_SIZE],
    ) -> Result<(), Refusal> {
        self.open(space)?;
        match self.files.get_mut(&space) {
            Some(file) => faulted(file.write_half(page, from)),
            None => Err(Refusal::Fault),
        }
    }

    /// Writes the other half of a page.
    pub(crate) fn write_rest(
        &mut self,
        space: u32,
        page: u32,
        from: &[u8; PAGE_SIZE],
    ) -> Result<(), Refusal> {
        self.open(space)?;
        match self.files.get_mut(&space) {
            Some(file) => faulted(file.write_rest(page, from)),
            None => Err(Refusal::Fault),
        }
    }

    /// Makes a space longer, if it is there and shorter.
    pub(crate) fn extend(&mut self, space: u32, pages: u32) -> Result<(), Refusal> {
        self.open(space)?;
        match self.files.get_mut(&space) {
            Some(file) => faulted(file.extend(pages)),
            None => Ok(()),
        }
    }

    /// Makes a space of so many pages of zero bytes.
    pub(crate) fn create(&mut self, space: u32, pages: u32) -> Result<(), Refusal> {
        if let Some(file) = self.files.get_mut(&space) {
            return faulted(file.renew(pages));
        }
        self.name_space(space)?;
        let entry = self.files.entry(space)?;
        let levels = faulted(make_directory(&self.rt, self.directory.as_str()))?;
        self.unsynced = self.unsynced.max(levels);
        let mut file = faulted(SpaceFile::make(&self.rt, self.path.as_str()))?;
        let made = faulted(file.renew(pages));
        if let Entry::Vacant(place) = entry {
            place.insert(file);
        }
        made
    }

    /// Takes a space away, if it is there. It takes no memory.
    pub(crate) fn remove(&mut self, space: u32) -> Result<(), Refusal>
        ensures { result ≢ Err Refusal.NoMemory }
    {
        if self.name_space(space).is_err() {
            return Err(Refusal::Fault);
        }
        self.files.remove(&space);
        match fs::remove_file(&self.rt, self.path.as_str()) {
            Ok(()) => self.unsynced = self.unsynced.max(1),
            Err(error) if error.kind() == ErrorKind::NotFound => {}
            Err(_) => return Err(Refusal::Fault),
        }
        Ok(())
    }

    /// The bytes of the mark, or none where there is no mark.
    pub(crate) fn read_mark(&mut self) -> Result<Option<[u8; MARK_SIZE]>, Refusal> {
        self.name("mark")?;
        faulted(read_mark_at(&self.rt, self.path.as_str()))
    }

    /// Makes these bytes the mark. They are written to a file of their own, which then takes the
    /// name of the mark, so that there is no moment with a part of them.
    pub(crate) fn write_mark(&mut self, mark: &[u8; MARK_SIZE]) -> Result<(), Refusal> {
        self.name("mark")?;
        let path = self.path.clone()?;
        self.name("mark.new")?;
        let levels = faulted(make_directory(&self.rt, self.directory.as_str()))?;
        self.unsynced = self.unsynced.max(levels);
        faulted(write_synced(&self.rt, self.path.as_str(), mark))?;
        self.unsynced = self.unsynced.max(1);
        faulted(fs::rename(&self.rt, self.path.as_str(), path.as_str()))
    }

    /// Syncs the files that were written since the last time, and the directories in which a file
    /// or a directory was made or removed.
    pub(crate) fn sync(&mut self) -> Result<(), Refusal> {
        for file in self.files.values_mut() {
            faulted(file.sync())?;
        }
        if self.unsynced > 0 {
            faulted(sync_directories(&self.rt, self.directory.as_str(), self.unsynced))?;
            self.unsynced = 0;
        }
        Ok(())
    }

    // Opens the file of a space, if it is there and isn't open yet.
    fn open(&mut self, space: u32) -> Result<(), Refusal> {
        if self.files.contains_key(&space) {
            return Ok(());
        }
        self.name_space(space)?;
        if let Entry::Vacant(place) = self.files.entry(space)? {
            if let Some(file) = faulted(SpaceFile::open(&self.rt, self.path.as_str()))? {
                place.insert(file);
            }
        }
        Ok(())
    }

    // Lets `path` be that of the file of this name.
    fn name(&mut self, name: &str) -> Result<(), AllocError> {
        self.path.clear();
        self.path.push_str(self.directory.as_str())?;
        self.path.push('/')?;
        self.path.push_str(name)
    }

    // Lets `path` be that of the file of the space.
    fn name_space(&mut self, space: u32) -> Result<(), AllocError> {
        self.name("")?;
        push_file_name(&mut self.path, space)
    }
}

// Why a listing failed. It changed nothing, so no memory is no fault.
fn refusal_of(error: &io::Error) -> Refusal {
    if error.kind() == ErrorKind::OutOfMemory {
        Refusal::NoMemory
    } else {
        Refusal::Fault
    }
}

// The numbers of the spaces whose files are listed, ascending.
fn numbers_in<R: Files + Clone + Drop>(
    alloc: Global,
    entries: ReadDir<R, Global>,
) -> Result<Vec<u32>, Refusal>
    ensures { IfOk result (λ all. IsStrictlyIncreasing all.items) }
{
    let mut numbers = Vec::new(alloc);
    for entry in entries {
        match entry {
            Ok(entry) => note_number(alloc, entry.file_name(), &mut numbers)?,
            // a name that is no text is foreign
            Err(error) if error.kind() == ErrorKind::InvalidFilename => {}
            Err(error) => return Err(refusal_of(&error)),
        }
    }
    put_in_order(&mut numbers);
    Ok(numbers)
}

// Adds the number of the space whose file has this name, if it is no foreign one.
fn note_number(alloc: Global, name: &str, numbers: &mut Vec<u32>) -> Result<(), AllocError> {
    if let Some(space) = space_named(alloc, name)? {
        numbers.push(space)?;
    }
    Ok(())
}

// Puts the numbers in order, each once.
fn put_in_order(numbers: &mut Vec<u32>)
    ensures { IsStrictlyIncreasing numbers.new.items }
{
    numbers.sort_unstable();
    numbers.dedup();
}

// The bytes of the mark in the file at this path, or none where there is no such file.
fn read_mark_at<R: Files<File = File>>(rt: &R, path: &str) -> io::Result<Option<[u8; MARK_SIZE]>> {
    let file = match File::open(rt, path) {
        Ok(file) => file,
        Err(error) if error.kind() == ErrorKind::NotFound => return Ok(None),
        Err(error) => return Err(error),
    };
    let mut mark = [0; MARK_SIZE];
    let length = file.metadata()?.len();
    if length != MARK_SIZE as u64 || file.read_at(&mut mark, 0)? < MARK_SIZE {
        return Err(io::Error::from(ErrorKind::InvalidData));
    }
    Ok(Some(mark))
}

// Writes a file of these bytes, and syncs it.
fn write_synced<R: Files<File = File>>(rt: &R, path: &str, bytes: &[u8]) -> io::Result<()> {
    let mut file = File::create(rt, path)?;
    file.write_all(bytes)?;
    file.sync_all()
}

// Makes the directory, if it is missing, with those above it that are missing too. Says how many
// directories, from this one upwards, get an entry where a file is made in it.
fn make_directory<R: Files<File = File>>(rt: &R, directory: &str) -> io::Result<usize> {
    let missing = count_missing(rt, directory);
    if missing > 0 {
        fs::create_dir_all(rt, directory)?;
    }
    Ok(missing.saturating_add(1))
}

// How many directories at the end of this path are missing.
fn count_missing<R: Files>(rt: &R, directory: &str) -> usize {
    let mut missing = 0_usize;
    for path in Path::new(directory).ancestors() {
        let text = path.as_str();
        if text.is_empty() || rt.metadata(text).is_ok() {
            break;
        }
        missing = missing.saturating_add(1);
    }
    missing
}

// Syncs so many directories, from the one at this path upwards.
fn sync_directories<R: Files<File = File>>(
    rt: &R,
    directory: &str,
    count: usize,
) -> io::Result<()> {
    for path in Path::new(directory).ancestors().take(count) {
        let text = path.as_str();
        let named = if text.is_empty() { "." } else { text };
        File::open(rt, named)?.sync_all()?;
    }
    Ok(())
}
