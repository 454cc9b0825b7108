//! The files of a volume in a folder of the system.

use std::alloc::Global;
use std::collections::BTreeMap;
use std::fs::{self, File, OpenOptions};
use std::io::{self, ErrorKind};
use std::os::unix::fs::FileExt;
use std::path::Path;

/// How many files a folder keeps open.
const MOST_OPEN: usize = 16;

/// The files with a number below this one are not closed: a stream's logs.
const KEPT_OPEN: u32 = 2;

/// How many zeros are written at once.
const PIECE: u32 = 1 << 16;

// What the system says if it lacks space, a descriptor or memory.
const ENOMEM: i32 = 12;

const ENFILE: i32 = 23;

const EMFILE: i32 = 24;

const EFBIG: i32 = 27;

const ENOSPC: i32 = 28;

const EDQUOT: i32 = 122;

/// A file that is open.
#[derive(Drop)]
struct OpenFile {
    file: File,
    /// The number of the use that was the last one.
    used: u64,
    /// Whether all that was written is on the disk, as far as that is known.
    is_synced: bool,
}

/// What came of making a file longer.
#[derive(Drop)]
pub enum Growth {
    Made,
    /// The file is as before. The error says what lacked.
    Refused(io::Error),
}

/// A folder of numbered files. What a file holds is on the disk once `sync` of it succeeded, with the file's
/// name. A call that finds no memory fails with `OutOfMemory`.
#[derive(Drop)]
pub struct Folder {
    rt: HostRuntime,
    path: String,
    handle: File,
    /// Files that are there, by number.
    open: BTreeMap<u32, OpenFile>,
    /// How often one was used.
    uses: u64,
    /// Whether the names of all files are on the disk.
    is_listed: bool,
    /// Whether a sync failed.
    is_lost: bool,
}

/// The number of a file with this name, if it is the name of a numbered file.
fn number_of(name: &str) -> Option<u32> {
    name.strip_prefix('f')?.parse().ok()
}

/// Whether the system has no descriptor left.
fn lacks_descriptor(error: &io::Error) -> bool {
    matches!(error.raw_os_error(), Some(EMFILE | ENFILE))
}

/// Whether something lacks that may be there later: space, a descriptor or memory.
fn is_want(error: &io::Error) -> bool {
    let code = error.raw_os_error();
    matches!(
        code,
        Some(ENOSPC | EDQUOT | EFBIG | EMFILE | ENFILE | ENOMEM)
    ) || error.kind() == ErrorKind::OutOfMemory
}

/// Writes so many zeros at an offset.
fn write_zeros(alloc: Global, file: &File, at: u64, count: u32) -> io::Result<()> {
    let zeros = vec![in alloc; 0u8; PIECE.min(count) as usize]?;
    let end = at.saturating_add(u64::from(count));
    let mut at = at;
    for _ in 0..count.div_ceil(PIECE) {
        let piece = end.saturating_sub(at).min(zeros.len() as u64);
        file.write_all_at(&zeros[..piece as usize], at)?;
        at = at.saturating_add(piece);
    }
    Ok(())
}

impl OpenFile {
    /// Brings what was written to the disk.
    fn sync(&mut self) -> io::Result<()> {
        self.file.sync_data()?;
        self.is_synced = true;
        Ok(())
    }

    /// Makes the file longer by zeros, as `Folder::grow` says. What was written before is brought to the disk first, so that a sync that fails for want of
    /// space loses zeros alone.
    fn grow(&mut self, alloc: Global, count: u32) -> io::Result<Growth> {
        let len = self.file.metadata()?.len();
        if !self.is_synced {
            self.sync()?;
        }
        let grown = write_zeros(alloc, &self.file, len, count).and_then(|()| self.file.sync_data());
        match grown {
            Ok(()) => Ok(Growth::Made),
            Err(error) if is_want(&error) => {
                self.is_synced = false;
                self.file.set_len(len)?;
                Ok(Growth::Refused(error))
            }
            Err(error) => Err(error),
        }
    }
}

/// Makes the folder if it is not there, and brings its name to the disk.
fn make_folder(rt: &HostRuntime, path: &str) -> io::Result<()> {
    match fs::create_dir(rt, path) {
        Ok(()) => {}
        Err(error) if error.kind() == ErrorKind::AlreadyExists => {}
        Err(error) => return Err(error),
    }
    match Path::new(path).parent() {
        Some(parent) if parent.as_str() == "" => File::open(rt, ".")?.sync_all(),
        Some(parent) => File::open(rt, parent)?.sync_all(),
        None => Ok(()),
    }
}

impl Folder {
    /// The folder of a place in `dir`. Both are made if they are not there, but not what `dir` lies in.
    pub fn open(rt: &HostRuntime, dir: &str, place: u32) -> io::Result<Folder> {
        let alloc = rt.alloc();
        let path = format!(in alloc; "{dir}/place-{place:02}")?;
        make_folder(rt, dir)?;
        make_folder(rt, path.as_str())?;
        let handle = File::open(rt, path.as_str())?;
        Ok(Folder {
            rt: *rt,
            path,
            handle,
            open: BTreeMap::new(alloc),
            uses: 0,
            is_listed: false,
            is_lost: false,
        })
    }

    /// The path of the place's folder.
    pub fn path(&self) -> &str {
        self.path.as_str()
    }

    /// The file's length, which is 0 if it is not there.
    pub fn len(&mut self, number: u32) -> io::Result<u64> {
        match self.find(number)? {
            Some(open) => Ok(open.file.metadata()?.len()),
            None => Ok(0),
        }
    }

    /// A number behind that of every file that is there.
    pub fn end(&self) -> io::Result<u64> {
        let mut end = 0;
        for entry in fs::read_dir(&self.rt, self.path.as_str())? {
            if let Some(number) = number_of(entry?.file_name()) {
                end = end.max(u64::from(number) + 1);
            }
        }
        Ok(end)
    }

    /// Reads a range of the file.
    pub fn read_at(&mut self, number: u32, at: u64, into: &mut [u8]) -> io::Result<()> {
        match self.find(number)? {
            Some(open) => open.file.read_exact_at(into, at),
            None if into.is_empty() => Ok(()),
            None => Err(ErrorKind::UnexpectedEof.into()),
        }
    }

    /// Writes the bytes over what is there. A range past the end fails with `InvalidInput`.
    pub fn write_at(&mut self, number: u32, at: u64, bytes: &[u8]) -> io::Result<()> {
        let len = self.len(number)?;
        match at.checked_add(bytes.len() as u64) {
            Some(end) if end <= len => {}
            _ => return Err(ErrorKind::InvalidInput.into()),
        }
        match self.open.get_mut(&number) {
            Some(open) => {
                open.is_synced = false;
                open.file.write_all_at(bytes, at)
            }
            None => Ok(()),
        }
    }

    /// Makes the file longer by zeros that are on the disk then, and makes it if it is not there. If something lacks for that, the file gets its old length
    /// again. An error may leave it longer, and each later sync fails.
    pub fn grow(&mut self, number: u32, count: u32) -> io::Result<Growth> {
        let alloc = self.rt.alloc();
        let grown = match self.find_or_make(number) {
            Ok(open) => open.grow(alloc, count),
            Err(error) if is_want(&error) => return Ok(Growth::Refused(error)),
            Err(error) => return Err(error),
        };
        self.is_lost = self.is_lost || grown.is_err();
        grown
    }

    /// Cuts the file to a length. One that is shorter fails with `InvalidInput`. A file that is cut to 0 is removed, which needs no descriptor.
    pub fn cut(&mut self, number: u32, to: u64) -> io::Result<()> {
        if to == 0 {
            return self.remove(number);
        }
        if to > self.len(number)? {
            return Err(ErrorKind::InvalidInput.into());
        }
        match self.open.get_mut(&number) {
            Some(open) => {
                open.is_synced = false;
                open.file.set_len(to)
            }
            None => Ok(()),
        }
    }

    /// Removes the file, if it is there.
    fn remove(&mut self, number: u32) -> io::Result<()> {
        let path = self.path_of(number)?;
        let _closed = self.open.remove(&number);
        match fs::remove_file(&self.rt, path.as_str()) {
            Ok(()) => {
                self.is_listed = false;
                Ok(())
            }
            Err(error) if error.kind() == ErrorKind::NotFound => Ok(()),
            Err(error) => Err(error),
        }
    }

    /// Brings the file to the disk, with its name. After a sync that failed each later one fails: the system may
    /// have dropped what it could not write, and a second attempt would not tell.
    pub fn sync(&mut self, number: u32) -> io::Result<()> {
        if self.is_lost {
            return Err(ErrorKind::Other.into());
        }
        let synced = self.try_sync(number);
        self.is_lost = synced.is_err();
        synced
    }

    fn try_sync(&mut self, number: u32) -> io::Result<()> {
        if let Some(open) = self.find(number)? {
            open.sync()?;
        }
        if !self.is_listed {
            self.handle.sync_all()?;
            self.is_listed = true;
        }
        Ok(())
    }

    /// The file, open, if it is there.
    fn find(&mut self, number: u32) -> io::Result<Option<&mut OpenFile>> {
        if !self.open.contains_key(&number) {
            let path = self.path_of(number)?;
            if fs::exists(&self.rt, path.as_str())? {
                self.open_file(number, false)?;
            }
        }
        Ok(self.used(number))
    }

    /// The file, open, which is made if it is not there.
    fn find_or_make(&mut self, number: u32) -> io::Result<&mut OpenFile> {
        if self.find(number)?.is_none() {
            self.is_listed = false;
            self.open_file(number, true)?;
        }
        match self.used(number) {
            Some(open) => Ok(open),
            None => Err(ErrorKind::NotFound.into()),
        }
    }

    /// The file, if it is open, which is used now.
    fn used(&mut self, number: u32) -> Option<&mut OpenFile> {
        self.uses = self.uses.saturating_add(1);
        let open = self.open.get_mut(&number)?;
        open.used = self.uses;
        Some(open)
    }

    /// Opens the file, which is not open, or makes it. If as many are open as may be, or the system has no descriptor left, the one that was used longest ago is
    /// closed before.
    fn open_file(&mut self, number: u32, is_new: bool) -> io::Result<()> {
        let path = self.path_of(number)?;
        let mut how = OpenOptions::new();
        how.read(true).write(true).create_new(is_new);
        if self.open.len() >= MOST_OPEN {
            let _is_closed = self.close_oldest();
        }
        let file = match how.open(&self.rt, path.as_str()) {
            Err(error) if lacks_descriptor(&error) && self.close_oldest() => how.open(
                &self.rt,
                path.as_str(),
            )?,
            opened => opened?,
        };
        let open = OpenFile {
            file,
            used: self.uses,
            is_synced: is_new,
        };
        self.open.insert(number, open)?;
        Ok(())
    }

    /// Closes the file that was used longest ago, but no log. Whether there was one.
    fn close_oldest(&mut self) -> bool {
        match self.oldest() {
            Some(number) => self.open.remove(&number).is_some(),
            None => false,
        }
    }

    /// The number of the open file that was used longest ago and is no log.
    fn oldest(&self) -> Option<u32> {
        let mut oldest = None;
        let mut least = u64::MAX;
        for (number, open) in &self.open {
            if *number >= KEPT_OPEN && open.used <= least {
                least = open.used;
                oldest = Some(*number);
            }
        }
        oldest
    }

    fn path_of(&self, number: u32) -> io::Result<String> {
        Ok(format!(in self.rt.alloc(); "{}/f{number:05}", self.path.as_str())?)
    }
}
