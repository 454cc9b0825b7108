//! A volume over a folder.

ghost use Rattle.std.specs.Prelude.{◌≡◌, Ok, IsErr};
ghost use Rattle.js_base.specs.Causes.{HasCause};
ghost use Rattle.vol_disk.specs.Growing.{IsRefused};

use crate::failed::Failed;
use crate::folder::{Folder, Growth};
use crate::room::Room;
use crate::vol::Vol;
use std::io::{self, ErrorKind};
use std::marker::Model;

/// A volume that keeps file n of a place as `dir/place-NN/fNNNNN`, with the numbers in decimal. Of what its
/// files hold nothing is known to contracts, which see how often it failed, and how often it had no room.
///
/// Nobody else may write the folder. A `read_at` or a `write_at` past the end and a `cut` to more than the length fail. After a `sync` that failed each
/// later one fails. A file that is cut to 0 is removed.
///
/// The first call that fails is told by a line on standard error, with the file and the system's reason; so is the first time that there is no room, and a stream
/// that is stopped, with its name.
#[derive(Drop)]
pub struct DirVol {
    rt: HostRuntime,
    folder: Option<Folder>,
    faults: u64,
    refusals: u64,
}

impl Model for DirVol {
    ghost use Rattle.vol_disk.specs.Untold.{Counts};

    ghost Value = { Counts };

    ghost view = { λ s. record { faults = s.faults; refusals = s.refusals } };
}

/// The folder, if it could be opened.
fn opened(folder: &mut Option<Folder>) -> io::Result<&mut Folder> {
    match folder {
        Some(folder) => Ok(folder),
        None => Err(ErrorKind::NotFound.into()),
    }
}

impl DirVol {
    /// The volume of a place in the folder `dir`. Both folders are made if they are not there, but not what `dir`
    /// lies in. If a folder can't be made or opened, that is told on standard error, and each call on the volume fails.
    pub fn open(rt: &HostRuntime, dir: &str, place: u32) -> DirVol
        ensures fresh { result ≡ record { faults = 0; refusals = 0 } }
    {
        let folder = match Folder::open(rt, dir, place) {
            Ok(folder) => Some(folder),
            Err(error) => {
                tell_unopened(rt, dir, place, &error);
                None
            }
        };
        DirVol {
            rt: *rt,
            folder,
            faults: 0,
            refusals: 0,
        }
    }

    /// The answer of a call on a file, or on all of them, which is counted if it failed. The first that failed is told.
    fn counted<T: Drop>(
        &mut self,
        deed: &str,
        file: Option<u32>,
        answer: io::Result<T>,
    ) -> Result<T, Failed>
        ensures cause { HasCause self.old.faults self.new.faults (IsErr result) }
        ensures refusals { self.new.refusals ≡ self.old.refusals }
    {
        match answer {
            Ok(value) => Ok(value),
            Err(error) => {
                if self.faults == 0 {
                    self.tell(deed, file, &error);
                }
                self.faults = self.faults.saturating_add(1);
                Err(Failed)
            }
        }
    }

    /// The answer of a call for room, which is counted if there was none. The first time is told.
    fn room(&mut self, file: u32, growth: Growth) -> Room
        ensures faults { self.new.faults ≡ self.old.faults }
        ensures refused { HasCause self.old.refusals self.new.refusals (IsRefused (Ok result)) }
    {
        match growth {
            Growth::Made => Room::Made,
            Growth::Refused(error) => {
                if self.refusals == 0 {
                    self.tell_refused(file, &error);
                }
                self.refusals = self.refusals.saturating_add(1);
                Room::Refused
            }
        }
    }

    /// Tells on standard error that a call on a file failed, or on all of them. Of a folder that could not be opened that is told already.
    fn tell(&self, deed: &str, file: Option<u32>, error: &io::Error) {
        if let Some(folder) = &self.folder {
            let path = folder.path();
            let _ = match file {
                Some(file) => {
                    eprintln!(self.rt; "jsblock: {path}/f{file:05}: {deed} failed: {error}")
                }
                None => eprintln!(self.rt; "jsblock: {path}: {deed} failed: {error}"),
            };
        }
    }

    /// Tells on standard error that there is no room for a file to get longer.
    fn tell_refused(&self, file: u32, error: &io::Error) {
        if let Some(folder) = &self.folder {
            let path = folder.path();
            let _ = eprintln!(self.rt; "jsblock: {path}/f{file:05}: no room: {error}");
        }
    }
}

/// Tells on standard error that the folder of a place can't be made or opened.
fn tell_unopened(rt: &HostRuntime, dir: &str, place: u32, error: &io::Error) {
    let _ = eprintln!(rt; "jsblock: {dir}/place-{place:02}: it cannot be opened: {error}");
}

impl Vol for DirVol {
    ghost use Rattle.vol_disk.specs.Untold.{untold, untold_clocked};

    ghost disk = { λ _. untold };

    ghost told = { ⊥ };

    ghost faults = { λ counts. counts.faults };

    ghost refusals = { λ counts. counts.refusals };

    ghost clocked = { λ _. untold_clocked };

    ghost honest = { λ told _. absurd told };

    fn len(&mut self, file: u32) -> Result<u64, Failed> {
        let len = opened(&mut self.folder).and_then(|folder| folder.len(file));
        self.counted("len", Some(file), len)
    }

    fn read_at(&mut self, file: u32, at: u64, into: &mut [u8]) -> Result<(), Failed> {
        let read = opened(&mut self.folder).and_then(|folder| folder.read_at(file, at, into));
        self.counted("read", Some(file), read)
    }

    fn write_at(&mut self, file: u32, at: u64, bytes: &[u8]) -> Result<(), Failed> {
        let written = opened(&mut self.folder).and_then(|folder| folder.write_at(file, at, bytes));
        self.counted("write", Some(file), written)
    }

    fn grow(&mut self, file: u32, count: u32) -> Result<Room, Failed> {
        let growth = opened(&mut self.folder).and_then(|folder| folder.grow(file, count));
        let growth = self.counted("grow", Some(file), growth)?;
        Ok(self.room(file, growth))
    }

    fn chunk(&self) -> u32 {
        1 << 20
    }

    fn cut(&mut self, file: u32, to: u64) -> Result<(), Failed> {
        let cut = opened(&mut self.folder).and_then(|folder| folder.cut(file, to));
        self.counted("cut", Some(file), cut)
    }

    fn sync(&mut self, file: u32) -> Result<(), Failed> {
        let synced = opened(&mut self.folder).and_then(|folder| folder.sync(file));
        self.counted("sync", Some(file), synced)
    }

    fn files_end(&mut self) -> Result<u64, Failed> {
        let end = opened(&mut self.folder).and_then(|folder| folder.end());
        self.counted("list", None, end)
    }

    fn tell_stopped(&self, stream: &[u8]) {
        if let Some(folder) = &self.folder {
            let path = folder.path();
            let name = str::from_utf8(stream).unwrap_or("?");
            let _ = eprintln!(self.rt;
                "jsblock: the stream {name} in {path} is stopped until the next start: its disk failed"
            );
        }
    }

    fn faults(&self) -> u64 {
        self.faults
    }

    fn refusals(&self) -> u64 {
        self.refusals
    }
}
