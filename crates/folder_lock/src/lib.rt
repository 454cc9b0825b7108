//! The lock of a folder, by which one process alone writes what is kept in it.
#![tactic(auto)]

use std::fs::{self, File, OpenOptions, TryLockError};
use std::io::{self, ErrorKind};

/// Why a folder was not locked.
#[derive(Drop, Debug)]
pub enum LockFault {
    /// Somebody has the lock.
    InUse,
    /// The folder or the file in it can't be made or opened, or the system has no lock for it.
    Failed(io::Error),
}

/// The lock of a folder. It is given up when it is dropped, and by the system when the process ends, however it ends.
#[derive(Drop)]
pub struct FolderLock {
    file: File,
}

/// Makes the folder if it is not there.
fn make_folder(rt: &HostRuntime, dir: &str) -> io::Result<()> {
    match fs::create_dir(rt, dir) {
        Err(error) if error.kind() == ErrorKind::AlreadyExists => Ok(()),
        made => made,
    }
}

/// The folder's file that is locked. It is empty, and stays.
fn lock_file(rt: &HostRuntime, dir: &str) -> io::Result<File> {
    make_folder(rt, dir)?;
    let path = format!(in rt.alloc(); "{dir}/lock")?;
    OpenOptions::new()
        .read(true)
        .write(true)
        .create(true)
        .open(rt, path.as_str())
}

impl FolderLock {
    /// Takes the lock of the folder `dir`, and does not wait for it. The folder is made if it is not there, but not what it lies in. The lock is on the
    /// file `lock` in it, and keeps out those alone that take it too.
    pub fn take(rt: &HostRuntime, dir: &str) -> Result<FolderLock, LockFault> {
        let file = match lock_file(rt, dir) {
            Ok(file) => file,
            Err(error) => return Err(LockFault::Failed(error)),
        };
        match file.try_lock() {
            Ok(()) => Ok(FolderLock { file }),
            Err(TryLockError::WouldBlock) => Err(LockFault::InUse),
            Err(TryLockError::Error(error)) => Err(LockFault::Failed(error)),
        }
    }
}
