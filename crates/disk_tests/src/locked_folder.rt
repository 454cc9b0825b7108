//! `folder_lock`: whom a lock keeps out, and for how long.

use folder_lock::{FolderLock, LockFault};
use std::fs;
use std::io::ErrorKind;
use std::test::Fail;

const FOLDER: &str = "folder_lock_test";

/// Whether somebody has the lock of the folder. It is taken otherwise, and given up at once.
fn is_in_use(rt: &HostRuntime) -> bool {
    matches!(FolderLock::take(rt, FOLDER), Err(LockFault::InUse))
}

#[test]
fn folder_has_one_lock_until_it_is_given_up(rt: HostRuntime) -> Result<(), Fail> {
    let _ = fs::remove_dir_all(&rt, FOLDER);
    for _ in 0..3 {
        let lock = FolderLock::take(&rt, FOLDER)?;
        assert!(rt; is_in_use(&rt));
        drop(lock);
        assert!(rt; !is_in_use(&rt));
    }
    fs::remove_dir_all(&rt, FOLDER)?;
    assert!(rt;
        matches!(
        FolderLock::take(&rt, "no/folder"),
        Err(LockFault::Failed(error)) if error.kind() == ErrorKind::NotFound
    )
    );
    Ok(())
}
