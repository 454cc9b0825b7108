//! `vol_disk`: a volume over a folder of the system.

use crate::contents::{holds, reach};
use std::fs;
use std::test::Fail;
use vol_disk::{DirVol, Failed, Room, Vol};

const FOLDER: &str = "dir_vol_test";

const EMPTIED: &str = "dir_vol_emptied";

/// Changes a file of the volume, and brings it to the disk.
fn change(vol: &mut DirVol) -> Result<(), Failed> {
    reach(vol, 0, 12)?;
    vol.write_at(0, 0, b"hello disk")?;
    vol.write_at(0, 0, b"J")?;
    vol.cut(0, 5)?;
    vol.sync(0)
}

/// More files than are kept open.
fn fill(vol: &mut DirVol) -> Result<(), Failed> {
    for file in 2..40 {
        vol.grow(file, 5)?;
        vol.write_at(file, 0, b"block")?;
    }
    vol.sync(39)
}

/// Whether a file of a place has these bytes, by another way than a volume.
fn lies_in(rt: &HostRuntime, path: &str, wanted: &[u8]) -> Result<bool, Fail> {
    let bytes = fs::read(rt, path)?;
    Ok(bytes.as_slice() == wanted)
}

/// Whether reads, writes and cuts past an end fail, and are counted.
fn fails_past_the_end(vol: &mut DirVol) -> bool {
    let read = vol.read_at(0, 5, &mut [0]);
    let written = vol.write_at(0, 4, b"oh");
    let cut = vol.cut(0, 6);
    read.is_err() && written.is_err() && cut.is_err() && vol.faults() == 3
}

/// Whether each call fails of a volume whose folder can't be made.
fn fails_without_folder(vol: &mut DirVol) -> bool {
    let len = vol.len(0);
    let synced = vol.sync(0);
    let end = vol.files_end();
    len.is_err() && synced.is_err() && end.is_err() && vol.faults() == 3
}

/// A volume over a folder keeps what was written, under the names that it states.
#[test]
fn folder_keeps_what_was_written(rt: HostRuntime) -> Result<(), Fail> {
    let _ = fs::remove_dir_all(&rt, FOLDER);
    let mut vol = DirVol::open(&rt, FOLDER, 7);
    change(&mut vol)?;
    fill(&mut vol)?;
    let mut vol = DirVol::open(&rt, FOLDER, 7);
    for (file, bytes) in [
        (0, b"Jello".as_slice()),
        (1, b"".as_slice()),
        (20, b"block".as_slice()),
    ] {
        assert!(rt; holds(rt.alloc(), &mut vol, file, bytes)?);
    }
    assert!(rt; vol.files_end()? == 40);
    assert!(rt; fails_past_the_end(&mut vol));
    assert!(rt; lies_in(&rt, "dir_vol_test/place-07/f00000", b"Jello")?);
    assert_eq!(rt; vol.refusals(), 0);
    assert!(rt; fails_without_folder(&mut DirVol::open(&rt, "dir_vol_test/place-07/f00000", 7)));
    fs::remove_dir_all(&rt, FOLDER)?;
    Ok(())
}

/// A file that is cut to nothing is gone, and may be made again.
#[test]
fn file_that_is_cut_to_nothing_is_removed(rt: HostRuntime) -> Result<(), Fail> {
    let _ = fs::remove_dir_all(&rt, EMPTIED);
    let mut vol = DirVol::open(&rt, EMPTIED, 0);
    for _ in 0..2 {
        assert_eq!(rt; reach(&mut vol, 5, 3)?, Room::Made);
        assert!(rt; lies_in(&rt, "dir_vol_emptied/place-00/f00005", b"\0\0\0")?);
        vol.cut(5, 0)?;
        vol.sync(5)?;
        assert!(rt; !fs::exists(&rt, "dir_vol_emptied/place-00/f00005")?);
        assert_eq!(rt; vol.len(5)?, 0);
    }
    fs::remove_dir_all(&rt, EMPTIED)?;
    Ok(())
}
