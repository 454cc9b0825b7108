//! `stream_store`: a stream whose log is gone is told as missing, and nothing is written.

use crate::store_calls::{held, with_messages};
use crate::stores::{is_unwritten, open_fault, opens_as_new};
use disk_tests::Blind;
use std::alloc::Global;
use std::process::Abort;
use std::test::Fail;
use stream_store::OpenFault;
use vol_disk::{MemVol, Vol};

/// The offset of the first gate of a log.
const FIRST_GATE: u64 = 20;

/// How long a first log is before its gate is opened.
const BEGUN: u64 = 39;

/// Checks that a volume is refused, since a file has more than a first start leaves, and that nothing is written.
fn check_missing(
    rt: &impl Abort,
    alloc: Global,
    vol: MemVol,
    file: u32,
    at: u64,
) -> Result<(), Fail> {
    let mut vol = Blind::over(alloc, vol, &[], None)?;
    assert!(rt; open_fault(alloc, &mut vol) == Some(OpenFault::Damaged { file, at }));
    assert!(rt; is_unwritten(&vol.into_vol(), 0));
    Ok(())
}

/// A volume with a stream of two messages, whose log is cut to a length, and whose first gate is closed; the other log has no bytes.
fn without_gate(alloc: Global, to: u64) -> Result<MemVol, Fail> {
    let vol = with_messages(alloc, &[5, 5])?;
    let mut vol = Blind::over(alloc, vol.image(1)?, &[], None)?;
    vol.write_at(0, FIRST_GATE, &[0])?;
    vol.cut(0, to)?;
    vol.cut(1, 0)?;
    Ok(vol.into_vol().image(1)?)
}

#[test]
fn stream_with_a_closed_first_gate_is_missing(rt: HostRuntime) -> Result<(), Fail> {
    let vol = without_gate(rt.alloc(), BEGUN + 1)?;
    check_missing(&rt, rt.alloc(), vol, 0, FIRST_GATE)
}

#[test]
fn stream_without_a_log_is_missing_beside_its_block(rt: HostRuntime) -> Result<(), Fail> {
    let vol = without_gate(rt.alloc(), BEGUN)?;
    check_missing(&rt, rt.alloc(), vol, 2, 0)
}

/// A volume without blocks, whose files 0 and 1 have so many bytes.
fn with_logs(alloc: Global, first: u64, second: u64) -> Result<MemVol, Fail> {
    let mut vol = without_gate(alloc, first)?;
    vol.cut(2, 0)?;
    let bytes = vec![in alloc; 0u8; second as usize]?;
    vol.write_at(1, 0, &bytes)?;
    Ok(vol.image(1)?)
}

#[test]
fn second_log_with_bytes_is_told_at_its_gate_or_its_beginning(rt: HostRuntime) -> Result<(), Fail> {
    check_missing(
        &rt,
        rt.alloc(),
        with_logs(rt.alloc(), BEGUN, FIRST_GATE + 1)?,
        1,
        FIRST_GATE,
    )?;
    check_missing(&rt, rt.alloc(), with_logs(rt.alloc(), 0, FIRST_GATE)?, 1, 0)?;
    check_missing(&rt, rt.alloc(), with_logs(rt.alloc(), 0, 1)?, 1, 0)
}

#[test]
fn what_a_first_start_leaves_is_begun(rt: HostRuntime) -> Result<(), Fail> {
    for len in 0..=BEGUN {
        let mut vol = with_logs(rt.alloc(), len, 0)?;
        assert!(rt; opens_as_new(rt.alloc(), &mut vol)?, "{len}");
    }
    Ok(())
}

/// A volume that was begun, and then has a byte in a file.
fn with_byte(alloc: Global, file: u32) -> Result<MemVol, Fail> {
    let mut vol = MemVol::new(alloc);
    vol.write_at(file, 0, &[7])?;
    Ok(vol.image(1)?)
}

#[test]
fn block_with_a_byte_is_told_at_its_beginning(rt: HostRuntime) -> Result<(), Fail> {
    for file in [2, 3, 65_535] {
        check_missing(&rt, rt.alloc(), with_byte(rt.alloc(), file)?, file, 0)?;
    }
    Ok(())
}

#[test]
fn file_that_could_be_no_block_is_not_looked_at(rt: HostRuntime) -> Result<(), Fail> {
    let mut vol = with_byte(rt.alloc(), 65_536)?;
    assert!(rt; held(rt.alloc(), &mut vol)?.body.is_none());
    Ok(())
}
