//! `gate_log`: what is told of a log of which one byte was changed, and of one whose head was torn.

use crate::blind::Blind;
use crate::logs::logged;
use gate_log::{GateLog, LogFault};
use std::alloc::Global;
use std::test::Fail;
use vol_disk::{MemVol, Vol};

/// A log of one batch, `abc`, which takes 33 bytes, of which the byte at this offset was changed.
fn changed_at(alloc: Global, at: u64) -> Result<Blind, Fail> {
    let (mut vol, _) = logged(alloc)?;
    vol.write_at(0, at, &[0xff])?;
    Ok(vol)
}

/// What is told of it, or `None` where a gate was changed, which is closed then.
fn fault_at(at: u64) -> Option<LogFault> {
    match at {
        0..=5 => Some(LogFault::Damaged(0)),
        6 => Some(LogFault::UnknownVersion(0xff03)),
        7 => Some(LogFault::UnknownVersion(0x00ff)),
        8 => Some(LogFault::Damaged(8)),
        9..=19 => Some(LogFault::Damaged(16)),
        21..=31 => Some(LogFault::Damaged(20)),
        _ => None,
    }
}

#[test]
fn changed_byte_is_found(rt: HostRuntime) -> Result<(), Fail> {
    for at in 0..40 {
        let mut vol = changed_at(rt.alloc(), at)?;
        let fault = GateLog::open(&mut vol, 0).err();
        assert!(rt; fault == fault_at(at), "{at}");
    }
    Ok(())
}

/// A log file with room in which a log was never started, and whose generation and checksum have this byte throughout.
fn torn(alloc: Global, byte: u8) -> Result<Blind, Fail> {
    let mut vol = Blind::over(alloc, MemVol::new(alloc), &[], None)?;
    GateLog::make_room(&mut vol, 0, 60)?;
    vol.write_at(0, 8, &[byte; 12])?;
    Ok(vol)
}

/// In front of a closed gate a crash may leave any generation and any checksum.
#[test]
fn torn_head_holds_nothing(rt: HostRuntime) -> Result<(), Fail> {
    for byte in [0, 1, 0x7f, 0xff] {
        let mut vol = torn(rt.alloc(), byte)?;
        let log = GateLog::open(&mut vol, 0)?;
        assert_eq!(rt; log.generation(), None, "{byte}");
    }
    Ok(())
}
