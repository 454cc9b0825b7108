//! `js_base`: numbers as bytes, and printed faults.

use js_base::{
    DecFault, NameFault, NoMemory, get_u16, get_u32, get_u64, put_u16, put_u32, put_u64,
};
use std::test::Fail;

#[test]
fn numbers_are_big_endian(rt: HostRuntime) -> Result<(), Fail> {
    let mut bytes = Vec::new(rt.alloc());
    put_u16(&mut bytes, 0x0102)?;
    put_u32(&mut bytes, 0x0304_0506)?;
    put_u64(&mut bytes, 0x0708_090A_0B0C_0D0E)?;
    assert_eq!(rt;
        bytes.as_slice(),
        [1, 2, 3, 4, 5, 6, 7, 8, 9, 10, 11, 12, 13, 14].as_slice()
    );
    assert_eq!(rt; get_u16(&bytes, 0), Some(0x0102));
    assert_eq!(rt; get_u32(&bytes, 2), Some(0x0304_0506));
    assert_eq!(rt; get_u64(&bytes, 6), Some(0x0708_090A_0B0C_0D0E));
    assert_eq!(rt; get_u16(&bytes, 13), None);
    assert_eq!(rt; get_u64(&bytes, usize::MAX), None);
    Ok(())
}

#[test]
fn faults_are_printed(rt: HostRuntime) -> Result<(), Fail> {
    let alloc = rt.alloc();
    let digit = DecFault::BadDigit(2).to_string(alloc)?;
    assert_eq!(rt; digit.as_str(), "no digit at 2");
    let byte = NameFault::BadByte(3).to_string(alloc)?;
    assert_eq!(rt; byte.as_str(), "a byte at 3 that may not stand in a name");
    let memory = NoMemory.to_string(alloc)?;
    assert_eq!(rt; memory.as_str(), "out of memory");
    Ok(())
}
