use clone_bytes::Writer;
use std::alloc::AllocError;

// The numbers 1, 0x0203, 0x04050607 and 0x08090a0b0c0d0e0f, and then two bytes.
const FIELDS: [u8; 17] = [1, 2, 3, 4, 5, 6, 7, 8, 9, 10, 11, 12, 13, 14, 15, 254, 255];

#[test]
fn writes(rt: HostRuntime) -> Result<(), AllocError> {
    let mut writer = Writer::new(rt.alloc());
    writer.u8(1)?;
    writer.u16(0x0203)?;
    writer.u32(0x0405_0607)?;
    writer.u64(0x0809_0a0b_0c0d_0e0f)?;
    writer.bytes(&[254, 255])?;
    assert!(rt; writer.into_bytes().as_slice() == FIELDS.as_slice());
    Ok(())
}
