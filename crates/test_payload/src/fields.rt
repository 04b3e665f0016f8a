// Numbers are written with their highest byte first, and too few bytes are refused.
use jf_codec::{CodecFault, front_of, key_at, put_u16, put_u32, put_u64, u16_at, u32_at, u64_at};
use jf_path::Bytes;
use std::alloc::Global;
use std::test::Fail;

const FIELDS: &[u8] = &[1, 2, 1, 2, 3, 4, 1, 2, 3, 4, 5, 6, 7, 8];

fn are_written(alloc: Global) -> Result<bool, Fail> {
    let mut out = Bytes::new(alloc);
    put_u16(&mut out, 0x0102)?;
    put_u32(&mut out, 0x0102_0304)?;
    put_u64(&mut out, 0x0102_0304_0506_0708)?;
    Ok(out.as_slice() == FIELDS)
}

fn are_read(bytes: &[u8]) -> Result<bool, CodecFault> {
    let (two, rest) = u16_at(bytes)?;
    let (four, rest) = u32_at(rest)?;
    let (eight, rest) = u64_at(rest)?;
    Ok(two == 0x0102 && four == 0x0102_0304 && eight == 0x0102_0304_0506_0708 && rest.is_empty())
}

#[test]
fn numbers_have_their_highest_byte_first(rt: HostRuntime) -> Result<(), Fail> {
    assert!(rt; are_written(rt.alloc())?);
    assert!(rt; are_read(FIELDS) == Ok(true));
    Ok(())
}

#[test]
fn bytes_that_end_in_a_field_are_short(rt: HostRuntime) {
    assert!(rt; u16_at(&[0; 1]).is_err());
    assert!(rt; u32_at(&[0; 3]).is_err());
    assert!(rt; u64_at(&[0; 7]).is_err());
    assert!(rt; key_at(&[0; 31]).is_err());
    assert!(rt; front_of(3, &[0; 2]).is_err());
    assert!(rt; front_of(2, &[0; 2]).is_ok());
}
