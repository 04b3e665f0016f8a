// The bounds of a group and of a value: how many landings, and how many bytes.
use crate::parts::{HASH, KEY, LEAF, N0, N1, ROOT1};
use jf_codec::Format;
use jf_payload::{Record, decode};
use std::alloc::{AllocError, Global};
use std::test::Fail;

// The payload of a group of so many landings from version 1 on, which write no node.
fn group(alloc: Global, count: u16) -> Result<Vec<u8>, AllocError> {
    let mut payload = Vec::new(alloc);
    payload.extend_from_slice(&(count as u64).to_be_bytes())?;
    for version in 0..count {
        payload.extend_from_slice(&(version as u64 + 1).to_be_bytes())?;
        payload.extend_from_slice(HASH)?;
        payload.extend_from_slice(N0)?;
        payload.extend_from_slice(N0)?;
    }
    Ok(payload)
}

fn is_taken(alloc: Global, count: u16) -> Result<bool, Fail> {
    let payload = group(alloc, count)?;
    Ok(decode(alloc, 6, &payload, Format::Two).is_ok())
}

#[test]
fn a_group_has_2_to_1024_landings(rt: HostRuntime) -> Result<(), Fail> {
    assert!(rt; !is_taken(rt.alloc(), 1)?);
    assert!(rt; is_taken(rt.alloc(), 2)?);
    assert!(rt; is_taken(rt.alloc(), 1_024)?);
    assert!(rt; !is_taken(rt.alloc(), 1_025)?);
    Ok(())
}

// Whether the group of three landings is read with each of their versions.
fn has_three(alloc: Global) -> Result<bool, Fail> {
    let payload = group(alloc, 3)?;
    match decode(alloc, 6, &payload, Format::One)? {
        Record::Group(commits) => match commits.as_slice() {
            [first, second, third] => Ok(
                commits.len() == 3
                    && first.version == 1
                    && second.version == 2
                    && third.version == 3,
            ),
            _ => Ok(false),
        },
        _ => Ok(false),
    }
}

#[test]
fn a_group_is_read_landing_by_landing(rt: HostRuntime) -> Result<(), Fail> {
    assert!(rt; has_three(rt.alloc())?);
    Ok(())
}

// The payload of a landing of one leaf whose value has so many bytes.
fn landing(alloc: Global, length: u16) -> Result<Vec<u8>, AllocError> {
    let mut payload = Vec::new(alloc);
    for part in [N1, HASH, N1, ROOT1, LEAF, KEY] {
        payload.extend_from_slice(part)?;
    }
    payload.extend_from_slice(&(length as u32).to_be_bytes())?;
    for _ in 0..length {
        payload.push(7)?;
    }
    payload.extend_from_slice(N0)?;
    Ok(payload)
}

fn is_landing(alloc: Global, length: u16) -> Result<bool, Fail> {
    let payload = landing(alloc, length)?;
    Ok(decode(alloc, 3, &payload, Format::One).is_ok())
}

#[test]
fn a_value_has_at_most_4096_bytes(rt: HostRuntime) -> Result<(), Fail> {
    assert!(rt; is_landing(rt.alloc(), 0)?);
    assert!(rt; is_landing(rt.alloc(), 4_096)?);
    assert!(rt; !is_landing(rt.alloc(), 4_097)?);
    Ok(())
}
