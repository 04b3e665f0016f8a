// Worked payloads of each kind in both formats: each is read and written again, and no shorter or longer one is read.
use crate::parts::{
    COUNTED, EMPTY, HASH, INNER, KEY, LAST, LEAF, N0, N1, N2, N3, NEVER, NULL, ROOT0, ROOT1, ROOT2,
    UNDER1, VALUE, parts_in_a_row,
};
use jf_codec::Format;
use jf_payload::{
    Record, RecordFault, decode, encode, encode_floor, kept_is_spelled, written_in_both,
};
use std::alloc::Global;
use std::test::Fail;

const NEW: &[&[u8]] = &[N1, N0, N0, N0, EMPTY, N1, ROOT0, NULL, NEVER];

const LANDING: &[&[u8]] = &[N1, HASH, N1, ROOT1, LEAF, KEY, VALUE, N1, ROOT0];

const NOTHING: &[&[u8]] = &[NEVER, HASH, N0, N0];

const LANDING_OF_INNER: &[&[u8]] = &[
    N1, HASH, N2, ROOT1, INNER, N1, HASH, N2, KEY, UNDER1, NULL, N2, ROOT0, ROOT1,
];

const LANDING_OF_COUNTED: &[&[u8]] = &[
    N1, HASH, N2, ROOT1, COUNTED, N1, N2, HASH, N2, N1, KEY, UNDER1, NULL, N2, ROOT0, ROOT1,
];

const INNER_AT_2: &[&[u8]] = &[
    LAST, N0, N1, N1, EMPTY, HASH, N2, ROOT0, NULL, N1, ROOT1, INNER, N2, HASH, N1, KEY, NEVER,
];

const COUNTED_AT_2: &[&[u8]] = &[
    LAST, N0, N1, N1, EMPTY, HASH, N2, ROOT0, NULL, N1, ROOT1, COUNTED, N1, N2, HASH, N2, N1, KEY,
    NEVER,
];

const TWO_LANDINGS: &[&[u8]] = &[
    N2, N1, HASH, N1, ROOT1, LEAF, KEY, VALUE, N1, ROOT0, N2, HASH, N1, ROOT2, LEAF, KEY, VALUE,
    N1, ROOT1,
];

pub(crate) const READ: &[(u8, Format, &[&[u8]])] = &[
    (2, Format::One, &[N3]),
    (2, Format::Two, &[NEVER]),
    (3, Format::One, LANDING),
    (3, Format::Two, LANDING),
    (3, Format::Two, NOTHING),
    (3, Format::One, LANDING_OF_INNER),
    (3, Format::Two, LANDING_OF_COUNTED),
    (4, Format::One, NEW),
    (5, Format::Two, NEW),
    (4, Format::One, INNER_AT_2),
    (5, Format::Two, COUNTED_AT_2),
    (6, Format::One, TWO_LANDINGS),
    (6, Format::Two, TWO_LANDINGS),
];

// Whether a frame has this kind and this payload.
fn is_frame(alloc: Global, frame: &[u8], kind: u8, payload: &[u8]) -> Result<bool, Fail> {
    let length = (payload.len() as u64).to_be_bytes();
    let expected = parts_in_a_row(alloc, &[&[kind], &length, payload, &[0]])?;
    Ok(frame == expected.as_slice())
}

// Whether a payload is read as a record that is written as that payload again.
fn is_written_again(alloc: Global, kind: u8, payload: &[u8], format: Format) -> Result<bool, Fail> {
    let record = decode(alloc, kind, payload, format)?;
    kept_is_spelled();
    let frame = encode(alloc, &record, format)?;
    is_frame(alloc, frame.as_slice(), kind, payload)
}

fn goes_there_and_back(
    alloc: Global,
    kind: u8,
    format: Format,
    parts: &[&[u8]],
) -> Result<bool, Fail> {
    let payload = parts_in_a_row(alloc, parts)?;
    is_written_again(alloc, kind, &payload, format)
}

#[test]
fn records_go_there_and_back(rt: HostRuntime) -> Result<(), Fail> {
    for (kind, format, parts) in READ {
        assert!(rt;
            goes_there_and_back(rt.alloc(), *kind, *format, parts)?,
            "{kind} {format:?}"
        );
    }
    Ok(())
}

// Whether a payload is refused.
pub(crate) fn is_refused(alloc: Global, kind: u8, payload: &[u8], format: Format) -> bool {
    matches!(decode(alloc, kind, payload, format), Err(RecordFault::Bad))
}

// Whether each shorter front of a payload is refused, and the payload with one byte more.
fn holds_no_other(alloc: Global, kind: u8, format: Format, parts: &[&[u8]]) -> Result<bool, Fail> {
    let mut payload = parts_in_a_row(alloc, parts)?;
    for end in 0..payload.len() {
        if !is_refused(alloc, kind, &payload[..end], format) {
            return Ok(false);
        }
    }
    payload.push(0)?;
    Ok(is_refused(alloc, kind, &payload, format))
}

#[test]
fn a_payload_cut_short_or_longer_is_refused(rt: HostRuntime) -> Result<(), Fail> {
    for (kind, format, parts) in READ {
        assert!(rt;
            holds_no_other(rt.alloc(), *kind, *format, parts)?,
            "{kind} {format:?}"
        );
    }
    Ok(())
}

// Whether a landing with counts is written without them in format 1.
fn is_written_without_counts(alloc: Global, counted: &[u8], plain: &[u8]) -> Result<bool, Fail> {
    let record = decode(alloc, 3, counted, Format::Two)?;
    written_in_both();
    let frame = encode(alloc, &record, Format::One)?;
    is_frame(alloc, frame.as_slice(), 3, plain)
}

#[test]
fn format_1_leaves_out_counts(rt: HostRuntime) -> Result<(), Fail> {
    let counted = parts_in_a_row(rt.alloc(), LANDING_OF_COUNTED)?;
    let plain = parts_in_a_row(rt.alloc(), LANDING_OF_INNER)?;
    assert!(rt; is_written_without_counts(rt.alloc(), &counted, &plain)?);
    Ok(())
}

#[test]
fn a_floor_has_18_bytes(rt: HostRuntime) -> Result<(), Fail> {
    let frame = encode_floor(0x0102_0304_0506_0708);
    assert!(rt; is_frame(rt.alloc(), &frame, 2, &[1, 2, 3, 4, 5, 6, 7, 8])?);
    Ok(())
}

// Whether a payload of kind 3 is the landing of one leaf.
fn is_landing_of_a_leaf(alloc: Global, payload: &[u8]) -> Result<bool, Fail> {
    match decode(alloc, 3, payload, Format::Two)? {
        Record::NodeCommit(commit) => Ok(
            commit.version == 1
                && commit.root == [0x33; 32]
                && commit.fresh.len() == 1
                && commit.stale.len() == 1,
        ),
        _ => Ok(false),
    }
}

#[test]
fn a_landing_is_read_field_by_field(rt: HostRuntime) -> Result<(), Fail> {
    let payload = parts_in_a_row(rt.alloc(), LANDING)?;
    assert!(rt; payload.len() == 112);
    assert!(rt; is_landing_of_a_leaf(rt.alloc(), &payload)?);
    Ok(())
}
