//! The bytes of rolls, which are the contents of checkpoints, and bytes that are refused.

use super::fixture::{Row, all_hold};
use btr_hist::{Kernel, Reads, Spec};
use btr_roll::{
    Roll, RollStream, decode_roll, encode_roll, first_length, has_firsts, one_roll, streams_length,
};
use std::alloc::{AllocError, Global};
use std::test::Fail;

/// Two plain streams, with two versions and with one, and an output of both with two versions.
const ROLL: [u8; 236] = [
    0, 0, 0, 3, // number of streams
    0x11, 0x11, 0x11, 0x11, 0x11, 0x11, 0x41, 0x11, 0x81, 0x11, 0x11, 0x11, 0x11, 0x11, 0x11, 0x11, // id
    0, 0, 0, 0, 0, 0, 0, 1, // entry
    0, // plain
    0, 0, 0, 0, 0, 0, 0, 2, // number of versions
    0, 0, 0, 0, 0, 0, 0, 2, 0, 0, 0, 0, 0, 0, 0, 8, // entry and root
    0, 0, 0, 0, 0, 0, 0, 4, 0, 0, 0, 0, 0, 0, 0, 0, //
    0x11, 0x11, 0x11, 0x11, 0x11, 0x11, 0x41, 0x11, 0x81, 0x11, 0x11, 0x11, 0x11, 0x11, 0x11, 0x12, // id
    0, 0, 0, 0, 0, 0, 0, 3, // entry
    0, // plain
    0, 0, 0, 0, 0, 0, 0, 1, // number of versions
    0, 0, 0, 0, 0, 0, 0, 5, 0, 0, 0, 1, 0, 0, 0, 0, // entry and root
    0x33, 0x33, 0x33, 0x33, 0x33, 0x33, 0x43, 0x33, 0x83, 0x33, 0x33, 0x33, 0x33, 0x33, 0x33, 0x33, // id
    0, 0, 0, 0, 0, 0, 0, 6, // entry
    1, // output
    8, 0, 0, 0, 0, 0, 0, 0, 10, 62, // kernel, lead and grain
    2, 0, 0, 0, 0, 0, 0, 0, 1, // inputs
    0, 0, 0, 0, 0, 0, 0, 2, // number of versions
    0, 0, 0, 0, 0, 0, 0, 7, 0, 0, 0, 0, 0, 0, 0, 21, // entry and root
    2, 0, 0, 0, 0, 0, 0, 0, 1, 0, 0, 0, 0, 0, 0, 0, 0, // reads
    0, 0, 0, 0, 0, 0, 0, 8, 0, 0, 0, 0, 0, 0, 0, 0, // entry and root
    2, 0, 0, 0, 0, 0, 0, 0, 2, 0, 0, 0, 0, 0, 0, 0, 1, // reads
];

/// The same streams in a checkpoint of format 2: the first versions that are not retired are 2, 0 and 1.
const LATER_ROLL: [u8; 260] = [
    0, 0, 0, 3, // number of streams
    0x11, 0x11, 0x11, 0x11, 0x11, 0x11, 0x41, 0x11, 0x81, 0x11, 0x11, 0x11, 0x11, 0x11, 0x11, 0x11, // id
    0, 0, 0, 0, 0, 0, 0, 1, // entry
    0, // plain
    0, 0, 0, 0, 0, 0, 0, 2, // number of versions
    0, 0, 0, 0, 0, 0, 0, 2, // first
    0, 0, 0, 0, 0, 0, 0, 2, 0, 0, 0, 0, 0, 0, 0, 8, // entry and root
    0, 0, 0, 0, 0, 0, 0, 4, 0, 0, 0, 0, 0, 0, 0, 0, //
    0x11, 0x11, 0x11, 0x11, 0x11, 0x11, 0x41, 0x11, 0x81, 0x11, 0x11, 0x11, 0x11, 0x11, 0x11, 0x12, // id
    0, 0, 0, 0, 0, 0, 0, 3, // entry
    0, // plain
    0, 0, 0, 0, 0, 0, 0, 1, // number of versions
    0, 0, 0, 0, 0, 0, 0, 0, // first
    0, 0, 0, 0, 0, 0, 0, 5, 0, 0, 0, 1, 0, 0, 0, 0, // entry and root
    0x33, 0x33, 0x33, 0x33, 0x33, 0x33, 0x43, 0x33, 0x83, 0x33, 0x33, 0x33, 0x33, 0x33, 0x33, 0x33, // id
    0, 0, 0, 0, 0, 0, 0, 6, // entry
    1, // output
    8, 0, 0, 0, 0, 0, 0, 0, 10, 62, // kernel, lead and grain
    2, 0, 0, 0, 0, 0, 0, 0, 1, // inputs
    0, 0, 0, 0, 0, 0, 0, 2, // number of versions
    0, 0, 0, 0, 0, 0, 0, 1, // first
    0, 0, 0, 0, 0, 0, 0, 7, 0, 0, 0, 0, 0, 0, 0, 21, // entry and root
    2, 0, 0, 0, 0, 0, 0, 0, 1, 0, 0, 0, 0, 0, 0, 0, 0, // reads
    0, 0, 0, 0, 0, 0, 0, 8, 0, 0, 0, 0, 0, 0, 0, 0, // entry and root
    2, 0, 0, 0, 0, 0, 0, 0, 2, 0, 0, 0, 0, 0, 0, 0, 1, // reads
];

/// A plain stream and its counts in windows of 2^62 ns, both without a version, in a checkpoint of format 3.
const ROLL_OF_WINDOWS: [u8; 103] = [
    0, 0, 0, 2, // number of streams
    0x11, 0x11, 0x11, 0x11, 0x11, 0x11, 0x41, 0x11, 0x81, 0x11, 0x11, 0x11, 0x11, 0x11, 0x11, 0x11, // id
    0, 0, 0, 0, 0, 0, 0, 1, // entry
    0, // plain
    0, 0, 0, 0, 0, 0, 0, 0, // number of versions
    0, 0, 0, 0, 0, 0, 0, 0, // first
    0x33, 0x33, 0x33, 0x33, 0x33, 0x33, 0x43, 0x33, 0x83, 0x33, 0x33, 0x33, 0x33, 0x33, 0x33, 0x33, // id
    0, 0, 0, 0, 0, 0, 0, 2, // entry
    1, // output
    11, 5, 62, // kernel
    0, 0, 0, 0, 0, 0, 0, 0, 0, // lead and grain
    1, 0, 0, 0, 0, // inputs
    0, 0, 0, 0, 0, 0, 0, 0, // number of versions
    0, 0, 0, 0, 0, 0, 0, 0, // first
];

/// The spec of the output.
const MINUS: Spec = Spec {
    kernel: Kernel::Minus,
    lead: 10,
    grain: 62,
    first: 0,
    second: Some(1),
};

/// A version: the number of its entry, its root, and what it has read.
type Version = (u64, u64, Option<Reads>);

/// What a version of an output of two inputs has read.
const fn reads(first: u64, second: u64) -> Option<Reads> {
    Some(Reads {
        first,
        second: Some(second),
    })
}

/// Whether a stream has these versions.
fn has_versions(stream: &RollStream, wanted: &[Version]) -> bool {
    if stream.versions.len() != wanted.len() {
        return false;
    }
    for (version, want) in stream.versions.iter().zip(wanted) {
        if (version.entry, version.root, version.reads) != *want {
            return false;
        }
    }
    true
}

/// Whether a stream has this id, this entry and this spec.
fn is_stream(stream: &RollStream, id: u128, entry: u64, spec: Option<Spec>) -> bool {
    stream.id == id && stream.entry == entry && stream.spec == spec
}

/// Whether the streams are those of `ROLL`.
fn has_streams(streams: &[RollStream]) -> bool {
    let [first, second, output] = streams else {
        return false;
    };
    is_stream(first, 0x11111111_1111_4111_8111_111111111111, 1, None)
        && is_stream(second, 0x11111111_1111_4111_8111_111111111112, 3, None)
        && is_stream(
            output,
            0x33333333_3333_4333_8333_333333333333,
            6,
            Some(MINUS),
        )
}

/// Whether the versions are those of `ROLL`.
fn has_all_versions(streams: &[RollStream]) -> bool {
    let [first, second, output] = streams else {
        return false;
    };
    has_versions(first, &[(2, 8, None), (4, 0, None)])
        && has_versions(second, &[(5, 4294967296, None)])
        && has_versions(output, &[(7, 21, reads(1, 0)), (8, 0, reads(2, 1))])
}

/// Whether the first versions of three streams that are not retired are these.
fn are_firsts(streams: &[RollStream], firsts: (u64, u64, u64)) -> bool {
    let [first, second, output] = streams else {
        return false;
    };
    (first.first, second.first, output.first) == firsts
}

/// Whether a roll is that of `ROLL`, but for these first versions.
fn is_by_hand(roll: &Roll, firsts: (u64, u64, u64)) -> bool {
    has_streams(&roll.streams)
        && has_all_versions(&roll.streams)
        && are_firsts(&roll.streams, firsts)
}

/// Whether bytes are those of a roll of this format (if `is_roll`), which is written as these bytes again, or those of none.
fn is_read(alloc: Global, format: u32, bytes: &[u8], is_roll: bool) -> Result<bool, AllocError> {
    match decode_roll(alloc, format, bytes)? {
        Some(roll) => Ok(is_roll && encode_roll(alloc, format, &roll)?.as_slice() == bytes),
        None => Ok(!is_roll),
    }
}

#[test]
fn a_roll_has_its_bytes(rt: HostRuntime) -> Result<(), Fail> {
    let roll = decode_roll(rt.alloc(), 1, &ROLL)?;
    assert!(rt; roll.is_some_and(|roll| is_by_hand(&roll, (0, 0, 0))));
    // and so the roll is written as these bytes
    assert!(rt; is_read(rt.alloc(), 1, &ROLL, true)?);
    assert!(rt; is_read(rt.alloc(), 1, &[0, 0, 0, 0], true)?);
    one_roll();
    Ok(())
}

#[test]
fn a_roll_of_format_2_has_its_bytes(rt: HostRuntime) -> Result<(), Fail> {
    let roll = decode_roll(rt.alloc(), 2, &LATER_ROLL)?;
    assert!(rt; roll.is_some_and(|roll| is_by_hand(&roll, (2, 0, 1))));
    assert!(rt; (has_firsts(1), has_firsts(2), has_firsts(4)) == (false, true, true));
    assert!(rt; (first_length(1), first_length(2), first_length(4)) == (0, 8, 8));
    assert!(rt; (streams_length(1, &[]), streams_length(2, &[])) == (0, 0));
    Ok(())
}

/// A format, the place of a byte of `LATER_ROLL` that is another one, and whether the bytes are those of a roll.
struct Later(u32, usize, u8, bool);

impl Row for Later {
    fn holds(&self, alloc: Global) -> Result<bool, Fail> {
        let mut bytes = Vec::from_slice(alloc, &LATER_ROLL)?;
        *bytes.get_mut(self.1).ok_or("a place")? = self.2;
        Ok(is_read(alloc, self.0, &bytes, self.3)?)
    }
}

const LATER_ROLLS: &[Later] = &[
    // formats from 2 on have the same bytes, and format 1 has others
    Later(2, 3, 3, true),
    Later(3, 3, 3, true),
    Later(4, 3, 3, true),
    Later(1, 3, 3, false),
    // each first version up to the latest one, and those after it
    Later(2, 44, 0, true),
    Later(2, 44, 1, true),
    Later(2, 44, 3, false),
    Later(2, 37, 1, false),
    Later(2, 117, 1, true),
    Later(2, 117, 2, false),
    Later(2, 193, 2, true),
    Later(2, 193, 3, false),
];

#[test]
fn first_versions_in_rolls(rt: HostRuntime) -> Result<(), Fail> {
    assert!(rt; is_read(rt.alloc(), 2, &ROLL, false)?);
    all_hold(rt.alloc(), LATER_ROLLS)
}

/// A format, the place of a byte of `ROLL_OF_WINDOWS` that is another one, and whether the bytes are those of a roll.
struct Windows(u32, usize, u8, bool);

impl Row for Windows {
    fn holds(&self, alloc: Global) -> Result<bool, Fail> {
        let mut bytes = Vec::from_slice(alloc, &ROLL_OF_WINDOWS)?;
        *bytes.get_mut(self.1).ok_or("a place")? = self.2;
        Ok(is_read(alloc, self.0, &bytes, self.3)?)
    }
}

const ROLLS_OF_WINDOWS: &[Windows] = &[
    // formats from 3 on have such an output, and formats before it have none
    Windows(3, 3, 2, true),
    Windows(4, 3, 2, true),
    Windows(2, 3, 2, false),
    Windows(1, 3, 2, false),
    Windows(0, 3, 2, false),
    // the other values, other widths, values that do not exist, windows that are too wide, and a lead
    Windows(3, 71, 1, true),
    Windows(3, 72, 0, true),
    Windows(3, 71, 0, false),
    Windows(3, 71, 6, false),
    Windows(3, 72, 63, false),
    Windows(3, 80, 1, false),
];

#[test]
fn outputs_of_windows_in_rolls(rt: HostRuntime) -> Result<(), Fail> {
    all_hold(rt.alloc(), ROLLS_OF_WINDOWS)
}

/// The places of bytes of `ROLL` that are other ones, another length, and whether they are those of a roll.
struct Changed(&'static [(usize, u8)], usize, bool);

impl Row for Changed {
    fn holds(&self, alloc: Global) -> Result<bool, Fail> {
        let mut bytes = Vec::from_slice(alloc, &ROLL)?;
        for (place, byte) in self.0 {
            *bytes.get_mut(*place).ok_or("a place")? = *byte;
        }
        bytes.resize(self.1, 0)?;
        Ok(is_read(alloc, 1, &bytes, self.2)?)
    }
}

const ROLLS: &[Changed] = &[
    // any numbers of entries, and any roots
    Changed(&[(20, 255), (37, 255)], 236, true),
    Changed(&[(45, 255), (211, 255)], 236, true),
    // an id that is less than those before it
    Changed(&[(118, 0)], 236, true),
    // the same versions read twice, a lead of 2^60, and twice the same input
    Changed(&[(194, 2), (202, 1)], 236, true),
    Changed(&[(144, 0x10), (151, 0)], 236, true),
    Changed(&[(161, 0)], 236, true),
];

#[test]
fn rolls_at_the_bounds_are_read(rt: HostRuntime) -> Result<(), Fail> {
    all_hold(rt.alloc(), ROLLS)
}

const NO_ROLLS: &[Changed] = &[
    // a byte more, and bytes that lack
    Changed(&[], 237, false),
    Changed(&[], 235, false),
    Changed(&[], 118, false),
    Changed(&[], 3, false),
    Changed(&[], 0, false),
    // a stream less, a stream more, and 65537 streams
    Changed(&[(3, 2)], 236, false),
    Changed(&[(3, 4)], 236, false),
    Changed(&[(1, 1), (3, 1)], 236, false),
    // equal ids
    Changed(&[(84, 0x11)], 236, false),
    // a kind that does not exist, a plain stream as an output, and an output as a plain stream
    Changed(&[(28, 2)], 236, false),
    Changed(&[(93, 1)], 236, false),
    Changed(&[(142, 0)], 236, false),
    // a version less, a version more
    Changed(&[(169, 1)], 236, false),
    Changed(&[(169, 3)], 236, false),
    // 2^32 versions, and 2^32 - 1 in these few bytes
    Changed(&[(32, 1), (36, 0)], 236, false),
    Changed(&[(33, 255), (34, 255), (35, 255), (36, 255)], 236, false),
    Changed(
        &[(166, 255), (167, 255), (168, 255), (169, 255)],
        236,
        false,
    ),
];

#[test]
fn bytes_of_no_streams_are_refused(rt: HostRuntime) -> Result<(), Fail> {
    all_hold(rt.alloc(), NO_ROLLS)
}

const NO_OUTPUTS: &[Changed] = &[
    // no kernel, one with another number of inputs, a lead and a grain that are too great, and another number of inputs
    Changed(&[(143, 0)], 236, false),
    Changed(&[(143, 2)], 236, false),
    Changed(&[(144, 0x10)], 236, false),
    Changed(&[(152, 63)], 236, false),
    Changed(&[(153, 1)], 236, false),
    // the output and a stream that is not there as inputs
    Changed(&[(161, 2)], 236, false),
    Changed(&[(157, 3)], 236, false),
    // one version read of two inputs
    Changed(&[(186, 1)], 236, false),
    // a version that an input does not have, and one above the limit
    Changed(&[(227, 3)], 236, false),
    Changed(&[(235, 2)], 236, false),
    Changed(&[(223, 1)], 236, false),
    // reads that fall
    Changed(&[(194, 2), (227, 1)], 236, false),
    Changed(&[(202, 1), (235, 0)], 236, false),
];

#[test]
fn outputs_that_no_checkpoint_has_are_refused(rt: HostRuntime) -> Result<(), Fail> {
    all_hold(rt.alloc(), NO_OUTPUTS)
}
