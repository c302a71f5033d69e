//! Worked examples of the format, and bytes that are refused.
ghost use Rattle.btr_entry.specs.Grammar.{IsWithinBounds};

use super::fixture::{Row, all_hold};
use btr_base::{END, FIRST, Point};
use btr_entry::{append_entry, decode, format_of, one_spelling, spec_format, spelling_length};
use btr_hist::{Entry, Kernel, Reads, Spec};
use std::alloc::{AllocError, Global};
use std::test::Fail;

/// Bytes, and lists of bytes.
type Bytes = &'static [u8];

type Parts = &'static [&'static [u8]];

/// Points as pairs of a time and a value, and ranges as pairs of bounds.
type Pairs = &'static [(i64, i64)];

/// The bytes of a create.
const CREATE: [u8; 17] = [
    0x01, 0x11, 0x11, 0x11, 0x11, 0x11, 0x11, 0x41, 0x11, 0x81, 0x11, 0x11, 0x11, 0x11, 0x11, 0x11,
    0x11,
];

/// The points of `INSERT`.
const POINTS: [Point; 3] = [
    Point { time: 0, value: 5 },
    Point { time: 3, value: 7 },
    Point { time: 4, value: -2 },
];

/// The bytes of a commit that adds `POINTS` to stream 0.
const INSERT: [u8; 69] = [
    2, 0, 0, 0, 0, // kind and stream
    0, 0, 0, 0, 0, 0, 0, 0, // number of ranges
    0, 0, 0, 0, 0, 0, 0, 3, // number of points
    0, 0, 0, 0, 0, 0, 0, 0, 0, 0, 0, 0, 0, 0, 0, 5, //
    0, 0, 0, 0, 0, 0, 0, 3, 0, 0, 0, 0, 0, 0, 0, 7, //
    0, 0, 0, 0, 0, 0, 0, 4, 0xff, 0xff, 0xff, 0xff, 0xff, 0xff, 0xff, 0xfe,
];

/// The id of the output that `DEFINE` defines.
const OUTPUT: u128 = 0x33333333_3333_4333_8333_333333333333;

/// The sum over the last 10 ns of stream 0.
const SUM: Spec = Spec {
    kernel: Kernel::Sum,
    lead: 10,
    grain: 0,
    first: 0,
    second: None,
};

/// The bytes of the definition of `OUTPUT` as `SUM`.
const DEFINE: [u8; 32] = [
    3, 0x33, 0x33, 0x33, 0x33, 0x33, 0x33, 0x43, 0x33, 0x83, 0x33, 0x33, 0x33, 0x33, 0x33, 0x33,
    0x33, // kind and id
    2, // kernel
    0, 0, 0, 0, 0, 0, 0, 10, // lead
    0, // grain
    1, 0, 0, 0, 0, // inputs
];

/// The greatest value of each window of 2^10 ns of stream 258.
const GREATEST: Spec = Spec {
    kernel: Kernel::Cell { which: 4, p: 10 },
    lead: 0,
    grain: 7,
    first: 258,
    second: None,
};

/// The bytes of the definition of `OUTPUT` as `GREATEST`.
const DEFINE_WINDOWS: [u8; 34] = [
    3, 0x33, 0x33, 0x33, 0x33, 0x33, 0x33, 0x43, 0x33, 0x83, 0x33, 0x33, 0x33, 0x33, 0x33, 0x33,
    0x33, // kind and id
    11, 4, 10, // kernel
    0, 0, 0, 0, 0, 0, 0, 0, // lead
    7, // grain
    1, 0, 0, 1, 2, // inputs
];

/// The points of `DISTILLATE`.
const DISTILLED: [Point; 2] = [
    Point { time: 5, value: 11 },
    Point {
        time: 10,
        value: 31,
    },
];

/// The bytes of a distillate of stream 1, from version 2 of its input, with one range and two points.
const DISTILLATE: [u8; 78] = [
    4, 0, 0, 0, 1, // kind and stream
    1, 0, 0, 0, 0, 0, 0, 0, 2, // reads
    0, 0, 0, 0, 0, 0, 0, 1, // number of ranges
    0, 0, 0, 0, 0, 0, 0, 5, 0, 0, 0, 0, 0, 0, 0, 16, //
    0, 0, 0, 0, 0, 0, 0, 2, // number of points
    0, 0, 0, 0, 0, 0, 0, 5, 0, 0, 0, 0, 0, 0, 0, 11, //
    0, 0, 0, 0, 0, 0, 0, 10, 0, 0, 0, 0, 0, 0, 0, 31,
];

/// Whether the spelling of an entry is these bytes.
fn is_spelling(alloc: Global, entry: &Entry, bytes: &[u8]) -> Result<bool, AllocError>
    requires { IsWithinBounds entry.now }
{
    let length = spelling_length(entry);
    let mut again = Vec::new(alloc);
    append_entry(&mut again, entry)?;
    Ok(again.as_slice() == bytes && length == bytes.len() as u64)
}

/// Whether bytes are those of an entry whose spelling they are (if `is_entry`), or those of none.
fn is_read(alloc: Global, bytes: &[u8], is_entry: bool) -> Result<bool, AllocError> {
    match decode(alloc, bytes)? {
        Some(entry) => Ok(is_entry && is_spelling(alloc, &entry, bytes)?),
        None => Ok(!is_entry),
    }
}

#[test]
fn create_has_its_spelling(rt: HostRuntime) -> Result<(), Fail> {
    let entry = Entry::Create {
        id: 0x11111111_1111_4111_8111_111111111111,
    };
    assert!(rt; is_spelling(rt.alloc(), &entry, &CREATE)?);
    assert!(rt; is_read(rt.alloc(), &CREATE, true)?);
    one_spelling();
    Ok(())
}

/// Whether an entry is the commit that adds `POINTS` to stream 0.
fn is_insert(entry: &Entry) -> bool {
    match entry {
        Entry::Commit { stream, cut, added } => {
            *stream == 0 && cut.as_slice().is_empty() && added.as_slice() == POINTS.as_slice()
        }
        _ => false,
    }
}

#[test]
fn insert_has_its_spelling(rt: HostRuntime) -> Result<(), Fail> {
    let entry = decode(rt.alloc(), &INSERT)?;
    assert!(rt; entry.is_some_and(|entry| is_insert(&entry)));
    assert!(rt; is_read(rt.alloc(), &INSERT, true)?);
    Ok(())
}

/// Appends the number of pairs and each pair.
fn push_pairs(bytes: &mut Vec<u8>, pairs: &[(i64, i64)]) -> Result<(), AllocError> {
    bytes.extend_from_slice(&(pairs.len() as u64).to_be_bytes())?;
    for (first, second) in pairs {
        bytes.extend_from_slice(&first.to_be_bytes())?;
        bytes.extend_from_slice(&second.to_be_bytes())?;
    }
    Ok(())
}

/// The ranges and the points of a commit to stream 258, in the order of its bytes, and whether it is an entry.
struct Commit(Pairs, Pairs, bool);

impl Row for Commit {
    fn holds(&self, alloc: Global) -> Result<bool, Fail> {
        let mut bytes = Vec::from_slice(alloc, &[2, 0, 0, 1, 2])?;
        push_pairs(&mut bytes, self.0)?;
        push_pairs(&mut bytes, self.1)?;
        Ok(is_read(alloc, &bytes, self.2)?)
    }
}

const COMMITS: &[Commit] = &[
    Commit(&[(FIRST, END)], &[], true),
    Commit(&[(0, 1), (2, 3)], &[(FIRST, 0), (END - 1, -1)], true),
    Commit(&[], &[(7, 1), (7, 1), (7, 2)], true),
];

#[test]
fn commits_at_the_bounds_are_read(rt: HostRuntime) -> Result<(), Fail> {
    all_hold(rt.alloc(), COMMITS)
}

const NO_COMMITS: &[Commit] = &[
    // Points out of order, by time and by value.
    Commit(&[], &[(3, 7), (0, 5)], false),
    Commit(&[], &[(3, 7), (3, 5)], false),
    // Points outside the domain.
    Commit(&[], &[(FIRST - 1, 0)], false),
    Commit(&[], &[(END, 0)], false),
    // Ranges that are empty, touch, are out of order or end after the domain.
    Commit(&[(5, 5)], &[], false),
    Commit(&[(0, 1), (1, 2)], &[], false),
    Commit(&[(4, 5), (0, 1)], &[], false),
    Commit(&[(0, END + 1)], &[], false),
    // Nothing to do.
    Commit(&[], &[], false),
];

#[test]
fn commits_outside_the_grammar_are_refused(rt: HostRuntime) -> Result<(), Fail> {
    all_hold(rt.alloc(), NO_COMMITS)
}

/// The id and the spec of the output that bytes define.
fn defined(alloc: Global, bytes: &[u8]) -> Result<Option<(u128, Spec)>, AllocError> {
    match decode(alloc, bytes)? {
        Some(Entry::Define { id, spec }) => Ok(Some((id, spec))),
        _ => Ok(None),
    }
}

#[test]
fn definition_has_its_spelling(rt: HostRuntime) -> Result<(), Fail> {
    let entry = Entry::Define {
        id: OUTPUT,
        spec: SUM,
    };
    assert!(rt; is_spelling(rt.alloc(), &entry, &DEFINE)?);
    assert!(rt; defined(rt.alloc(), &DEFINE)? == Some((OUTPUT, SUM)));
    assert!(rt; is_read(rt.alloc(), &DEFINE, true)?);
    Ok(())
}

#[test]
fn definition_of_windows_has_its_spelling(rt: HostRuntime) -> Result<(), Fail> {
    let entry = Entry::Define {
        id: OUTPUT,
        spec: GREATEST,
    };
    assert!(rt; is_spelling(rt.alloc(), &entry, &DEFINE_WINDOWS)?);
    assert!(rt; defined(rt.alloc(), &DEFINE_WINDOWS)? == Some((OUTPUT, GREATEST)));
    assert!(rt; is_read(rt.alloc(), &DEFINE_WINDOWS, true)?);
    assert!(rt; (format_of(&entry), spec_format(&GREATEST), spec_format(&SUM)) == (3, 3, 1));
    Ok(())
}

/// Whether an entry is the distillate with the bytes `DISTILLATE`.
fn is_distillate(entry: &Entry) -> bool {
    match entry {
        Entry::Distillate {
            stream,
            cut,
            added,
            reads,
        } => {
            let [range] = cut.as_slice() else {
                return false;
            };
            *stream == 1
                && (range.from, range.to) == (5, 16)
                && added.as_slice() == DISTILLED.as_slice()
                && (reads.first, reads.second) == (2, None)
        }
        _ => false,
    }
}

#[test]
fn distillate_has_its_spelling(rt: HostRuntime) -> Result<(), Fail> {
    let entry = decode(rt.alloc(), &DISTILLATE)?;
    assert!(rt; entry.is_some_and(|entry| is_distillate(&entry)));
    // and so the entry is written as these bytes
    assert!(rt; is_read(rt.alloc(), &DISTILLATE, true)?);
    Ok(())
}

/// The bytes of a retirement of the versions of stream 0 before version 2.
const RETIREMENT: [u8; 13] = [5, 0, 0, 0, 0, 0, 0, 0, 0, 0, 0, 0, 2];

#[test]
fn retirement_has_its_spelling(rt: HostRuntime) -> Result<(), Fail> {
    let entry = Entry::Retire {
        stream: 0,
        first: 2,
    };
    assert!(rt; is_spelling(rt.alloc(), &entry, &RETIREMENT)?);
    assert!(rt; is_read(rt.alloc(), &RETIREMENT, true)?);
    assert!(rt; (format_of(&entry), format_of(&Entry::Create { id: 0 })) == (2, 1));
    Ok(())
}

/// The bytes of a retirement after the stream, which is 258, and whether they are those of an entry.
struct First(Bytes, bool);

impl Row for First {
    fn holds(&self, alloc: Global) -> Result<bool, Fail> {
        let mut bytes = Vec::from_slice(alloc, &[5, 0, 0, 1, 2])?;
        bytes.extend_from_slice(self.0)?;
        Ok(is_read(alloc, &bytes, self.1)?)
    }
}

const RETIREMENTS: &[First] = &[
    First(&[0, 0, 0, 0, 0, 0, 0, 1], true),
    First(&[0, 0, 0, 0, 255, 255, 255, 255], true),
    // version 0, a version that no stream can have, a byte less, and a byte more
    First(&[0, 0, 0, 0, 0, 0, 0, 0], false),
    First(&[0, 0, 0, 1, 0, 0, 0, 0], false),
    First(&[0, 0, 0, 0, 0, 0, 1], false),
    First(&[0, 0, 0, 0, 0, 0, 0, 1, 0], false),
];

#[test]
fn retirements_at_the_bounds(rt: HostRuntime) -> Result<(), Fail> {
    all_hold(rt.alloc(), RETIREMENTS)
}

/// Returns the bytes of the definition of an output, with these bytes of its spec.
fn define(alloc: Global, parts: &[&[u8]]) -> Result<Vec<u8>, AllocError> {
    let mut bytes = Vec::from_slice(alloc, &DEFINE[..17])?;
    for part in parts {
        bytes.extend_from_slice(part)?;
    }
    Ok(bytes)
}

/// A lead of 2^60, and one more.
const LEAD: [u8; 8] = [0x10, 0, 0, 0, 0, 0, 0, 0];

const LONGER: [u8; 8] = [0x10, 0, 0, 0, 0, 0, 0, 1];

/// The numbers of `Affine` with -1, -2 and 1, and with 0 as the divisor.
const AFFINE: [u8; 25] = [
    1, 0xff, 0xff, 0xff, 0xff, 0xff, 0xff, 0xff, 0xff, //
    0xff, 0xff, 0xff, 0xff, 0xff, 0xff, 0xff, 0xfe, //
    0, 0, 0, 0, 0, 0, 0, 1,
];

const DIVISOR_0: [u8; 25] = [
    1, 0xff, 0xff, 0xff, 0xff, 0xff, 0xff, 0xff, 0xff, //
    0xff, 0xff, 0xff, 0xff, 0xff, 0xff, 0xff, 0xfe, //
    0, 0, 0, 0, 0, 0, 0, 0,
];

/// One input and two.
const ONE: [u8; 5] = [1, 0, 0, 1, 2];

const TWO: [u8; 9] = [2, 0, 0, 1, 2, 0, 0, 1, 2];

/// The number of a kernel and whether it has two inputs: it is not read with the other number of inputs.
struct Inputs(u8, bool);

impl Row for Inputs {
    fn holds(&self, alloc: Global) -> Result<bool, Fail> {
        let one = define(alloc, &[&[self.0], &LEAD, &[62], &ONE])?;
        let two = define(alloc, &[&[self.0], &LEAD, &[62], &TWO])?;
        Ok(is_read(alloc, &one, !self.1)? && is_read(alloc, &two, self.1)?)
    }
}

const INPUTS: &[Inputs] = &[
    Inputs(2, false),
    Inputs(3, false),
    Inputs(4, false),
    Inputs(5, false),
    Inputs(6, false),
    Inputs(7, false),
    Inputs(8, true),
    Inputs(9, true),
    Inputs(10, true),
];

#[test]
fn each_kernel_is_read_with_its_inputs(rt: HostRuntime) -> Result<(), Fail> {
    all_hold(rt.alloc(), INPUTS)
}

#[test]
fn each_number_of_a_definition_is_read(rt: HostRuntime) -> Result<(), Fail> {
    let bytes = define(rt.alloc(), &[&AFFINE, &LEAD, &[62], &ONE])?;
    let spec = Spec {
        kernel: Kernel::Affine { a: -1, b: -2, d: 1 },
        lead: 1152921504606846976,
        grain: 62,
        first: 258,
        second: None,
    };
    assert!(rt; is_read(rt.alloc(), &bytes, true)?);
    assert!(rt; defined(rt.alloc(), &bytes)? == Some((OUTPUT, spec)));
    Ok(())
}

/// The two numbers of a kernel of windows and the last byte of the lead, and whether the spec is one.
struct Windows(u8, u8, u8, bool);

impl Row for Windows {
    fn holds(&self, alloc: Global) -> Result<bool, Fail> {
        let lead = [0, 0, 0, 0, 0, 0, 0, self.2];
        let bytes = define(alloc, &[&[11, self.0, self.1], &lead, &[62], &ONE])?;
        Ok(is_read(alloc, &bytes, self.3)?)
    }
}

const WINDOWS: &[Windows] = &[
    Windows(1, 0, 0, true),
    Windows(2, 1, 0, true),
    Windows(3, 61, 0, true),
    Windows(5, 62, 0, true),
    // values that do not exist, windows that are too wide, and a lead
    Windows(0, 2, 0, false),
    Windows(6, 2, 0, false),
    Windows(255, 2, 0, false),
    Windows(1, 63, 0, false),
    Windows(1, 255, 0, false),
    Windows(1, 2, 1, false),
];

#[test]
fn kernels_of_windows_at_the_bounds(rt: HostRuntime) -> Result<(), Fail> {
    all_hold(rt.alloc(), WINDOWS)
}

/// The parts of a spec that is none.
struct NoSpec(Parts);

impl Row for NoSpec {
    fn holds(&self, alloc: Global) -> Result<bool, Fail> {
        let bytes = define(alloc, self.0)?;
        Ok(is_read(alloc, &bytes, false)?)
    }
}

const NO_LEAD: [u8; 8] = [0; 8];

const NO_SPECS: &[NoSpec] = &[
    // Kernels that do not exist, and a divisor of 0.
    NoSpec(&[&[0], &NO_LEAD, &[0], &ONE]),
    NoSpec(&[&[12], &NO_LEAD, &[0], &ONE]),
    NoSpec(&[&[255], &NO_LEAD, &[0], &ONE]),
    NoSpec(&[&DIVISOR_0, &NO_LEAD, &[0], &ONE]),
    // A lead and a grain that are too great.
    NoSpec(&[&[2], &LONGER, &[0], &ONE]),
    NoSpec(&[&[2], &NO_LEAD, &[63], &ONE]),
    // No input, three inputs, and a byte too few or too many.
    NoSpec(&[&[2], &NO_LEAD, &[0], &[0]]),
    NoSpec(&[
        &[8],
        &NO_LEAD,
        &[0],
        &[3, 0, 0, 0, 0, 0, 0, 0, 0, 0, 0, 0, 0],
    ]),
    NoSpec(&[&[2], &NO_LEAD, &[0], &[1, 0, 0, 1]]),
    NoSpec(&[&[8], &NO_LEAD, &[0], &[2, 0, 0, 1, 2, 0, 0, 1]]),
    NoSpec(&[&[2], &NO_LEAD, &[0], &[1, 0, 0, 0, 0, 0]]),
    NoSpec(&[&[2], &NO_LEAD, &[], &[]]),
    NoSpec(&[&[1], &NO_LEAD, &[0], &[]]),
    // A kernel of windows with two inputs, and with bytes that lack.
    NoSpec(&[&[11, 1, 2], &NO_LEAD, &[0], &TWO]),
    NoSpec(&[&[11, 1], &NO_LEAD, &[0], &ONE]),
    NoSpec(&[&[11, 1]]),
    NoSpec(&[&[11]]),
    // No spec at all.
    NoSpec(&[]),
];

#[test]
fn definitions_outside_the_grammar_are_refused(rt: HostRuntime) -> Result<(), Fail> {
    assert!(rt; is_read(rt.alloc(), &DEFINE[..16], false)?);
    all_hold(rt.alloc(), NO_SPECS)
}

/// The reads of a distillate of stream 1 with neither ranges nor points, and whether it is an entry.
struct Distillate(Bytes, bool);

impl Row for Distillate {
    fn holds(&self, alloc: Global) -> Result<bool, Fail> {
        let bytes = bytes_with(alloc, self.0)?;
        Ok(is_read(alloc, &bytes, self.1)?)
    }
}

/// Returns the bytes of a distillate of stream 1 with these reads, and with neither ranges nor points.
fn bytes_with(alloc: Global, reads: &[u8]) -> Result<Vec<u8>, AllocError> {
    let mut bytes = Vec::from_slice(alloc, &DISTILLATE[..5])?;
    bytes.extend_from_slice(reads)?;
    push_pairs(&mut bytes, &[])?;
    push_pairs(&mut bytes, &[])?;
    Ok(bytes)
}

const READS: &[Distillate] = &[
    Distillate(&[1, 0, 0, 0, 0, 0, 0, 0, 0], true),
    Distillate(&[1, 0, 0, 0, 0, 0xff, 0xff, 0xff, 0xff], true),
    Distillate(
        &[
            2, 0, 0, 0, 0, 0, 0, 0, 7, 0, 0, 0, 0, 0xff, 0xff, 0xff, 0xff,
        ],
        true,
    ),
    // No version, three versions, and versions that are too great.
    Distillate(&[0], false),
    Distillate(&[0, 0, 0, 0, 0, 0, 0, 0, 0], false),
    Distillate(
        &[
            3, 0, 0, 0, 0, 0, 0, 0, 0, 0, 0, 0, 0, 0, 0, 0, 0, 0, 0, 0, 0, 0, 0, 0, 0,
        ],
        false,
    ),
    Distillate(&[1, 0, 0, 0, 1, 0, 0, 0, 0], false),
    Distillate(&[2, 0, 0, 0, 0, 0, 0, 0, 0, 0, 0, 0, 1, 0, 0, 0, 0], false),
];

#[test]
fn reads_have_one_version_or_two(rt: HostRuntime) -> Result<(), Fail> {
    all_hold(rt.alloc(), READS)
}

/// The reads of the distillate with these bytes.
fn reads_of(alloc: Global, bytes: &[u8]) -> Result<Option<Reads>, AllocError> {
    match decode(alloc, bytes)? {
        Some(Entry::Distillate { reads, .. }) => Ok(Some(reads)),
        _ => Ok(None),
    }
}

#[test]
fn each_version_of_the_reads_is_read(rt: HostRuntime) -> Result<(), Fail> {
    let bytes = bytes_with(
        rt.alloc(),
        &[2, 0, 0, 0, 0, 0, 0, 0, 7, 0, 0, 0, 0, 0, 0, 0, 8],
    )?;
    let want = Reads {
        first: 7,
        second: Some(8),
    };
    assert!(rt; reads_of(rt.alloc(), &bytes)? == Some(want));
    Ok(())
}

/// The bytes of an entry, the places of those that are other ones, and another length: they are those of no entry.
struct Changed(Bytes, &'static [(usize, u8)], usize);

impl Row for Changed {
    fn holds(&self, alloc: Global) -> Result<bool, Fail> {
        let mut bytes = Vec::from_slice(alloc, self.0)?;
        for (place, byte) in self.1 {
            *bytes.get_mut(*place).ok_or("a place")? = *byte;
        }
        bytes.resize(self.2, 0)?;
        Ok(is_read(alloc, &bytes, false)?)
    }
}

const OTHER_DISTILLATES: &[Changed] = &[
    // one byte more
    Changed(&DISTILLATE, &[], 79),
    // points out of order, an empty range, times outside the domain, many ranges
    Changed(&DISTILLATE, &[(53, 11)], 78),
    Changed(&DISTILLATE, &[(37, 5)], 78),
    Changed(&DISTILLATE, &[(46, 0x30), (62, 0x30)], 78),
    Changed(&DISTILLATE, &[(17, 4)], 78),
    // bytes that lack
    Changed(&DISTILLATE, &[], 77),
    Changed(&DISTILLATE, &[], 14),
    Changed(&DISTILLATE, &[], 5),
];

#[test]
fn other_distillates_are_refused(rt: HostRuntime) -> Result<(), Fail> {
    all_hold(rt.alloc(), OTHER_DISTILLATES)
}

const OTHER_LENGTHS: &[Changed] = &[
    Changed(&INSERT, &[], 70),
    Changed(&INSERT, &[(20, 4)], 69),
    Changed(&INSERT, &[(13, 0x10)], 69),
    Changed(&INSERT, &[], 0),
    Changed(&INSERT, &[], 68),
];

#[test]
fn other_lengths_and_counts_are_refused(rt: HostRuntime) -> Result<(), Fail> {
    all_hold(rt.alloc(), OTHER_LENGTHS)
}

const OTHER_KINDS: &[Changed] = &[
    Changed(&CREATE, &[(0, 0)], 17),
    Changed(&CREATE, &[(0, 2)], 17),
    Changed(&CREATE, &[(0, 3)], 17),
    Changed(&CREATE, &[(0, 4)], 17),
    Changed(&CREATE, &[(0, 5)], 17),
    Changed(&CREATE, &[(0, 255)], 17),
    Changed(&INSERT, &[(0, 0)], 69),
    Changed(&INSERT, &[(0, 1)], 69),
    Changed(&INSERT, &[(0, 3)], 69),
    Changed(&INSERT, &[(0, 4)], 69),
    Changed(&INSERT, &[(0, 5)], 69),
    Changed(&INSERT, &[(0, 255)], 69),
];

#[test]
fn other_first_bytes_are_refused(rt: HostRuntime) -> Result<(), Fail> {
    all_hold(rt.alloc(), OTHER_KINDS)
}
