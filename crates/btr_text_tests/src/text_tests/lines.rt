//! Commits, the list of streams, and how the input is cut into lines.
use super::fixture::{Said, Says, fit_no_form};
use crate::fixture::{Row, all_hold};
use btr_text::{Script, ScriptLine, read_script};
use std::alloc::Global;
use std::test::Fail;

const INSERTS: &[Said] = &[
    Said("insert ID 1 2", Says::Insert(&[(1, 2)])),
    Said(
        "insert ID 3 1 1 2 3 0 1 2",
        Says::Insert(&[(1, 2), (1, 2), (3, 0), (3, 1)]),
    ),
    Said(" @0  insert   ID  01  0002 ", Says::Insert(&[(1, 2)])),
    Said("insert ID -0 007", Says::Insert(&[(0, 7)])),
    Said(
        "insert ID -9223372036854775808 9223372036854775807",
        Says::Insert(&[(i64::MIN, i64::MAX)]),
    ),
    Said(
        "feed ID 3 1 1 2 3 0 1 2",
        Says::Feed(&[(1, 2), (1, 2), (3, 0), (3, 1)]),
    ),
];

#[test]
fn points_of_an_insert_are_read_and_sorted(rt: HostRuntime) -> Result<(), Fail> {
    all_hold(rt.alloc(), INSERTS)
}

const OTHERS: &[Said] = &[
    Said("create ID", Says::Create(5)),
    Said("@0 create ID", Says::Create(5)),
    Said(" @0  create   ID ", Says::Create(5)),
    Said("flush ID", Says::Flush),
    Said(" @0  discard   ID ", Says::Discard),
    Said("delete ID -5 7", Says::Delete(-5, 7)),
    Said("delete ID 7 -5", Says::Delete(7, -5)),
    Said(
        "delete ID -9223372036854775808 9223372036854775807",
        Says::Delete(i64::MIN, i64::MAX),
    ),
    Said("streams", Says::Streams),
    Said("@0 streams", Says::Streams),
    Said("  streams  ", Says::Streams),
];

#[test]
fn creates_deletes_and_streams_are_read(rt: HostRuntime) -> Result<(), Fail> {
    all_hold(rt.alloc(), OTHERS)
}

#[test]
fn a_line_that_fits_no_form_has_none(rt: HostRuntime) -> Result<(), Fail> {
    fit_no_form(
        rt.alloc(),
        "create\n\
         create 5\n\
         create 0000000000000000000000000000000\n\
         create ID ID\n\
         create 0000000000000000000000000000000g\n\
         create 0000000000000000000000000000000\u{e9}\n\
         create\tID\n\
         CREATE ID\n\
         creat ID\n\
         creates ID\n\
         insert\n\
         insert ID\n\
         insert ID 1\n\
         insert ID 1 2 3\n\
         insert 1 2\n\
         insert ID +5 1\n\
         insert ID 5 +1\n\
         insert ID 9223372036854775808 1\n\
         insert ID 1 -9223372036854775809\n\
         insert ID 1 99999999999999999999999999\n\
         insert ID - 1\n\
         insert ID 1 --1\n\
         insert ID 1 1-\n\
         insert ID 1 1.0\n\
         insert ID 1 0x1\n\
         delete\n\
         delete ID 0\n\
         delete ID 0 1 2\n\
         delete 0 1\n\
         delete ID latest 1\n\
         delete ID -9223372036854775809 0\n\
         delete ID 0 9223372036854775808\n\
         feed\n\
         feed ID\n\
         feed ID 1\n\
         feed ID 1 2 3\n\
         flush\n\
         flush ID ID\n\
         discard 5\n\
         discard ID 1\n\
         streams streams\n\
         streams ID\n\
         streams #\n\
         Streams\n\
         stream\n\
         @0\n\
         @0 @0 create ID\n\
         @0create ID\n\
         \x20#\n\
         @0 # create\n\
         \t\n\
         ID",
    )
}

const IDS: &[Said] = &[
    Said(
        "create 00112233445566778899aabbccddeeff",
        Says::Create(0x00112233445566778899aabbccddeeff),
    ),
    Said(
        "create 00112233445566778899AABBCCDDEEFF",
        Says::Create(0x00112233445566778899aabbccddeeff),
    ),
    Said(
        "create 00112233-4455-6677-8899-aabbccddeeff",
        Says::Create(0x00112233445566778899aabbccddeeff),
    ),
    Said(
        "create 00112233-4455-6677-8899-AaBbCcDdEeFf",
        Says::Create(0x00112233445566778899aabbccddeeff),
    ),
    Said(
        "create {00112233-4455-6677-8899-aabbccddeeff}",
        Says::Create(0x00112233445566778899aabbccddeeff),
    ),
    Said(
        "create urn:uuid:00112233-4455-6677-8899-aabbccddeeff",
        Says::Create(0x00112233445566778899aabbccddeeff),
    ),
    Said(
        "create URN:UUID:00112233-4455-6677-8899-AABBCCDDEEFF",
        Says::Create(0x00112233445566778899aabbccddeeff),
    ),
];

#[test]
fn each_text_of_an_id_is_read(rt: HostRuntime) -> Result<(), Fail> {
    all_hold(rt.alloc(), IDS)
}

/// An input, and for each line with a reply its lane and whether it fits a form.
struct Lanes(&'static [u8], &'static [(u8, bool)]);

impl Row for Lanes {
    fn holds(&self, alloc: Global) -> Result<bool, Fail> {
        let script = read_script(alloc, self.0)?;
        Ok(are_said(script.as_slice(), self.1))
    }
}

/// Whether lines have these lanes, and fit a form or none.
fn are_said(lines: &[ScriptLine], want: &[(u8, bool)]) -> bool {
    lines.len() == want.len()
        && lines.iter().zip(want).all(|(said, want)| said.lane == want.0
            && said.line.is_some() == want.1)
}

const INPUTS: &[Lanes] = &[
    Lanes(b"\r\n \n#\xff\n# x\n#@1 streams\n\r", &[]),
    Lanes(b"streams \xff\n\xfe", &[(0, false), (0, false)]),
    Lanes(b"streams\r\nstreams\r", &[(0, true), (0, true)]),
    Lanes(b"streams\r\r\nstream\rs\n", &[(0, false), (0, false)]),
    Lanes(
        b"\n\nstreams\r\n#\nx\n\nstreams",
        &[(0, true), (0, false), (0, true)],
    ),
];

#[test]
fn the_input_is_cut_into_lines(rt: HostRuntime) -> Result<(), Fail> {
    all_hold(rt.alloc(), INPUTS)
}

#[test]
fn a_script_gives_its_lines_back(rt: HostRuntime) -> Result<(), Fail> {
    let lines = read_script(rt.alloc(), b"x\ny z\n")?.into_lines();
    assert!(rt; lines.len() == 2);
    assert!(rt; Script::from_lines(lines).as_slice().len() == 2);
    Ok(())
}

const LANES: &[Lanes] = &[
    Lanes(b"streams", &[(0, true)]),
    Lanes(b"@0 streams", &[(0, true)]),
    Lanes(b"@1 streams", &[(1, true)]),
    Lanes(b"@2 streams", &[(2, true)]),
    Lanes(b"@3 streams", &[(3, true)]),
    Lanes(b"@4 streams", &[(4, true)]),
    Lanes(b"@5 streams", &[(5, true)]),
    Lanes(b"@6 streams", &[(6, true)]),
    Lanes(b"@7 streams", &[(7, true)]),
    Lanes(b"@8 streams", &[(0, false)]),
    Lanes(b"@9 streams", &[(0, false)]),
    Lanes(b"@ streams", &[(0, false)]),
    Lanes(b"@ 1 streams", &[(0, false)]),
    Lanes(b"@01 streams", &[(0, false)]),
    Lanes(b"@10 streams", &[(0, false)]),
    Lanes(b"@-1 streams", &[(0, false)]),
    Lanes(b"@a streams", &[(0, false)]),
    Lanes(b"1 streams", &[(0, false)]),
    Lanes(b" #@1 streams", &[(0, false)]),
    Lanes(b" @1 create 00000000000000000000000000000005", &[(1, true)]),
    Lanes(b"   @7    streams   ", &[(7, true)]),
    Lanes(b"@1", &[(1, false)]),
    Lanes(b" @3 ", &[(3, false)]),
    Lanes(b"@1 #x", &[(1, false)]),
    Lanes(b"@1 @2 streams", &[(1, false)]),
    Lanes(b"streams @1", &[(0, false)]),
    Lanes(b"@1 \xff", &[(1, false)]),
    Lanes(b"@6 streams \xff", &[(6, false)]),
    Lanes(b"@1\xff streams", &[(0, false)]),
    Lanes(b"\xff @1 streams", &[(0, false)]),
    Lanes(b"@1\tstreams", &[(0, false)]),
    Lanes(b"\t@1 streams", &[(0, false)]),
    Lanes(b"@1 \tstreams", &[(1, false)]),
    Lanes(b"@2 streams\r", &[(2, true)]),
];

#[test]
fn a_first_word_names_the_lane(rt: HostRuntime) -> Result<(), Fail> {
    all_hold(rt.alloc(), LANES)
}
