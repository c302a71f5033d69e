//! Questions about one stream.
use super::fixture::{Said, Says, fit_no_form};
use crate::fixture::all_hold;
use btr_base::Toward;
use btr_hist::{At, StreamQuery};
use std::test::Fail;

const FORMS: &[Said] = &[
    Said(
        "range ID -5 7 latest",
        Says::Ask(StreamQuery::Points {
            from: -5,
            to: 7,
            at: At::Latest,
        }),
    ),
    Said(
        "range ID 7 -5 0",
        Says::Ask(StreamQuery::Points {
            from: 7,
            to: -5,
            at: At::Number(0),
        }),
    ),
    Said(
        "  range   ID  0  1 2   ",
        Says::Ask(StreamQuery::Points {
            from: 0,
            to: 1,
            at: At::Number(2),
        }),
    ),
    Said(
        "@0 range ID 0 1 2",
        Says::Ask(StreamQuery::Points {
            from: 0,
            to: 1,
            at: At::Number(2),
        }),
    ),
    Said(
        "nearest ID -3 next latest",
        Says::Ask(StreamQuery::Nearest {
            time: -3,
            toward: Toward::Forward,
            at: At::Latest,
        }),
    ),
    Said(
        "nearest ID 3 prev 4",
        Says::Ask(StreamQuery::Nearest {
            time: 3,
            toward: Toward::Backward,
            at: At::Number(4),
        }),
    ),
    Said(
        "aligned ID -5 7 2 latest",
        Says::Ask(StreamQuery::Aligned {
            from: -5,
            to: 7,
            p: 2,
            at: At::Latest,
        }),
    ),
    Said(
        "aligned ID 7 -5 63 0",
        Says::Ask(StreamQuery::Aligned {
            from: 7,
            to: -5,
            p: 63,
            at: At::Number(0),
        }),
    ),
    Said(
        "windows ID -5 7 3 latest",
        Says::Ask(StreamQuery::Windows {
            from: -5,
            to: 7,
            width: 3,
            at: At::Latest,
        }),
    ),
    Said(
        "windows ID 7 -5 0 1",
        Says::Ask(StreamQuery::Windows {
            from: 7,
            to: -5,
            width: 0,
            at: At::Number(1),
        }),
    ),
    Said(
        "changes ID 1 3 2",
        Says::Ask(StreamQuery::Changes {
            old: 1,
            new: 3,
            p: 2,
        }),
    ),
    Said(
        "changes ID 3 1 63",
        Says::Ask(StreamQuery::Changes {
            old: 3,
            new: 1,
            p: 63,
        }),
    ),
    Said(
        "info ID latest",
        Says::Ask(StreamQuery::Info { at: At::Latest }),
    ),
    Said(
        " @0  info  ID  0 ",
        Says::Ask(StreamQuery::Info { at: At::Number(0) }),
    ),
];

#[test]
fn each_form_of_a_question_is_read(rt: HostRuntime) -> Result<(), Fail> {
    all_hold(rt.alloc(), FORMS)
}

const BOUNDS: &[Said] = &[
    Said(
        "range ID -9223372036854775808 9223372036854775807 18446744073709551615",
        Says::Ask(StreamQuery::Points {
            from: i64::MIN,
            to: i64::MAX,
            at: At::Number(u64::MAX),
        }),
    ),
    Said(
        "nearest ID -9223372036854775808 next 0018446744073709551615",
        Says::Ask(StreamQuery::Nearest {
            time: i64::MIN,
            toward: Toward::Forward,
            at: At::Number(u64::MAX),
        }),
    ),
    Said(
        "aligned ID -9223372036854775808 9223372036854775807 255 18446744073709551615",
        Says::Ask(StreamQuery::Aligned {
            from: i64::MIN,
            to: i64::MAX,
            p: 255,
            at: At::Number(u64::MAX),
        }),
    ),
    Said(
        "aligned ID 0 1 000255 0",
        Says::Ask(StreamQuery::Aligned {
            from: 0,
            to: 1,
            p: 255,
            at: At::Number(0),
        }),
    ),
    Said(
        "windows ID -0 007 18446744073709551615 0",
        Says::Ask(StreamQuery::Windows {
            from: 0,
            to: 7,
            width: u64::MAX,
            at: At::Number(0),
        }),
    ),
    Said(
        "changes ID 18446744073709551615 18446744073709551614 255",
        Says::Ask(StreamQuery::Changes {
            old: u64::MAX,
            new: u64::MAX - 1,
            p: 255,
        }),
    ),
    Said(
        "info ID 18446744073709551615",
        Says::Ask(StreamQuery::Info {
            at: At::Number(u64::MAX),
        }),
    ),
];

#[test]
fn greatest_and_least_numbers_of_questions_are_read(rt: HostRuntime) -> Result<(), Fail> {
    all_hold(rt.alloc(), BOUNDS)
}

#[test]
fn a_question_that_fits_no_form_has_none(rt: HostRuntime) -> Result<(), Fail> {
    fit_no_form(
        rt.alloc(),
        "range\n\
         range ID 1 2\n\
         range ID 1 latest\n\
         range ID 1 2 latest 3\n\
         range ID 1 2 Latest\n\
         range ID latest 2 3\n\
         range ID 1 2 18446744073709551616\n\
         range ID 1 2 -1\n\
         range ID 1 2 +1\n\
         nearest\n\
         nearest ID 0\n\
         nearest ID 0 next\n\
         nearest ID 0 1\n\
         nearest ID 0 next 1 2\n\
         nearest ID next 0 1\n\
         nearest ID 0 nxt 1\n\
         nearest ID 0 Next 1\n\
         nearest ID 0 previous 1\n\
         nearest ID 9223372036854775808 next 0\n\
         nearest ID 0 next 18446744073709551616\n\
         nearest x 0 prev 1\n\
         aligned\n\
         aligned ID 0 1 2\n\
         aligned ID 0 1 2 3 4\n\
         aligned ID 0 1 latest 2\n\
         aligned ID 0 latest 1 2\n\
         aligned ID -9223372036854775809 1 2 3\n\
         aligned ID 0 9223372036854775808 2 3\n\
         aligned ID 0 1 256 3\n\
         aligned ID 0 1 -1 3\n\
         aligned ID 0 1 +1 3\n\
         aligned ID 0 1 99999999999999999999999999 3\n\
         aligned x 0 1 2 3\n\
         windows\n\
         windows ID 0 1 2\n\
         windows ID 0 1 2 3 4\n\
         windows ID 0 1 latest 2\n\
         windows ID 0 1 18446744073709551616 3\n\
         windows ID 0 1 -1 3\n\
         windows ID 0 1 2 -3\n\
         windows x 0 1 2 3\n\
         changes\n\
         changes ID 0 1\n\
         changes ID 0 1 2 3\n\
         changes ID 0 latest 2\n\
         changes ID 18446744073709551616 1 2\n\
         changes ID 1 18446744073709551616 2\n\
         changes ID -1 1 2\n\
         changes ID 1 3 256\n\
         changes x 0 1 2\n\
         info\n\
         info ID\n\
         info ID 0 1\n\
         info latest\n\
         info x 0\n\
         info ID 18446744073709551616",
    )
}
