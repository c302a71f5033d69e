//! Words of command lines, and the commands that they give.

use super::fixture::{Row, all_hold};
use btr_words::{Command, read_words};
use std::alloc::{AllocError, Global};
use std::test::Fail;

fn word_of(alloc: Global, text: &str) -> Result<String, AllocError> {
    let mut word = String::new(alloc);
    word.push_str(text)?;
    Ok(word)
}

fn words_of(alloc: Global, line: &[&str]) -> Result<Vec<String>, AllocError> {
    let mut words = Vec::new(alloc);
    for text in line {
        words.push(word_of(alloc, text)?)?;
    }
    Ok(words)
}

/// The words of a line, and the command that they give, if any.
struct Words(&'static [&'static str], Option<Command>);

impl Row for Words {
    fn holds(&self, alloc: Global) -> Result<bool, Fail> {
        let words = words_of(alloc, self.0)?;
        Ok(read_words(alloc, &words)? == self.1)
    }
}

const COMMANDS: &[Words] = &[
    Words(&["ask"], Some(Command::Ask { cold: false })),
    Words(&["ask", "--"], Some(Command::Ask { cold: false })),
    Words(&["ask", "--cold"], Some(Command::Ask { cold: true })),
    Words(&["ask", "--cold", "--cold"], None),
    Words(&["ask", "--cold=1"], None),
    Words(&["ask", "--col"], None),
    Words(&["checkpoint"], Some(Command::Checkpoint)),
    Words(&["checkpoint", "--"], Some(Command::Checkpoint)),
    Words(&["seal"], Some(Command::Seal)),
    Words(&["seal", "--"], Some(Command::Seal)),
    Words(&["check"], Some(Command::Check)),
    Words(&["check", "--"], Some(Command::Check)),
    Words(
        &["live"],
        Some(Command::Live {
            batch: 4096,
            materialize: false,
        }),
    ),
    Words(
        &["live", "--"],
        Some(Command::Live {
            batch: 4096,
            materialize: false,
        }),
    ),
    Words(
        &["live", "--batch", "1"],
        Some(Command::Live {
            batch: 1,
            materialize: false,
        }),
    ),
    Words(
        &["live", "--batch", "65536"],
        Some(Command::Live {
            batch: 65536,
            materialize: false,
        }),
    ),
    Words(
        &["live", "--batch=7"],
        Some(Command::Live {
            batch: 7,
            materialize: false,
        }),
    ),
    Words(
        &["live", "--batch=+07", "--"],
        Some(Command::Live {
            batch: 7,
            materialize: false,
        }),
    ),
    Words(
        &["live", "--materialize"],
        Some(Command::Live {
            batch: 4096,
            materialize: true,
        }),
    ),
    Words(
        &["live", "--materialize", "--"],
        Some(Command::Live {
            batch: 4096,
            materialize: true,
        }),
    ),
    Words(
        &["live", "--materialize", "--batch", "8"],
        Some(Command::Live {
            batch: 8,
            materialize: true,
        }),
    ),
    Words(
        &["live", "--materialize", "--batch=8"],
        Some(Command::Live {
            batch: 8,
            materialize: true,
        }),
    ),
    Words(
        &["live", "--batch", "8", "--materialize"],
        Some(Command::Live {
            batch: 8,
            materialize: true,
        }),
    ),
    Words(
        &["live", "--batch=8", "--materialize"],
        Some(Command::Live {
            batch: 8,
            materialize: true,
        }),
    ),
    Words(
        &["live", "--batch=8", "--materialize", "--"],
        Some(Command::Live {
            batch: 8,
            materialize: true,
        }),
    ),
    Words(
        &["format", "--blocks", "8"],
        Some(Command::Format { blocks: 8 }),
    ),
    Words(
        &["format", "--blocks", "64"],
        Some(Command::Format { blocks: 64 }),
    ),
    Words(
        &["format", "--blocks=64"],
        Some(Command::Format { blocks: 64 }),
    ),
    Words(
        &["format", "--blocks", "4294967296"],
        Some(Command::Format { blocks: 4294967296 }),
    ),
    Words(
        &["format", "--blocks", "008"],
        Some(Command::Format { blocks: 8 }),
    ),
    Words(
        &[
            "format",
            "--blocks",
            "00000000000000000000000000000000000064",
        ],
        Some(Command::Format { blocks: 64 }),
    ),
    Words(
        &["format", "--blocks", "+8"],
        Some(Command::Format { blocks: 8 }),
    ),
    Words(
        &["format", "--blocks=+0064"],
        Some(Command::Format { blocks: 64 }),
    ),
    Words(
        &["format", "--blocks", "8", "--"],
        Some(Command::Format { blocks: 8 }),
    ),
    Words(
        &["format", "--blocks=8", "--"],
        Some(Command::Format { blocks: 8 }),
    ),
    Words(
        &["load"],
        Some(Command::Load {
            workers: 1,
            batch: 4096,
        }),
    ),
    Words(
        &["load", "--"],
        Some(Command::Load {
            workers: 1,
            batch: 4096,
        }),
    ),
    Words(
        &["load", "--workers", "16"],
        Some(Command::Load {
            workers: 16,
            batch: 4096,
        }),
    ),
    Words(
        &["load", "--workers=2"],
        Some(Command::Load {
            workers: 2,
            batch: 4096,
        }),
    ),
    Words(
        &["load", "--batch", "65536"],
        Some(Command::Load {
            workers: 1,
            batch: 65536,
        }),
    ),
    Words(
        &["load", "--batch=1", "--"],
        Some(Command::Load {
            workers: 1,
            batch: 1,
        }),
    ),
    Words(
        &["load", "--workers", "2", "--batch", "5"],
        Some(Command::Load {
            workers: 2,
            batch: 5,
        }),
    ),
    Words(
        &["load", "--batch", "5", "--workers", "2"],
        Some(Command::Load {
            workers: 2,
            batch: 5,
        }),
    ),
    Words(
        &["load", "--workers=2", "--batch=5"],
        Some(Command::Load {
            workers: 2,
            batch: 5,
        }),
    ),
    Words(
        &["load", "--batch=5", "--workers", "2"],
        Some(Command::Load {
            workers: 2,
            batch: 5,
        }),
    ),
    Words(
        &["load", "--batch", "5", "--workers=2", "--"],
        Some(Command::Load {
            workers: 2,
            batch: 5,
        }),
    ),
    Words(
        &["load", "--workers", "+02", "--batch=0005"],
        Some(Command::Load {
            workers: 2,
            batch: 5,
        }),
    ),
    Words(&["distil"], Some(Command::Distil { workers: 1 })),
    Words(&["distil", "--"], Some(Command::Distil { workers: 1 })),
    Words(
        &["distil", "--workers", "1"],
        Some(Command::Distil { workers: 1 }),
    ),
    Words(
        &["distil", "--workers=16"],
        Some(Command::Distil { workers: 16 }),
    ),
    Words(
        &["sample", "1", "1", "3"],
        Some(Command::Sample {
            number: 1,
            streams: 1,
            points: 3,
        }),
    ),
    Words(
        &["sample", "0", "1", "1000000"],
        Some(Command::Sample {
            number: 0,
            streams: 1,
            points: 1000000,
        }),
    ),
    Words(
        &["sample", "2147483647", "1000", "1000"],
        Some(Command::Sample {
            number: 2147483647,
            streams: 1000,
            points: 1000,
        }),
    ),
    Words(
        &["sample", "+1", "01", "3"],
        Some(Command::Sample {
            number: 1,
            streams: 1,
            points: 3,
        }),
    ),
    Words(
        &["sample", "--", "1", "1", "3"],
        Some(Command::Sample {
            number: 1,
            streams: 1,
            points: 3,
        }),
    ),
    Words(
        &["sample", "1", "1", "--", "3"],
        Some(Command::Sample {
            number: 1,
            streams: 1,
            points: 3,
        }),
    ),
    Words(
        &["sample", "1", "1", "3", "--"],
        Some(Command::Sample {
            number: 1,
            streams: 1,
            points: 3,
        }),
    ),
];

#[test]
fn lines_that_give_a_command(rt: HostRuntime) -> Result<(), Fail> {
    all_hold(rt.alloc(), COMMANDS)
}

const GROUPS: &[Words] = &[
    // shared buffers
    Words(
        &["live", "--group", "1"],
        Some(Command::LiveGroups {
            threshold: 1,
            materialize: false,
        }),
    ),
    Words(
        &["live", "--group", "65536"],
        Some(Command::LiveGroups {
            threshold: 65536,
            materialize: false,
        }),
    ),
    Words(
        &["live", "--group=8"],
        Some(Command::LiveGroups {
            threshold: 8,
            materialize: false,
        }),
    ),
    Words(
        &["live", "--group=+08", "--"],
        Some(Command::LiveGroups {
            threshold: 8,
            materialize: false,
        }),
    ),
    Words(
        &["live", "--group", "8", "--materialize"],
        Some(Command::LiveGroups {
            threshold: 8,
            materialize: true,
        }),
    ),
    Words(
        &["live", "--materialize", "--group", "8"],
        Some(Command::LiveGroups {
            threshold: 8,
            materialize: true,
        }),
    ),
    Words(
        &["live", "--group=8", "--materialize", "--"],
        Some(Command::LiveGroups {
            threshold: 8,
            materialize: true,
        }),
    ),
    Words(
        &["live", "--materialize", "--group=8"],
        Some(Command::LiveGroups {
            threshold: 8,
            materialize: true,
        }),
    ),
];

#[test]
fn lines_with_shared_buffers_give_a_command(rt: HostRuntime) -> Result<(), Fail> {
    all_hold(rt.alloc(), GROUPS)
}

const SERVING: &[Words] = &[
    // answers one at a time
    Words(&["serve"], Some(Command::Serve { batch: 4096 })),
    Words(&["serve", "--"], Some(Command::Serve { batch: 4096 })),
    Words(
        &["serve", "--batch", "1"],
        Some(Command::Serve { batch: 1 }),
    ),
    Words(
        &["serve", "--batch", "65536"],
        Some(Command::Serve { batch: 65536 }),
    ),
    Words(&["serve", "--batch=8"], Some(Command::Serve { batch: 8 })),
    Words(
        &["serve", "--batch=+08", "--"],
        Some(Command::Serve { batch: 8 }),
    ),
    Words(&["serve", "--read"], Some(Command::ServeRead)),
    Words(&["serve", "--read", "--"], Some(Command::ServeRead)),
];

#[test]
fn lines_that_serve_give_a_command(rt: HostRuntime) -> Result<(), Fail> {
    all_hold(rt.alloc(), SERVING)
}

const NO_COMMAND: &[Words] = &[
    // no command, or another word in its place
    Words(&[], None),
    Words(&[""], None),
    Words(&["--"], None),
    Words(&["-"], None),
    Words(&["--", "ask"], None),
    Words(&["ASK"], None),
    Words(&["ask "], None),
    Words(&["as"], None),
    Words(&["form", "--blocks", "64"], None),
    Words(&["lively"], None),
    Words(&["--blocks", "64", "format"], None),
    Words(&["--blocks=64"], None),
    Words(&["--batch", "8", "live"], None),
    // help and versions
    Words(&["--help"], None),
    Words(&["-h"], None),
    Words(&["help"], None),
    Words(&["help", "format"], None),
    Words(&["format", "--help"], None),
    Words(&["format", "--blocks", "64", "--help"], None),
    Words(&["live", "-h"], None),
    Words(&["ask", "--help"], None),
    Words(&["--version"], None),
    Words(&["-V"], None),
    Words(&["ask", "--version"], None),
];

#[test]
fn lines_without_a_command_give_none(rt: HostRuntime) -> Result<(), Fail> {
    all_hold(rt.alloc(), NO_COMMAND)
}

const WRONG_OPTIONS: &[Words] = &[
    // options that lack, are broken or are of another command
    Words(&["format"], None),
    Words(&["format", "--"], None),
    Words(&["format", "64"], None),
    Words(&["format", "--blocks"], None),
    Words(&["format", "--blocks="], None),
    Words(&["format", "--blocks", ""], None),
    Words(&["format", "--blocks", "--", "64"], None),
    Words(&["format", "--", "--blocks", "64"], None),
    Words(&["format", "--block", "64"], None),
    Words(&["format", "--b=64"], None),
    Words(&["format", "--Blocks", "64"], None),
    Words(&["format", "-b", "64"], None),
    Words(&["format", "-blocks", "64"], None),
    Words(&["format", "--batch", "64"], None),
    Words(&["live", "--blocks", "64"], None),
    Words(&["live", "--batch"], None),
    Words(&["live", "--bat", "8"], None),
    Words(&["ask", "--batch", "8"], None),
    // twice, and words after
    Words(&["format", "--blocks", "64", "--blocks", "64"], None),
    Words(&["format", "--blocks=64", "--blocks=65"], None),
    Words(&["format", "--blocks", "64", "64"], None),
    Words(&["live", "--batch", "8", "--batch", "8"], None),
    Words(&["live", "8"], None),
    Words(&["live", "--batch", "8", "--", "8"], None),
    Words(&["live", "--", "--"], None),
    Words(&["ask", ""], None),
    Words(&["ask", "ask"], None),
];

#[test]
fn wrong_options_give_none(rt: HostRuntime) -> Result<(), Fail> {
    all_hold(rt.alloc(), WRONG_OPTIONS)
}

const WRONG_CHECKPOINTS: &[Words] = &[
    // words after the command, and other spellings of it
    Words(&["checkpoint", "1"], None),
    Words(&["checkpoint", ""], None),
    Words(&["checkpoint", "checkpoint"], None),
    Words(&["checkpoint", "--", "--"], None),
    Words(&["checkpoint", "--blocks", "8"], None),
    Words(&["checkpoint", "--workers", "1"], None),
    Words(&["checkpoint", "--batch=8"], None),
    Words(&["checkpoint", "--materialize"], None),
    Words(&["checkpoint", "--help"], None),
    Words(&["checkpoin"], None),
    Words(&["checkpoints"], None),
    Words(&["Checkpoint"], None),
    Words(&["--checkpoint"], None),
    Words(&["--", "checkpoint"], None),
    // those of a seal
    Words(&["seal", "1"], None),
    Words(&["seal", "--", "--"], None),
    Words(&["seal", "--batch=8"], None),
    Words(&["seals"], None),
    Words(&["sealed"], None),
];

#[test]
fn wrong_words_of_a_checkpoint_give_none(rt: HostRuntime) -> Result<(), Fail> {
    all_hold(rt.alloc(), WRONG_CHECKPOINTS)
}

const WRONG_CHECKS: &[Words] = &[
    // words after the command, and other spellings of it
    Words(&["check", "1"], None),
    Words(&["check", ""], None),
    Words(&["check", "check"], None),
    Words(&["check", "point"], None),
    Words(&["check", "--", "--"], None),
    Words(&["check", "--workers", "1"], None),
    Words(&["check", "--batch=8"], None),
    Words(&["check", "--help"], None),
    Words(&["chec"], None),
    Words(&["checks"], None),
    Words(&["Check"], None),
    Words(&["--check"], None),
    Words(&["--", "check"], None),
];

#[test]
fn wrong_words_of_a_check_give_none(rt: HostRuntime) -> Result<(), Fail> {
    all_hold(rt.alloc(), WRONG_CHECKS)
}

const WRONG_FLAGS: &[Words] = &[
    // the flag with a text, twice, in part, after the end of options, or where a number is wanted
    Words(&["live", "--materialize=true"], None),
    Words(&["live", "--materialize=false"], None),
    Words(&["live", "--materialize=1"], None),
    Words(&["live", "--materialize="], None),
    Words(&["live", "--materialize", "true"], None),
    Words(&["live", "--materialize", "8"], None),
    Words(&["live", "--materialize", ""], None),
    Words(&["live", "--materialize", "--materialize"], None),
    Words(
        &["live", "--materialize", "--batch", "8", "--materialize"],
        None,
    ),
    Words(
        &["live", "--materialize", "--batch", "8", "--batch", "8"],
        None,
    ),
    Words(&["live", "--mat"], None),
    Words(&["live", "--m"], None),
    Words(&["live", "--materializ"], None),
    Words(&["live", "--materialized"], None),
    Words(&["live", "--Materialize"], None),
    Words(&["live", "-materialize"], None),
    Words(&["live", "-m"], None),
    Words(&["live", "materialize"], None),
    Words(&["live", "--", "--materialize"], None),
    Words(&["live", "--batch", "8", "--", "--materialize"], None),
    Words(&["live", "--materialize", "--", "--batch", "8"], None),
    Words(&["live", "--batch", "--materialize"], None),
    Words(&["live", "--batch", "--materialize", "8"], None),
    Words(&["live", "--batch=", "--materialize"], None),
    Words(&["live", "--materialize", "--batch"], None),
    Words(&["live", "--materialize", "--batch", "0"], None),
    Words(&["--materialize", "live"], None),
    Words(&["load", "--materialize"], None),
    Words(&["format", "--blocks", "64", "--materialize"], None),
    Words(&["ask", "--materialize"], None),
    Words(&["distil", "--materialize"], None),
    Words(&["sample", "1", "1", "3", "--materialize"], None),
];

#[test]
fn wrong_flags_give_none(rt: HostRuntime) -> Result<(), Fail> {
    all_hold(rt.alloc(), WRONG_FLAGS)
}

const WRONG_GROUPS: &[Words] = &[
    // shared buffers: numbers that lack or are wrong, the option twice, in part, of another command, or beside a batch
    Words(&["live", "--group"], None),
    Words(&["live", "--group="], None),
    Words(&["live", "--group", ""], None),
    Words(&["live", "--group", "0"], None),
    Words(&["live", "--group", "65537"], None),
    Words(&["live", "--group=-8"], None),
    Words(&["live", "--group", "--materialize"], None),
    Words(&["live", "--group", "--materialize", "8"], None),
    Words(&["live", "--group", "--", "8"], None),
    Words(&["live", "--", "--group", "8"], None),
    Words(&["live", "--group", "8", "8"], None),
    Words(&["live", "--group", "8", "--", "8"], None),
    Words(&["live", "--group", "8", "--group", "8"], None),
    Words(&["live", "--group=8", "--group=9"], None),
    Words(&["live", "--group", "8", "--batch", "8"], None),
    Words(&["live", "--batch", "8", "--group", "8"], None),
    Words(&["live", "--group=8", "--batch=8"], None),
    Words(&["live", "--batch=4096", "--group=1"], None),
    Words(
        &["live", "--batch", "8", "--materialize", "--group", "8"],
        None,
    ),
    Words(
        &["live", "--group", "8", "--materialize", "--batch", "8"],
        None,
    ),
    Words(
        &["live", "--materialize", "--group", "8", "--batch", "8"],
        None,
    ),
    Words(
        &["live", "--group", "8", "--materialize", "--materialize"],
        None,
    ),
    Words(&["live", "--groups", "8"], None),
    Words(&["live", "--grou", "8"], None),
    Words(&["live", "--g=8"], None),
    Words(&["live", "--Group", "8"], None),
    Words(&["live", "-group", "8"], None),
    Words(&["live", "-g", "8"], None),
    Words(&["live", "group", "8"], None),
    Words(&["--group", "8", "live"], None),
    Words(&["load", "--group", "8"], None),
    Words(&["format", "--group", "8"], None),
    Words(&["ask", "--group", "8"], None),
    Words(&["distil", "--group", "8"], None),
    Words(&["checkpoint", "--group", "8"], None),
    Words(&["check", "--group=8"], None),
];

#[test]
fn wrong_words_of_shared_buffers_give_none(rt: HostRuntime) -> Result<(), Fail> {
    all_hold(rt.alloc(), WRONG_GROUPS)
}

const WRONG_SERVING: &[Words] = &[
    // answers one at a time: wrong numbers, the flag with a text, twice, in part or beside a batch, and options of other commands
    Words(&["serve", "--batch"], None),
    Words(&["serve", "--batch="], None),
    Words(&["serve", "--batch", "0"], None),
    Words(&["serve", "--batch", "65537"], None),
    Words(&["serve", "--batch", "8", "--batch", "8"], None),
    Words(&["serve", "--read", "--batch", "8"], None),
    Words(&["serve", "--batch", "8", "--read"], None),
    Words(&["serve", "--read", "--batch=4096"], None),
    Words(&["serve", "--batch=4096", "--read"], None),
    Words(&["serve", "--batch", "--read"], None),
    Words(&["serve", "--read", "--read"], None),
    Words(&["serve", "--read="], None),
    Words(&["serve", "--read=1"], None),
    Words(&["serve", "--read", "true"], None),
    Words(&["serve", "--rea"], None),
    Words(&["serve", "-r"], None),
    Words(&["serve", "read"], None),
    Words(&["serve", "--", "--read"], None),
    Words(&["serve", "--materialize"], None),
    Words(&["serve", "--materialize", "--batch", "8"], None),
    Words(&["serve", "--read", "--materialize"], None),
    Words(&["serve", "--group", "8"], None),
    Words(&["serve", "--workers", "1"], None),
    Words(&["serve", "--cold"], None),
    Words(&["serve", "8"], None),
    Words(&["serv"], None),
    Words(&["serves"], None),
    Words(&["Serve"], None),
    Words(&["--read", "serve"], None),
    Words(&["live", "--read"], None),
    Words(&["ask", "--read"], None),
];

#[test]
fn wrong_words_of_serving_give_none(rt: HostRuntime) -> Result<(), Fail> {
    all_hold(rt.alloc(), WRONG_SERVING)
}

const WRONG_NUMBERS: &[Words] = &[
    // numbers
    Words(&["format", "--blocks", "7"], None),
    Words(&["format", "--blocks", "4294967297"], None),
    Words(&["format", "--blocks", "18446744073709551616"], None),
    Words(&["format", "--blocks", "-8"], None),
    Words(&["format", "--blocks=-8"], None),
    Words(&["format", "--blocks", "8.0"], None),
    Words(&["format", "--blocks", "0x10"], None),
    Words(&["format", "--blocks", "++8"], None),
    Words(&["live", "--batch", "0"], None),
    Words(&["live", "--batch", "65537"], None),
    Words(&["live", "--batch", " 8"], None),
];

#[test]
fn wrong_numbers_give_none(rt: HostRuntime) -> Result<(), Fail> {
    all_hold(rt.alloc(), WRONG_NUMBERS)
}

const WRONG_ROWS: &[Words] = &[
    // options of rows
    Words(&["load", "--workers"], None),
    Words(&["load", "--workers", "0"], None),
    Words(&["load", "--workers", "17"], None),
    Words(&["load", "--workers="], None),
    Words(&["load", "--workers", "--batch", "5"], None),
    Words(&["load", "--workers", "--", "2"], None),
    Words(&["load", "--workers", "2", "--batch"], None),
    Words(&["load", "--workers", "2", "--batch", "0"], None),
    Words(&["load", "--workers", "2", "--batch=65537"], None),
    Words(&["load", "--workers", "2", "--workers", "2"], None),
    Words(
        &["load", "--workers=2", "--batch", "5", "--workers=2"],
        None,
    ),
    Words(&["load", "--batch=5", "--batch=5"], None),
    Words(&["load", "--workers", "2", "5"], None),
    Words(&["load", "2"], None),
    Words(&["load", "--", "--workers", "2"], None),
    Words(&["load", "--workers", "2", "--", "--batch", "5"], None),
    Words(&["load", "--workers", "2", "--", "--"], None),
    Words(&["load", "--worker", "2"], None),
    Words(&["load", "-w", "2"], None),
    Words(&["load", "--blocks", "8"], None),
    Words(&["load", "--help"], None),
    Words(&["loads"], None),
    Words(&["distil", "--batch", "5"], None),
    Words(&["distil", "--workers", "17"], None),
    Words(&["distil", "2"], None),
];

#[test]
fn wrong_options_of_rows_give_none(rt: HostRuntime) -> Result<(), Fail> {
    all_hold(rt.alloc(), WRONG_ROWS)
}

const WRONG_SAMPLES: &[Words] = &[
    // a sample
    Words(&["sample"], None),
    Words(&["sample", "1", "1"], None),
    Words(&["sample", "1", "1", "3", "3"], None),
    Words(&["sample", "-1", "1", "3"], None),
    Words(&["sample", "--", "-1", "1", "3"], None),
    Words(&["sample", "1", "1", "-3"], None),
    Words(&["sample", "-", "1", "3"], None),
    Words(&["sample", "", "1", "3"], None),
    Words(&["sample", "2147483648", "1", "3"], None),
    Words(&["sample", "1", "0", "3"], None),
    Words(&["sample", "1", "1001", "3"], None),
    Words(&["sample", "1", "1", "0"], None),
    Words(&["sample", "1", "1", "1000001"], None),
    Words(&["sample", "1", "1000", "1001"], None),
    Words(&["sample", "1", "3", "333334"], None),
    Words(&["sample", "1", "--", "1", "--", "3"], None),
    Words(&["sample", "--number", "1", "1", "3"], None),
    Words(&["sample", "--number=1", "1", "3"], None),
];

#[test]
fn wrong_words_of_a_sample_give_none(rt: HostRuntime) -> Result<(), Fail> {
    all_hold(rt.alloc(), WRONG_SAMPLES)
}
