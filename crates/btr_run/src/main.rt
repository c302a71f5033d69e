//! `btr_run DEVICE COMMAND ..`: the program. It opens the device and the streams, and leaves all else to
//! [`btr_top::run`].
#![tactic(auto)]

ghost use Rattle.std.specs.Prelude.{◌≡◌, ◌↔◌, map, string_bytes, IfOk};
ghost use Rattle.btr_host.specs.declared.access.Access.TheVariants as accesses;
ghost use Rattle.btr_words.specs.Words.{command_of};
ghost use Rattle.btr_top.specs.Run.{IsReader};

mod usage;

use crate::usage::say_usage;
use btr_disk::Disk;
use btr_host::{Access, FileDisk, NoDisk, StdSink, StdSource};
use btr_top::{Outcome, run};
use btr_words::{Command, read_words};
use std::alloc::{AllocError, Global};
use std::env;
use std::io::ErrorKind;
use std::mem::forget;
use std::process::ExitCode;
use std::sync::Wait;
use std::thread::Threads;

/// The status of a run whose words are refused.
const NO_USAGE: u8 = 2;

/// The size of the block that is freed first: just below 32 MiB, the most for which the C library changes what it does.
const KEPT_BYTES: usize = 33_000_000;

fn main(rt: HostRuntime) -> ExitCode {
    keep_freed_memory(rt.alloc());
    let status = match words(&rt) {
        Ok(words) => run_or_explain(&rt, &rt, words.as_slice()),
        Err(AllocError) => end_without_memory(&rt),
    };
    ExitCode::from(status)
}

/// Lets the C library keep what is freed for whoever asks for memory next. Until a large block is freed, it gives each block of 128 KiB
/// or more back to the system at once. So the memory of each thread stays small, and is lengthened page by page, for which the threads
/// wait for one another. The block is not touched, so it takes no memory.
fn keep_freed_memory(alloc: Global) {
    let block: Result<Vec<u8>, AllocError> = Vec::with_capacity(alloc, KEPT_BYTES);
    drop(block);
}

/// Runs the words of the command line. If they are refused, it says on standard error why, for whoever typed them.
fn run_or_explain<W: Threads + Wait + Sync>(rt: &HostRuntime, wait: &W, words: &[String]) -> u8 {
    let status = run_words(rt, wait, words);
    if status == NO_USAGE {
        say_usage(rt, words);
    }
    status
}

/// Runs the words of the command line on the device that the second of them names. The first is the program's name. Without a command
/// no device is opened, so `--help` makes no file. The run waits
/// by `wait`: that is the runtime too, which only `main` may use so.
fn run_words<W: Threads + Wait + Sync>(rt: &HostRuntime, wait: &W, words: &[String]) -> u8 {
    match words {
        [_, path, rest @ ..] if !rest.is_empty() => match access_of(rt.alloc(), rest) {
            Ok(access) => run_on(rt, wait, path.as_str(), access, rest),
            Err(_) => end_without_memory(rt),
        },
        _ => run_with(rt, wait, &[], NoDisk::new()),
    }
}

/// Runs words on the device with this path, and waits by `wait`.
fn run_on<W: Threads + Wait + Sync>(
    rt: &HostRuntime,
    wait: &W,
    path: &str,
    access: Access,
    words: &[String],
) -> u8 {
    match FileDisk::open(rt, path, access) {
        Ok(disk) => run_with(rt, wait, words, disk),
        Err(_) => run_with(rt, wait, words, NoDisk::new()),
    }
}

/// Runs words on a device, from standard input to standard output, and waits by `wait`. What the run leaves in memory is left to the
/// system, since the process ends after it.
fn run_with<W: Threads + Wait + Sync, D: Disk + Send + Drop>(
    rt: &HostRuntime,
    wait: &W,
    words: &[String],
    disk: D,
) -> u8 {
    let mut source = StdSource::new(rt.stdin());
    let mut sink = StdSink::new(rt.stdout());
    let Outcome {
        status,
        remains,
        ..
    } = run(wait, rt.alloc(), words, &mut source, &mut sink, disk);
    forget(remains);
    status
}

/// What a run with these words does with its device: `ask`, `serve --read`, `check` and `ship` read, and all else may write. An `Err` means
/// out of memory.
fn access_of(alloc: Global, words: &[String]) -> Result<Access, AllocError>
    ensures { IfOk result (λ a. (a ≡ accesses.Read) ↔ IsReader (command_of (map string_bytes words.now))) }
{
    match read_words(alloc, words)? {
        Some(Command::Ask { .. }) => Ok(Access::Read),
        Some(Command::ServeRead) => Ok(Access::Read),
        Some(Command::Check) => Ok(Access::Read),
        Some(Command::Ship { .. }) => Ok(Access::Read),
        _ => Ok(Access::Write),
    }
}

/// Ends a run for whose words there is no memory.
fn end_without_memory(rt: &HostRuntime) -> u8 {
    match println!(rt; "no memory") {
        Ok(()) => 9,
        Err(_) => 4,
    }
}

/// The program's name and the words that follow it; none if one of them is not UTF-8, since those are no command.
fn words(rt: &HostRuntime) -> Result<Vec<String>, AllocError> {
    let mut words = Vec::new(rt.alloc());
    match env::args(rt) {
        Ok(given) => {
            for word in given {
                words.push(word)?;
            }
            Ok(words)
        }
        Err(error) if error.kind() == ErrorKind::OutOfMemory => Err(AllocError),
        Err(_) => Ok(words),
    }
}
