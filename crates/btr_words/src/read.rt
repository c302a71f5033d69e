//! Reading the words.
ghost use Rattle.std.specs.Prelude.{◌≡◌, map, string_bytes, IfOk, IfSome};
ghost use Rattle.clap.specs.Words.{found_of, rows_of, subcommand_rows_of};
ghost use Rattle.btr_words.specs.Words.{command_of, IsInBounds};
ghost use Rattle.btr_words.specs.Program.{command_of_rows, command_with_rows, other_with_rows, reader_with_rows};
ghost use Rattle.btr_words.specs.Program.{flag_in, number_in};
ghost use Rattle.btr_words.specs.Program as spec;

use crate::command::Command;
use crate::program::program;
use clap::ArgMatches;
use clap::error::ErrorKind;
use std::alloc::{AllocError, Global};

/// Returns the command that the words of a command line give, without the program's name, or `None` if they give none. It
/// takes time and memory linear in their length. An `Err` means out of memory.
pub fn read_words(alloc: Global, words: &[String]) -> Result<Option<Command>, AllocError>
    ensures command { IfOk result (λ c. c ≡ command_of (map string_bytes words.now)) }
    ensures bounds { IfOk result (λ c. IfSome c IsInBounds) }
{
    match program(alloc)?.try_get_matches_from(words) {
        Ok(matches) => Ok(command_in(&matches)),
        Err(error) => {
            if error.kind() == ErrorKind::OutOfMemory {
                Err(AllocError)
            } else {
                Ok(None)
            }
        }
    }
}

/// Returns the command that was found in the words.
fn command_in(matches: &ArgMatches) -> Option<Command>
    ensures { result ≡ command_of_rows (subcommand_rows_of matches.now) }
{
    let (name, arguments) = matches.subcommand()?;
    command_named(name, arguments)
}

/// Returns the command of this name that was found.
fn command_named(name: &str, arguments: &ArgMatches) -> Option<Command>
    ensures { result ≡ command_with_rows name.now (rows_of (found_of arguments.now)) }
{
    if name == "format" {
        let blocks = number(arguments, "blocks")?;
        Some(Command::Format { blocks })
    } else if name == "load" {
        let workers = workers_in(arguments);
        let batch = batch_in(arguments);
        Some(Command::Load { workers, batch })
    } else if name == "distil" {
        let workers = workers_in(arguments);
        Some(Command::Distil { workers })
    } else if name == "sample" {
        sample_in(arguments)
    } else {
        other_in(name, arguments)
    }
}

/// Returns the command of this name that was found, which is none of the four of [`command_named`].
fn other_in(name: &str, arguments: &ArgMatches) -> Option<Command>
    ensures { result ≡ other_with_rows name.now (rows_of (found_of arguments.now)) }
{
    if name == "checkpoint" {
        Some(Command::Checkpoint)
    } else if name == "seal" {
        Some(Command::Seal)
    } else if name == "check" {
        Some(Command::Check)
    } else if name == "ship" {
        ship_in(arguments)
    } else {
        reader_in(name, arguments)
    }
}

/// Returns the command of this name that was found, which is `live`, `hear`, `serve` or `ask`.
fn reader_in(name: &str, arguments: &ArgMatches) -> Option<Command>
    ensures { result ≡ reader_with_rows name.now (rows_of (found_of arguments.now)) }
{
    if name == "live" {
        live_in(arguments)
    } else if name == "hear" {
        Some(Command::Hear)
    } else if name == "serve" {
        serve_in(arguments)
    } else {
        let cold = is_set(arguments, "cold");
        Some(Command::Ask { cold })
    }
}

/// Returns the `live` command that was found, if it has at most one of `--batch` and `--group`.
fn live_in(arguments: &ArgMatches) -> Option<Command>
    ensures { result ≡ spec.live_in (rows_of (found_of arguments.now)) }
{
    let materialize = is_set(arguments, "materialize");
    match small_number(arguments, "group") {
        None => {
            let batch = batch_in(arguments);
            Some(Command::Live { batch, materialize })
        }
        Some(threshold) => {
            if small_number(arguments, "batch").is_none() {
                Some(Command::LiveGroups {
                    threshold,
                    materialize,
                })
            } else {
                None
            }
        }
    }
}

/// Returns the `serve` command that was found, if it has at most one of `--batch` and `--read`.
fn serve_in(arguments: &ArgMatches) -> Option<Command>
    ensures { result ≡ spec.serve_in (rows_of (found_of arguments.now)) }
{
    if !is_set(arguments, "read") {
        let batch = batch_in(arguments);
        return Some(Command::Serve { batch });
    }
    match small_number(arguments, "batch") {
        None => Some(Command::ServeRead),
        Some(_) => None,
    }
}

/// Returns the `sample` command that was found, if it asks for at most a million points in all.
fn sample_in(arguments: &ArgMatches) -> Option<Command>
    ensures { result ≡ spec.sample_in (rows_of (found_of arguments.now)) }
{
    let number = small_number(arguments, "number")?;
    let streams = small_number(arguments, "streams")?;
    let points = small_number(arguments, "points")?;
    if u64::from(streams) * u64::from(points) <= 1_000_000 {
        Some(Command::Sample {
            number,
            streams,
            points,
        })
    } else {
        None
    }
}

/// Returns the `ship` command that was found.
fn ship_in(arguments: &ArgMatches) -> Option<Command>
    ensures { result ≡ spec.ship_in (rows_of (found_of arguments.now)) }
{
    let from = number(arguments, "from")?;
    Some(Command::Ship { from })
}

/// Returns the number of workers that was found, or the default.
fn workers_in(arguments: &ArgMatches) -> u8
    ensures { result ≡ spec.workers_in (rows_of (found_of arguments.now)) }
{
    tiny_number(arguments, "workers").unwrap_or(1)
}

/// Returns the size of a batch that was found, or the default.
fn batch_in(arguments: &ArgMatches) -> u32
    ensures { result ≡ spec.batch_in (rows_of (found_of arguments.now)) }
{
    small_number(arguments, "batch").unwrap_or(4096)
}

/// Returns whether a flag was found.
fn is_set(arguments: &ArgMatches, name: &str) -> bool
    ensures { result ≡ flag_in name.now (rows_of (found_of arguments.now)) }
{
    // as `get_flag`, which promises nothing of a text that is no `bool`
    arguments.get_one::<bool>(name).unwrap_or(false)
}

/// Returns the number that was found for an argument.
fn number(arguments: &ArgMatches, name: &str) -> Option<u64>
    ensures { result ≡ number_in name.now (rows_of (found_of arguments.now)) 18446744073709551615 }
{
    arguments.get_one::<u64>(name)
}

/// Returns the number that was found for an argument, if it has at most 32 bits.
fn small_number(arguments: &ArgMatches, name: &str) -> Option<u32>
    ensures { result ≡ number_in name.now (rows_of (found_of arguments.now)) 4294967295 }
{
    u32::try_from(number(arguments, name)?).ok()
}

/// Returns the number that was found for an argument, if it has at most 8 bits.
fn tiny_number(arguments: &ArgMatches, name: &str) -> Option<u8>
    ensures { result ≡ number_in name.now (rows_of (found_of arguments.now)) 255 }
{
    u8::try_from(number(arguments, name)?).ok()
}
