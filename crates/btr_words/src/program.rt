//! The commands and their arguments, as `clap` reads them.
ghost use Rattle.std.specs.Prelude.{◌≡◌, IfOk, false};
ghost use Rattle.clap.specs.Words.{app_of, rule_of};
ghost use Rattle.btr_words.specs.Program.{first_app, main_app, program_app, format_app, load_app, ask_app, distil_app};
ghost use Rattle.btr_words.specs.Program.{live_app, sample_app, serve_app, ship_app};
ghost use Rattle.btr_words.specs.Program.{batch_rule, group_rule, materialize_rule, workers_rule, number_rule, streams_rule, points_rule};
ghost use Rattle.btr_words.specs.Program.{from_rule, cold_rule, read_rule};

use clap::{Arg, ArgAction, Command};
use std::alloc::{AllocError, Global};

/// Returns the description of all commands. Help and versions cannot be asked for. An `Err` means out of memory.
pub(crate) fn program<'a>(alloc: Global) -> Result<Command<'a>, AllocError>
    ensures { IfOk result (λ c. app_of c ≡ program_app) }
{
    main_commands(alloc)?
        .subcommand(ship_command(alloc)?)?
        .subcommand(Command::new(alloc, "hear"))?
        .subcommand(serve_command(alloc)?)
}

/// Returns the description of all commands but those of frames and `serve`. An `Err` means out of memory.
fn main_commands<'a>(alloc: Global) -> Result<Command<'a>, AllocError>
    ensures { IfOk result (λ c. app_of c ≡ main_app) }
{
    first_commands(alloc)?
        .subcommand(distil_command(alloc)?)?
        .subcommand(live_command(alloc)?)?
        .subcommand(sample_command(alloc)?)?
        .subcommand(Command::new(alloc, "checkpoint"))?
        .subcommand(Command::new(alloc, "seal"))?
        .subcommand(Command::new(alloc, "check"))
}

/// Returns the description of the first three commands. An `Err` means out of memory.
fn first_commands<'a>(alloc: Global) -> Result<Command<'a>, AllocError>
    ensures { IfOk result (λ c. app_of c ≡ first_app) }
{
    Command::new(alloc, "btr")
        .no_binary_name(true)
        .disable_help_flag(true)
        .disable_help_subcommand(true)
        .disable_version_flag(true)
        .subcommand_required(true)
        .subcommand(format_command(alloc)?)?
        .subcommand(load_command(alloc)?)?
        .subcommand(ask_command(alloc)?)
}

/// Returns the description of `format --blocks N`. An `Err` means out of memory.
fn format_command<'a>(alloc: Global) -> Result<Command<'a>, AllocError>
    ensures { IfOk result (λ c. app_of c ≡ format_app) }
{
    let blocks = Arg::new(alloc, "blocks")
        .long("blocks")
        .value_parser(clap::value_parser!(u64).range(8..=4294967296));
    Command::new(alloc, "format").arg(blocks)
}

/// Returns the description of `load [--workers K] [--batch B]`. An `Err` means out of memory.
fn load_command<'a>(alloc: Global) -> Result<Command<'a>, AllocError>
    ensures { IfOk result (λ c. app_of c ≡ load_app) }
{
    Command::new(alloc, "load")
        .arg(workers(alloc))?
        .arg(batch(alloc))
}

/// Returns the description of `ask [--cold]`. An `Err` means out of memory.
fn ask_command<'a>(alloc: Global) -> Result<Command<'a>, AllocError>
    ensures { IfOk result (λ c. app_of c ≡ ask_app) }
{
    Command::new(alloc, "ask").arg(cold(alloc))
}

/// Returns the description of `distil [--workers K]`. An `Err` means out of memory.
fn distil_command<'a>(alloc: Global) -> Result<Command<'a>, AllocError>
    ensures { IfOk result (λ c. app_of c ≡ distil_app) }
{
    Command::new(alloc, "distil").arg(workers(alloc))
}

/// Returns the description of `live [--materialize] [--batch B]` and `live --group B [--materialize]`. That `--batch` and `--group` do not
/// go together is tested when the words have been read. An `Err` means out of memory.
fn live_command<'a>(alloc: Global) -> Result<Command<'a>, AllocError>
    ensures { IfOk result (λ c. app_of c ≡ live_app) }
{
    Command::new(alloc, "live")
        .arg(batch(alloc))?
        .arg(group(alloc))?
        .arg(materialize(alloc))
}

/// Returns the description of `sample NUMBER STREAMS POINTS`. An `Err` means out of memory.
fn sample_command<'a>(alloc: Global) -> Result<Command<'a>, AllocError>
    ensures { IfOk result (λ c. app_of c ≡ sample_app) }
{
    Command::new(alloc, "sample")
        .arg(number(alloc))?
        .arg(streams(alloc))?
        .arg(points(alloc))
}

/// Returns the description of `ship FROM`. An `Err` means out of memory.
fn ship_command<'a>(alloc: Global) -> Result<Command<'a>, AllocError>
    ensures { IfOk result (λ c. app_of c ≡ ship_app) }
{
    Command::new(alloc, "ship").arg(from(alloc))
}

/// Returns the description of `serve [--batch B]` and `serve --read`. That `--batch` and `--read` do not go together is tested when the
/// words have been read. An `Err` means out of memory.
fn serve_command<'a>(alloc: Global) -> Result<Command<'a>, AllocError>
    ensures { IfOk result (λ c. app_of c ≡ serve_app) }
{
    Command::new(alloc, "serve")
        .arg(batch(alloc))?
        .arg(read(alloc))
}

/// Returns the description of `--workers K`.
fn workers<'a>(alloc: Global) -> Arg<'a>
    ensures local { result.global ≡ false }
    ensures rule { rule_of result ≡ workers_rule }
{
    Arg::new(alloc, "workers")
        .long("workers")
        .value_parser(clap::value_parser!(u64).range(1..=16))
}

/// Returns the description of `--batch B`.
fn batch<'a>(alloc: Global) -> Arg<'a>
    ensures local { result.global ≡ false }
    ensures rule { rule_of result ≡ batch_rule }
{
    Arg::new(alloc, "batch")
        .long("batch")
        .value_parser(clap::value_parser!(u64).range(1..=65536))
}

/// Returns the description of `--group B`.
fn group<'a>(alloc: Global) -> Arg<'a>
    ensures local { result.global ≡ false }
    ensures rule { rule_of result ≡ group_rule }
{
    Arg::new(alloc, "group")
        .long("group")
        .value_parser(clap::value_parser!(u64).range(1..=65536))
}

/// Returns the description of `--materialize`.
fn materialize<'a>(alloc: Global) -> Arg<'a>
    ensures local { result.global ≡ false }
    ensures rule { rule_of result ≡ materialize_rule }
{
    Arg::new(alloc, "materialize")
        .long("materialize")
        .action(ArgAction::SetTrue)
}

/// Returns the description of `--cold`.
fn cold<'a>(alloc: Global) -> Arg<'a>
    ensures local { result.global ≡ false }
    ensures rule { rule_of result ≡ cold_rule }
{
    Arg::new(alloc, "cold")
        .long("cold")
        .action(ArgAction::SetTrue)
}

/// Returns the description of `--read`.
fn read<'a>(alloc: Global) -> Arg<'a>
    ensures local { result.global ≡ false }
    ensures rule { rule_of result ≡ read_rule }
{
    Arg::new(alloc, "read")
        .long("read")
        .action(ArgAction::SetTrue)
}

/// Returns the description of NUMBER.
fn number<'a>(alloc: Global) -> Arg<'a>
    ensures local { result.global ≡ false }
    ensures rule { rule_of result ≡ number_rule }
{
    Arg::new(alloc, "number").value_parser(clap::value_parser!(u64).range(0..=2147483647))
}

/// Returns the description of STREAMS.
fn streams<'a>(alloc: Global) -> Arg<'a>
    ensures local { result.global ≡ false }
    ensures rule { rule_of result ≡ streams_rule }
{
    Arg::new(alloc, "streams").value_parser(clap::value_parser!(u64).range(1..=1000))
}

/// Returns the description of POINTS.
fn points<'a>(alloc: Global) -> Arg<'a>
    ensures local { result.global ≡ false }
    ensures rule { rule_of result ≡ points_rule }
{
    Arg::new(alloc, "points").value_parser(clap::value_parser!(u64).range(1..=1000000))
}

/// Returns the description of FROM.
fn from<'a>(alloc: Global) -> Arg<'a>
    ensures local { result.global ≡ false }
    ensures rule { rule_of result ≡ from_rule }
{
    Arg::new(alloc, "from").value_parser(clap::value_parser!(u64).range(1..))
}
