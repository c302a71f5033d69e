//! What is said on standard error of words that are refused.

/// The commands, with their options and numbers, as COMMANDS has them.
const COMMANDS: [&str; 14] = [
    "format --blocks N",
    "live [--materialize] [--batch B]",
    "live --group B [--materialize]",
    "ask [--cold]",
    "serve [--batch B]",
    "serve --read",
    "load [--workers K] [--batch B]",
    "distil [--workers K]",
    "checkpoint",
    "seal",
    "check",
    "sample NUMBER STREAMS POINTS",
    "ship FROM",
    "hear",
];

/// Says on standard error what is wrong with the words of a command line, of which the first is the program's name, and which
/// commands there are. If standard error cannot be written, nothing is said.
pub(crate) fn say_usage(rt: &HostRuntime, words: &[String]) {
    let _ = match words {
        [] | [_] => eprintln!(rt; "btr_run: the device is missing"),
        [_, _] => eprintln!(rt; "btr_run: the command is missing"),
        [_, _, command, ..] => say_refused(rt, command.as_str()),
    };
    let _ = eprintln!(rt; "usage: btr_run DEVICE COMMAND, and COMMAND is one of");
    for command in COMMANDS {
        let _ = eprintln!(rt; "    {command}");
    }
    let _ = eprintln!(rt;
        "DEVICE is a file or a block device. docs/COMMANDS.md says what each command does."
    );
}

/// Says what is wrong with words that begin with this command.
fn say_refused(rt: &HostRuntime, command: &str) -> std::io::Result<()> {
    if COMMANDS
        .iter()
        .any(|form| form.split(' ').next() == Some(command))
    {
        eprintln!(rt; "btr_run: the words after `{command}` do not fit it")
    } else {
        eprintln!(rt; "btr_run: there is no command `{command}`")
    }
}
