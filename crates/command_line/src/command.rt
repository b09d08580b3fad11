//! The commands as clap has them.

use crate::arguments::{flag, option};
use crate::serve_command::serve_command;
use clap::{Arg, ArgAction, Command};
use std::alloc::{AllocError, Global};

/// The program's version.
pub(crate) const VERSION: &str = "0.1.0";

/// The whole program, whose words are those after its name.
pub(crate) fn program_command<'a>(alloc: Global) -> Result<Command<'a>, AllocError> {
    let replay = Command::new(alloc, "replay").about(
        "Plays a script from standard input, and prints what each viewer is sent",
    );
    Command::new(alloc, "reflectord")
        .bin_name("reflectord")?
        .no_binary_name(true)
        .version(VERSION)
        .propagate_version(true)
        .about("A VNC reflector: one host's screen, served to many viewers")
        .arg_required_else_help(true)
        .subcommand_required(true)
        .subcommand(serve_command(alloc)?)?
        .subcommand(control_command(alloc)?)?
        .subcommand(show_command(alloc)?)?
        .subcommand(replay)
}

/// `reflectord control`, for its help.
fn control_command<'a>(alloc: Global) -> Result<Command<'a>, AllocError> {
    let path = Arg::new(alloc, "path")
        .value_name("PATH")
        .required(true)
        .help("The path that the run was given by --control");
    let request = Arg::new(alloc, "request")
        .value_name("WORD")
        .action(ArgAction::Append)
        .num_args(1..)
        .required(true)
        .help(
            "state, state json, drain, undrain, end PLACE, next, pause, play, seek HH:MM:SS, call full|view IP:PORT or stop",
        );
    Command::new(alloc, "control")
        .about("Asks something of a run that goes on, and prints the answer")
        .arg(path)?
        .arg(request)
}

/// `reflectord show`, for its help.
fn show_command<'a>(alloc: Global) -> Result<Command<'a>, AllocError> {
    let path = Arg::new(alloc, "recording")
        .value_name("PATH")
        .required(true)
        .help("The recording");
    let out = Arg::new(alloc, "out")
        .value_name("OUT.png|DIR")
        .required_unless_present("index")?
        .help("The file of the picture, or with --each the folder for pictures");
    let at = option(
        alloc,
        "at",
        "HH:MM:SS",
        "The time of the picture; else the recording's end",
    );
    let each = option(
        alloc,
        "each",
        "SECONDS",
        "Make a picture each so many seconds",
    );
    let index = flag(
        alloc,
        "index",
        "Write the recording's index beside it, in place of pictures",
    );
    Command::new(alloc, "show")
        .about("Makes pictures of a recording, as PNG, or its index where it is missing")
        .arg(path)?
        .arg(out)?
        .arg(at)?
        .arg(each)?
        .arg(index)
}
