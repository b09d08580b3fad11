//! What the words ask for.

ghost use Rattle.std.specs.Prelude.{map};
ghost use Rattle.std.specs.String.{string_bytes};
ghost use Rattle.command_line.specs.Tasks.{IsAsked};

use crate::bad_line::{BadLine, explain};
use crate::options::settings;
use settings::Settings;
use std::alloc::Global;

/// What a command line asks for.
#[derive(Drop)]
pub enum Task {
    /// To play a script.
    Replay,
    /// To reflect a host.
    Serve(Settings),
    /// To ask something of a run.
    Control,
    /// To make pictures of a recording, or its index.
    Show,
    /// Nothing that can be done: the line is explained.
    Explain(BadLine),
}

/// What the words after the program's name ask for. The first picks the program: `serve` has options, `control` a path
/// and the words of a request, `show` paths and perhaps an option, `replay` no further words; every other line is
/// explained.
pub(crate) fn task_of(alloc: Global, words: &[String]) -> Task
    ensures { IsAsked (map string_bytes words.now) result }
{
    let Some((first, rest)) = words.split_first() else {
        return Task::Explain(explain(alloc, words));
    };
    match first.as_str() {
        "replay" if rest.is_empty() => Task::Replay,
        "control" if rest.len() > 1 => Task::Control,
        "show" if rest.len() > 1 => Task::Show,
        "serve" => match settings(alloc, rest) {
            Ok(settings) => Task::Serve(settings),
            Err(bad) => Task::Explain(bad),
        },
        _ => Task::Explain(explain(alloc, words)),
    }
}
