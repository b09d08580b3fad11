//! Does what the words ask for.

ghost use Rattle.std.specs.Prelude.{◌≡◌, map};
ghost use Rattle.std.specs.String.{string_bytes};
ghost use Rattle.command_line.specs.Tasks.{IsAnswered, IsAsked, IsDone, MayEndAScript, MayEndAShowing, MayEndAnAsking};
ghost use Rattle.command_line.specs.declared.task.Task.{Task as Asked};
ghost use Rattle.serve.specs.Statuses.{IsStatus};
ghost use Rattle.settings.specs.ByRole.{HasPlaces};
ghost use Rattle.settings.specs.declared.values.Settings.{Settings as Told};

use crate::asking::ask;
use crate::bad_line::BadLine;
use crate::showing::show_words;
use crate::task::{Task, task_of};
use serve::{Ports, Runtime, Served, serve};
use settings::Settings;
use std::alloc::{AllocGlobal, Global};
use std::env::Env;
use std::fs::File;
use std::io::{ErrorKind, Read, Write};
use std::process::ExitCode;
use std::rt::Files;
use std::{env, io};

/// The exit status of a command line that can't be read.
const BAD_COMMAND: u8 = 2;

/// The exit status where memory is refused.
const NO_MEMORY: u8 = 4;

/// The words after the program's name.
fn words<R: Env + AllocGlobal>(rt: &R, alloc: Global) -> io::Result<Vec<String>> {
    let mut words = Vec::new(alloc);
    for word in env::args(rt)?.skip(1) {
        words.push(word)?;
    }
    Ok(words)
}

/// Has these functions do what these words say, those after the program's name, and answers the exit status: for
/// `replay` that of playing a script, for `control` that of asking, for `show` that of showing, for `serve` that of
/// serving by the settings that the words set, and for any other line that line's own, 2 or 4.
#[tactic(auto, using(crate::proofs::Places::has_places))]
pub fn perform<S, P, A, H, T>(
    alloc: Global,
    words: &[String],
    serves: S,
    plays: P,
    asks: A,
    shows: H,
    tells: T,
) -> u8
where
    S: FnOnce(Settings) -> u8 + Drop,
    P: FnOnce() -> u8 + Drop,
    A: FnOnce() -> u8 + Drop,
    H: FnOnce() -> u8 + Drop,
    T: FnOnce(&str) + Drop,
    requires serves { (settings : Told) → HasPlaces settings → S.pre serves settings }
    requires plays { P.pre plays }
    requires asks { A.pre asks }
    requires shows { H.pre shows }
    requires tells { T.IsAlwaysCallable tells }
    ensures { (task : Asked) × IsAsked (map string_bytes words.now) task
        × IsDone (λ settings status. S.post serves settings status) (λ status. P.post plays status)
        (λ status. A.post asks status) (λ status. H.post shows status) task result }
{
    match task_of(alloc, words) {
        Task::Replay => plays(),
        Task::Control => asks(),
        Task::Show => shows(),
        Task::Serve(settings) => serves(settings),
        Task::Explain(BadLine { status, text }) => {
            tells(text.as_str());
            status
        }
    }
}

/// Does what these words say, which are those after the program's name, and answers the exit status: that of
/// `replay::replay` or of `serve`; of `control` 0 with the answer on standard output, or 1 with the reason on standard
/// error; of `show` 0, or 3 with the reason on standard error; 2 where the line is no command, with what is wrong with
/// it on standard error; 4 where memory is refused.
pub fn run_words<R, I, O>(rt: R, alloc: Global, words: &[String], reader: I, writer: O) -> u8
where
    R: Runtime + Files<File = File> + AllocGlobal + Env + Print + Eprint,
    I: Read + Drop,
    O: Write + Drop,
    ensures { IsAnswered (map string_bytes words.now) result }
{
    perform(
        alloc,
        words,
        move |settings: Settings| -> u8
            requires { HasPlaces settings }
            ensures { IsStatus result }
        {
            let Served {
                status,
                ran: _,
                stopped: _,
            } = serve(rt, alloc, &settings, &mut Ports::new(alloc));
            status
        },
        move || -> u8
            ensures { MayEndAScript result }
        { replay::replay(alloc, reader, writer) },
        move || -> u8
            ensures { MayEndAnAsking result }
        { ask(&rt, alloc, words) },
        move || -> u8
            ensures { MayEndAShowing result }
        { show_words(&rt, alloc, words) },
        move |text: &str| {
            // Where standard error takes no text, the status alone tells it.
            let _ = rt.eprint(text);
        },
    )
}

/// Does what the words after the program's name say, as `run_words` does. The status is 2 where they can't be read, and
/// 4 where memory is refused for them.
pub fn run<R, I, O>(rt: R, reader: I, writer: O) -> ExitCode
where
    R: Runtime + Env + Files<File = File> + AllocGlobal + Print + Eprint,
    I: Read + Drop,
    O: Write + Drop,
{
    let alloc = rt.alloc();
    match words(&rt, alloc) {
        Ok(words) => ExitCode::from(run_words(rt, alloc, words.as_slice(), reader, writer)),
        Err(error) if error.kind() == ErrorKind::OutOfMemory => ExitCode::from(NO_MEMORY),
        Err(_) => ExitCode::from(BAD_COMMAND),
    }
}
