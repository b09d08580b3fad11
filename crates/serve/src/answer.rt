//! What `serve` says and answers.

ghost use Rattle.std.specs.Prelude.{◌≡◌, IfOk, IfSome, Result, is_some};
ghost use Rattle.settings.specs.ByRole.{HasPlaces};
ghost use Rattle.serve.specs.Statuses.{IsStatus, status_for};
ghost use Rattle.serve.specs.Turns.{MayEnd};
ghost use Rattle.serve.specs.Doors.{AreBoth};
ghost use Rattle.serve.specs.Ports.{AsksForAll};
ghost use Rattle.serve.specs.Runs.{IsEndBy, IsRunFor, IsServed, IsToldBy};
ghost use Rattle.serve.specs.declared.ended.Ended.{Ended as End};
ghost use Rattle.serve.specs.declared.trouble.Trouble.{Trouble as Failure};

use crate::advice::Advice;
use crate::bound::Ports;
use crate::ended::{Ended, PlayedEnd, Served};
use crate::journal::Journal;
use crate::means::Means;
use crate::metrics::{open_ports, run_watched};
use crate::runtime::Runtime;
use crate::sentry::Sentry;
use crate::status::status_of;
use crate::surroundings::Surroundings;
use crate::trouble::{Stage, Trouble};
use fault::Fault;
use run_reports::Gravity;
use settings::Settings;
use std::alloc::{AllocGlobal, Global};
use std::env::Env;
use std::fs::File;
use std::rt::Files;
use std::sync::Wait;
use std::time::Clock;

/// Says what went wrong: its number, and then what it means. Where standard error takes no text the exit status alone
/// says it.
fn say<R: Eprint + Clock + Wait + Drop>(
    journal: &Journal<R>,
    settings: &Settings,
    trouble: &Trouble,
) {
    let advice = Advice { settings, trouble };
    let number = trouble.fault.number();
    journal.say(Gravity::Fault, format_args!("fault {number}"));
    journal.say(Gravity::Fault, format_args!("reflectord: {advice}"));
}

/// The exit status for how a run ended. What went wrong in it is said, if something did: of a recording why it can't be
/// played on.
fn status_after<R: Eprint + Clock + Wait + Drop>(
    journal: &Journal<R>,
    settings: &Settings,
    why: Result<(), Fault>,
    played: Option<PlayedEnd>,
) -> u8
    ensures { result ≡ status_for why }
{
    match why {
        Ok(()) => status_of(&Ok(())),
        Err(fault) => {
            let stage = match played {
                Some(PlayedEnd::Bad(number, bad)) => Stage::Play(number, bad),
                _ => Stage::Run,
            };
            let trouble = Trouble::new(stage, fault);
            say(journal, settings, &trouble);
            status_of(&Err(trouble.fault))
        }
    }
}

/// Runs, says what went wrong, if something did, and hands out the exit status for how it ended.
fn answer<R, F>(journal: &Journal<R>, settings: &Settings, runs: F) -> Served
where
    R: Eprint + Clock + Wait + Drop,
    F: FnOnce() -> Result<Ended, Trouble>,
    requires { F.pre runs }
    ensures { (ended : Result End Failure) × F.post runs ended × IsServed ended result }
{
    match runs() {
        Ok(ended) => {
            let Ended {
                last,
                ran,
                stopped,
                played,
            } = ended;
            Served {
                status: status_after(journal, settings, last.answer, played),
                ran,
                stopped,
            }
        }
        Err(trouble) => {
            say(journal, settings, &trouble);
            Served::without_a_run(trouble.fault)
        }
    }
}

/// Reflects a host until it ends, and hands out the exit status: 0 where the host ended between two messages, or is a
/// recording that ended inside one, or where an operator has stopped the run, 4 where memory was refused, and 3 for
/// every other fault, also where a port can't be bound or the host can't be reached, joined or played on. What was at
/// fault is said on standard error: `fault N`, and a line of plain words. Where the first host is to be tried again
/// (`again`), it is never 0, unless an operator may stop the run (`control`).
///
/// With the status it hands out what shows that `reflector::run_all` has run, and with what: with places of the roles
/// that the settings ask for, in the form that they ask for, and a first host whose handshake was read of the link that
/// was read then; its updates are those of the hosts' bytes, and the hosts were told in turn (`run`). Where the status
/// is 0 there is such a run, unless an operator has stopped it, which is shown, too. Else the status is that of the
/// run's answer, or, where there was none, 3 or 4 (`told`).
///
/// The ports that it asks the system for are added to `ports`: that of viewers with full control, that of those who
/// only look on, then those of browsers, and that of machines.
#[tactic(auto, using(crate::proofs::Asking::nobody))]
pub fn serve<R>(rt: R, alloc: Global, settings: &Settings, ports: &mut Ports) -> Served
where
    R: Runtime + Files<File = File> + AllocGlobal + Env + Eprint,
    requires { HasPlaces settings.now }
    ensures ports { AsksForAll settings.now ports.old ports.new }
    ensures status { IsStatus result.status }
    ensures ended { result.status ≡ 0 → MayEnd settings.now }
    ensures run { IfSome result.ran (λ ran. IsRunFor settings.now ran.course) }
    ensures told { IsToldBy settings.now result.status result.ran result.stopped }
{
    let surroundings = Surroundings::of(&rt, alloc);
    let Ok(log) = Sentry::new(rt, alloc, settings, &surroundings) else {
        return Served::without_a_run(Fault::Memory);
    };
    let Ok(journal) = log.journal().clone() else {
        return Served::without_a_run(Fault::Memory);
    };
    let means = Means {
        rt: &rt,
        alloc,
        log: &log,
    };
    let opened = open_ports(&means, settings, ports);
    // The closure takes these over, and makes its own `Means` of them: of one that it took, no clause would be left.
    answer(
        &journal,
        settings,
        move || -> Result<Ended, Trouble>
            requires { HasPlaces settings.now
                × IfOk opened (λ opened.
                (is_some opened.run.password ≡ is_some settings.now.host_password)
                × AreBoth settings.now opened.run.entrances.full opened.run.entrances.view
                × (is_some opened.run.tape ≡ is_some settings.now.recording)) }
            ensures { IfOk result (λ ended. IsEndBy settings.entry.now ended) }
        {
            let means = Means {
                rt: &rt,
                alloc,
                log: &log,
            };
            run_watched(&means, settings, opened?)
        },
    )
}
