//! The line of `serve`.

ghost use Rattle.std.specs.Prelude.{◌≡◌, ◌⊎◌, ℕ, List, IfErr, IfOk, Some, [], codes, is_some, map, option_map, true};
ghost use Rattle.settings.specs.Recordings.{PlaysFrom};
ghost use Rattle.std.specs.String.{string_bytes};
ghost use Rattle.clap.specs.Words.{fault_of, first_value, found_of};
ghost use Rattle.command_line.specs.Given.{AreSetBy, IsBadLine, IsNoRoom, IsNoSpeed, IsNoTime, IsPause, IsPort, IsRoom, IsSpeed, IsTime};
ghost use Rattle.command_line.specs.Serve.{serve};
ghost use Rattle.command_line.specs.Values.{AreValuesOf, HasPlaces, HasPort, HasSeconds, HasText, HasValues, IsMisread, IsNumberOf, MayHavePause, MayHavePort, flag_of, texts_in};

use crate::bad_line::BadLine;
use crate::serve_command::serve_command;
use clap::ArgMatches;
use play_control::{ClockTime, Speed};
use settings::{Room, Settings, recording_path};
use std::alloc::{AllocError, Global};
use std::convert::AsStr;

/// What the words after `serve` set: for each option the text or number that the words give it, or its default where
/// they give none.
pub fn settings<'a, S: AsStr>(alloc: Global, words: &'a [S]) -> Result<Settings, BadLine>
    ensures ok { IfOk result (λ s. AreSetBy (map S.text words.entry.now) s) }
    ensures faultless { IfOk result (λ s. fault_of serve (map S.text words.entry.now) ≡ []) }
    ensures err { IfErr result (λ bad. IsBadLine (map S.text words.entry.now) bad.status) }
{
    let Ok(command) = serve_command(alloc) else {
        return Err(BadLine::memory(alloc));
    };
    match command.try_get_matches_from(words) {
        Ok(matches) => match told(alloc, &matches) {
            Ok(settings) => Ok(settings),
            Err(bad) => Err(bad),
        },
        Err(error) => Err(BadLine::of(alloc, &error)),
    }
}

/// Whether settings say how recordings are played, though no host is one.
fn plays_nothing(settings: &Settings) -> bool
    ensures option { result ≡ true
        → (is_some settings.now.from ≡ true) ⊎ (is_some settings.now.speed ≡ true) }
    ensures host { result ≡ true → (path : List ℕ)
        → ¬ PlaysFrom (string_bytes settings.now.host) path }
{
    if settings.from.is_none() && settings.speed.is_none() {
        return false;
    }
    if recording_path(settings.host.as_str()).is_some() {
        return false;
    }
    let mut hosts = settings.next.iter();
    hosts.all(|host| recording_path(host.as_str()).is_none())
}

/// What the matches set. It fails where the text of `--room` is of no room, that of `--from` of no time or that of
/// `--speed` of no speed, where one of the latter is given though no host is a recording, or where memory is refused.
#[tactic(auto, using(crate::proofs::Rooms::has_no_room, crate::proofs::Rooms::has_no_time, crate::proofs::Rooms::has_no_speed))]
fn told(alloc: Global, matches: &ArgMatches<'_>) -> Result<Settings, BadLine>
    requires { HasValues (found_of matches.now) }
    ensures ok { IfOk result (λ s. AreValuesOf (found_of matches.now) s) }
    ensures err { IfErr result (λ bad.
        (bad.status ≡ 4) ⊎ ((bad.status ≡ 2) × IsMisread (found_of matches.now))) }
{
    let room = match room(matches) {
        Ok(room) => room,
        Err(text) => return Err(BadLine::of_no_room(alloc, text)),
    };
    let from = match time(matches) {
        Ok(from) => from,
        Err(text) => return Err(BadLine::of_no_time(alloc, text)),
    };
    let speed = match speed(matches) {
        Ok(speed) => speed,
        Err(text) => return Err(BadLine::of_no_speed(alloc, text)),
    };
    let Ok(settings) = values(alloc, matches, room, from, speed) else {
        return Err(BadLine::memory(alloc));
    };
    if plays_nothing(&settings) {
        return Err(BadLine::of_no_recording(alloc));
    }
    Ok(settings)
}

fn values(
    alloc: Global,
    matches: &ArgMatches<'_>,
    room: Option<Room>,
    from: Option<ClockTime>,
    speed: Option<Speed>,
) -> Result<Settings, AllocError>
    requires values { HasValues (found_of matches.now) }
    requires room { IsRoom (first_value (found_of matches.now) (codes "room")) room }
    requires from { IsTime (first_value (found_of matches.now) (codes "from")) from }
    requires speed { IsSpeed (first_value (found_of matches.now) (codes "speed")) speed }
    ensures { IfOk result (λ s. AreValuesOf (found_of matches.now) s) }
{
    Ok(Settings {
        host: text(alloc, matches, "host")?,
        host_password: optional_text(alloc, matches, "host-password-file")?,
        bind: text(alloc, matches, "bind")?,
        full_bind: optional_text(alloc, matches, "full-bind")?,
        full: port(matches, "full"),
        view: port(matches, "view"),
        view_only: flag(matches, "view-only"),
        full_password: optional_text(alloc, matches, "full-password-file")?,
        view_password: optional_text(alloc, matches, "view-password-file")?,
        full_places: places(matches, "full-places"),
        view_places: places(matches, "view-places"),
        room,
        plain_runs: flag(matches, "plain-runs"),
        no_zrle: flag(matches, "no-zrle"),
        web_full: optional_port(matches, "web-full"),
        web_view: optional_port(matches, "web-view"),
        web_root: optional_text(alloc, matches, "web-root")?,
        web_origins: texts(alloc, matches, "web-origin")?,
        metrics: optional_text(alloc, matches, "metrics")?,
        proxy_from: optional_text(alloc, matches, "proxy-from")?,
        log: flag(matches, "log"),
        again: pause(matches, "again"),
        from,
        speed,
        stalled: seconds(matches, "stalled"),
        control: optional_text(alloc, matches, "control")?,
        recording: optional_text(alloc, matches, "record")?,
        recording_key: seconds(matches, "record-key"),
        next: texts(alloc, matches, "next")?,
    })
}

fn text(alloc: Global, matches: &ArgMatches<'_>, name: &str) -> Result<String, AllocError>
    requires { HasText (found_of matches.now) name.now }
    ensures { IfOk result (λ text.
        first_value (found_of matches.now) name.now ≡ Some (string_bytes text)) }
{
    String::from_str(alloc, matches.get_str(name).unwrap())
}

/// The text of an option that may have none.
fn optional_text(
    alloc: Global,
    matches: &ArgMatches<'_>,
    name: &str,
) -> Result<Option<String>, AllocError>
    ensures { IfOk result (λ text.
        option_map string_bytes text ≡ first_value (found_of matches.now) name.now) }
{
    match matches.get_str(name) {
        Some(text) => Ok(Some(String::from_str(alloc, text)?)),
        None => Ok(None),
    }
}

fn port(matches: &ArgMatches<'_>, name: &str) -> u16
    requires { HasPort (found_of matches.now) name.now }
    ensures { IsNumberOf (found_of matches.now) name.now 1 65535 result }
{
    matches.get_one::<u16>(name).unwrap()
}

/// The port of an option that may have none.
fn optional_port(matches: &ArgMatches<'_>, name: &str) -> Option<u16>
    requires { MayHavePort (found_of matches.now) name.now }
    ensures { IsPort (first_value (found_of matches.now) name.now) result }
{
    matches.get_one::<u16>(name)
}

fn flag(matches: &ArgMatches<'_>, name: &str) -> bool
    ensures { result ≡ flag_of (found_of matches.now) name.now }
{
    matches.get_str(name).unwrap_or("false") == "true"
}

fn places(matches: &ArgMatches<'_>, name: &str) -> u64
    requires { HasPlaces (found_of matches.now) name.now }
    ensures { IsNumberOf (found_of matches.now) name.now 1 32 result }
{
    matches.get_one::<u64>(name).unwrap()
}

fn seconds(matches: &ArgMatches<'_>, name: &str) -> u64
    requires { HasSeconds (found_of matches.now) name.now }
    ensures { IsNumberOf (found_of matches.now) name.now 10 600 result }
{
    matches.get_one::<u64>(name).unwrap()
}

fn pause(matches: &ArgMatches<'_>, name: &str) -> Option<u64>
    requires { MayHavePause (found_of matches.now) name.now }
    ensures { IsPause (first_value (found_of matches.now) name.now) result }
{
    matches.get_one::<u64>(name)
}

/// The room of the option, if it is given, or its text where that is of none.
#[tactic(auto, using(crate::proofs::Rooms::is_room, crate::proofs::Rooms::is_not_told))]
fn room<'m>(matches: &'m ArgMatches<'_>) -> Result<Option<Room>, &'m str>
    ensures ok { IfOk result (λ room.
        IsRoom (first_value (found_of matches.now) (codes "room")) room) }
    ensures err { IfErr result (λ text.
        (first_value (found_of matches.now) (codes "room") ≡ Some text.now) × IsNoRoom text.now) }
{
    match matches.get_str("room") {
        Some(text) => match Room::read(text) {
            Some(room) => Ok(Some(room)),
            None => Err(text),
        },
        None => Ok(None),
    }
}

/// The time of the option, if it is given, or its text where that is of none.
#[tactic(auto, using(crate::proofs::Rooms::is_time, crate::proofs::Rooms::is_no_time_told))]
fn time<'m>(matches: &'m ArgMatches<'_>) -> Result<Option<ClockTime>, &'m str>
    ensures ok { IfOk result (λ time.
        IsTime (first_value (found_of matches.now) (codes "from")) time) }
    ensures err { IfErr result (λ text.
        (first_value (found_of matches.now) (codes "from") ≡ Some text.now) × IsNoTime text.now) }
{
    match matches.get_str("from") {
        Some(text) => match ClockTime::read(text) {
            Some(time) => Ok(Some(time)),
            None => Err(text),
        },
        None => Ok(None),
    }
}

/// The speed of the option, if it is given, or its text where that is of none.
#[tactic(auto, using(crate::proofs::Rooms::is_speed, crate::proofs::Rooms::is_no_speed_told))]
fn speed<'m>(matches: &'m ArgMatches<'_>) -> Result<Option<Speed>, &'m str>
    ensures ok { IfOk result (λ speed.
        IsSpeed (first_value (found_of matches.now) (codes "speed")) speed) }
    ensures err { IfErr result (λ text.
        (first_value (found_of matches.now) (codes "speed") ≡ Some text.now) × IsNoSpeed text.now) }
{
    match matches.get_str("speed") {
        Some(text) => match Speed::read(text) {
            Some(speed) => Ok(Some(speed)),
            None => Err(text),
        },
        None => Ok(None),
    }
}

/// All texts under a name, in their order.
fn texts(alloc: Global, matches: &ArgMatches<'_>, name: &str) -> Result<Vec<String>, AllocError>
    ensures { IfOk result (λ texts.
        map string_bytes texts.items ≡ texts_in (found_of matches.now) name.now) }
{
    let mut texts = Vec::new(alloc);
    let Some(words) = matches.get_raw(name) else {
        return Ok(texts);
    };
    for word in words {
        texts.push(String::from_str(alloc, word)?)?;
    }
    Ok(texts)
}
