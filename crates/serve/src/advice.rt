//! What a trouble means to whoever runs the program, and what to try. The texts stand in modules by what they are
//! about: `word_advice` words of the command line, `file_advice` files, `listen_advice` addresses to listen on, and
//! `host_advice` hosts.

use crate::trouble::{Stage, Trouble};
use fault::Fault;
use roles::Role;
use settings::Settings;
use std::fmt;
use std::fmt::{Display, Formatter};

/// A trouble in plain words, with the address and the option that it is about.
#[derive(Drop)]
pub(crate) struct Advice<'a> {
    pub(crate) settings: &'a Settings,
    pub(crate) trouble: &'a Trouble,
}

/// What the system said of it, if it said something.
#[derive(Drop)]
pub(crate) struct Said<'a> {
    trouble: &'a Trouble,
}

impl Display for Said<'_> {
    fn fmt<W: fmt::Write>(&self, f: &mut Formatter<W>) -> fmt::Result {
        match &self.trouble.error {
            Some(error) => write!(f, ": {error}"),
            None => Ok(()),
        }
    }
}

/// The option that has the address to listen on for the viewers of a role.
pub(crate) fn bind_option(settings: &Settings, role: Role) -> &'static str {
    match (role, &settings.full_bind) {
        (Role::Full, Some(_)) => "--full-bind",
        _ => "--bind",
    }
}

/// The text of an option, which is empty where it has none.
pub(crate) fn shown(text: &Option<String>) -> &str {
    match text {
        Some(text) => text.as_str(),
        None => "",
    }
}

/// The text that says where the host of this number is.
pub(crate) fn text_of(settings: &Settings, number: usize) -> &str {
    match number.checked_sub(1) {
        None => settings.host.as_str(),
        Some(place) => match settings.next.get(place) {
            Some(text) => text.as_str(),
            None => "",
        },
    }
}

impl Advice<'_> {
    /// What the system said of the trouble.
    pub(crate) fn said(&self) -> Said<'_> {
        Said {
            trouble: self.trouble,
        }
    }

    /// What the run itself needs can't be had.
    fn no_start<W: fmt::Write>(&self, f: &mut Formatter<W>) -> fmt::Result {
        write!(
            f,
            "can't start{}; the system may be short of threads or descriptors",
            self.said()
        )
    }
}

impl Display for Advice<'_> {
    fn fmt<W: fmt::Write>(&self, f: &mut Formatter<W>) -> fmt::Result {
        if let Fault::Memory = self.trouble.fault {
            return f.write_str(
                "memory was refused; each viewer wants some 4 bytes a pixel of the host's screen",
            );
        }
        match self.trouble.stage {
            Stage::ReadBind(role) => self.bad_bind(f, role),
            Stage::ReadProxy => self.bad_proxy(f),
            Stage::ReadOrigin(number) => self.bad_origin(f, number),
            Stage::ReadMetrics => self.bad_metrics(f),
            Stage::ReadHost => self.bad_host(f),
            Stage::ReadNext(number) => self.bad_next(f, number),
            Stage::ReadPassword => self.bad_password(f),
            Stage::ReadKey(role) => self.bad_key(f, role),
            Stage::ReadRoot(why) => self.bad_root(f, why),
            Stage::Record => self.no_recording(f),
            Stage::OpenRecording => self.unopened_recording(f),
            Stage::Play(number, bad) => self.bad_recording(f, number, bad),
            Stage::Listen(role) => self.no_viewer_port(f, role),
            Stage::ListenWeb(role) => self.no_browser_port(f, role),
            Stage::ListenMetrics => self.no_machine_port(f),
            Stage::Control => self.no_operator_socket(f),
            Stage::ListenHost(number) => self.no_call_port(f, number),
            Stage::LookUp => self.no_address(f),
            Stage::Connect => self.no_connection(f),
            Stage::Join(number) => self.bad_join(f, number),
            Stage::Start => self.no_start(f),
            Stage::Run => self.bad_run(f),
        }
    }
}
