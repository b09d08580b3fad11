//! What to try where an address or a socket can't be listened at.

use crate::advice::{Advice, bind_option, shown, text_of};
use crate::trouble::Trouble;
use roles::Role;
use settings::{Settings, bind_of, port_of};
use std::fmt;
use std::fmt::{Display, Formatter};
use std::io::ErrorKind;

/// The option for the port of a role's viewers, and who they are.
fn viewers_of(role: Role) -> (&'static str, &'static str) {
    match role {
        Role::Full => ("--full", "viewers with full control"),
        Role::View => ("--view", "viewers that only look on"),
    }
}

/// The option for the port of a role's browsers, and who they are.
fn browsers_of(role: Role) -> (&'static str, &'static str) {
    match role {
        Role::Full => ("--web-full", "browsers with full control"),
        Role::View => ("--web-view", "browsers that only look on"),
    }
}

/// What to try where a port can't be listened on.
#[derive(Drop)]
struct Way<'a> {
    settings: &'a Settings,
    role: Role,
    option: &'static str,
    trouble: &'a Trouble,
}

impl Way<'_> {
    /// What kind of refusal it was, if the system said.
    fn kind(&self) -> Option<ErrorKind> {
        self.trouble.error.as_ref().map(|error| error.kind())
    }
}

impl Display for Way<'_> {
    fn fmt<W: fmt::Write>(&self, f: &mut Formatter<W>) -> fmt::Result {
        let option = self.option;
        match self.kind() {
            Some(ErrorKind::PermissionDenied) => {
                write!(
                    f,
                    "ports below 1024 are for root; choose another by {option}"
                )
            }
            Some(ErrorKind::AddrNotAvailable) => write!(
                f,
                "no such address is this machine's; choose another by {}",
                bind_option(self.settings, self.role)
            ),
            Some(ErrorKind::AddrInUse) if self.settings.full == self.settings.view => {
                f.write_str("--full and --view are the same port; choose another for one of them")
            }
            _ => write!(
                f,
                "end the program that has the port, or choose another by {option}"
            ),
        }
    }
}

impl Advice<'_> {
    /// The port for viewers of a role can't be listened on.
    pub(crate) fn no_viewer_port<W: fmt::Write>(
        &self,
        f: &mut Formatter<W>,
        role: Role,
    ) -> fmt::Result {
        let (option, viewers) = viewers_of(role);
        let way = Way {
            settings: self.settings,
            role,
            option,
            trouble: self.trouble,
        };
        write!(
            f,
            "can't listen on {} port {} for {viewers}{}; {way}",
            bind_of(self.settings, role),
            port_of(self.settings, role),
            self.said()
        )
    }

    /// The port for browsers of a role can't be listened on.
    pub(crate) fn no_browser_port<W: fmt::Write>(
        &self,
        f: &mut Formatter<W>,
        role: Role,
    ) -> fmt::Result {
        let (option, browsers) = browsers_of(role);
        self.taken_port(f, bind_of(self.settings, role), browsers, option)
    }

    /// The address for machines can't be listened on.
    pub(crate) fn no_machine_port<W: fmt::Write>(&self, f: &mut Formatter<W>) -> fmt::Result {
        self.taken_port(f, shown(&self.settings.metrics), "machines", "--metrics")
    }

    /// An address that an option chooses can't be listened on: another program may have its port.
    fn taken_port<W: fmt::Write>(
        &self,
        f: &mut Formatter<W>,
        address: &str,
        whom: &str,
        option: &str,
    ) -> fmt::Result {
        write!(
            f,
            "can't listen on {address} for {whom}{}; end the program that has the port, or choose another by {option}",
            self.said()
        )
    }

    /// The socket for an operator can't be listened at.
    pub(crate) fn no_operator_socket<W: fmt::Write>(&self, f: &mut Formatter<W>) -> fmt::Result {
        write!(
            f,
            "can't listen at {}{}; is it a file of another kind, or another reflector's?",
            shown(&self.settings.control),
            self.said()
        )
    }

    /// The address for the host of this number, which calls, can't be listened at.
    pub(crate) fn no_call_port<W: fmt::Write>(
        &self,
        f: &mut Formatter<W>,
        number: usize,
    ) -> fmt::Result {
        write!(
            f,
            "can't listen at {}{}; is it this machine's, and does no other program or host have the port?",
            text_of(self.settings, number),
            self.said()
        )
    }
}
