//! What a word of the command line has to be, where it can't be read.

use crate::advice::{Advice, bind_option, shown};
use roles::Role;
use settings::bind_of;
use std::fmt;
use std::fmt::Formatter;

/// What can stand for a host.
const HOST_FORMS: &str =
    "IP:PORT, no NAME:PORT, no listen:IP:PORT and no file:PATH, such as 192.0.2.7:5900, localhost:5907 or listen:0.0.0.0:5500";

impl Advice<'_> {
    /// The address to listen on for viewers of a role can't be read.
    pub(crate) fn bad_bind<W: fmt::Write>(&self, f: &mut Formatter<W>, role: Role) -> fmt::Result {
        write!(
            f,
            "{} {} is no IP address of this machine, such as 127.0.0.1",
            bind_option(self.settings, role),
            bind_of(self.settings, role)
        )
    }

    /// The address of the proxy that is believed can't be read.
    pub(crate) fn bad_proxy<W: fmt::Write>(&self, f: &mut Formatter<W>) -> fmt::Result {
        write!(
            f,
            "--proxy-from {} is no IP address, such as 127.0.0.1",
            shown(&self.settings.proxy_from)
        )
    }

    /// This one of the origins can't be read.
    pub(crate) fn bad_origin<W: fmt::Write>(
        &self,
        f: &mut Formatter<W>,
        number: usize,
    ) -> fmt::Result {
        match self.settings.web_origins.get(number) {
            Some(origin) => write!(
                f,
                "--web-origin {origin} is no origin, such as https://lecture.example"
            ),
            None => Ok(()),
        }
    }

    /// The address to listen on for machines can't be read.
    pub(crate) fn bad_metrics<W: fmt::Write>(&self, f: &mut Formatter<W>) -> fmt::Result {
        write!(
            f,
            "--metrics {} is no IP:PORT, such as 127.0.0.1:9100",
            shown(&self.settings.metrics)
        )
    }

    /// Where the first host is can't be read.
    pub(crate) fn bad_host<W: fmt::Write>(&self, f: &mut Formatter<W>) -> fmt::Result {
        write!(f, "--host {} is no {HOST_FORMS}", self.settings.host)
    }

    /// Where this one of the further hosts is can't be read.
    pub(crate) fn bad_next<W: fmt::Write>(
        &self,
        f: &mut Formatter<W>,
        number: usize,
    ) -> fmt::Result {
        match self.settings.next.get(number) {
            Some(host) => write!(f, "{host} is no {HOST_FORMS}"),
            None => Ok(()),
        }
    }
}
