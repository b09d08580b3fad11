//! What a fault of a host means, and what to try where none is reached.

use crate::advice::{Advice, text_of};
use crate::quoted::Quoted;
use fault::Fault;
use std::fmt;
use std::fmt::{Display, Formatter};

/// The reason that a host gave when it refused, between quotation marks.
#[derive(Drop)]
struct Given<'a> {
    fault: &'a Fault,
}

impl Display for Given<'_> {
    fn fmt<W: fmt::Write>(&self, f: &mut Formatter<W>) -> fmt::Result {
        match self.fault {
            Fault::HostRefused(reason) => {
                let reason = Quoted {
                    bytes: reason.as_slice(),
                };
                write!(f, ": \"{reason}\"")
            }
            _ => Ok(()),
        }
    }
}

/// What a fault of the handshake with a host means, where a password is known and where none is.
fn join_advice(fault: &Fault, has_password: bool) -> &'static str {
    match fault {
        Fault::BadVersion => "it doesn't begin as a VNC server of RFB 3.8 does; is the port right?",
        Fault::HostRefused(_) => "it gave this reason",
        Fault::NoNone if has_password =>
            "neither None nor VNC Authentication is in its list of security types; let it offer one of them",
        Fault::NoNone => {
            "it wants a password or another proof; name a file with its password by --host-password-file, or let it offer security type None, on loopback or behind an SSH tunnel"
        }
        Fault::SecurityFailed if has_password => {
            "it ended the handshake as failed; the password may be wrong, and after some wrong ones a VNC server may take none for a while: see its own log"
        }
        Fault::SecurityFailed => "it ended the handshake as failed; see the VNC server's own log",
        Fault::BadScreen =>
            "its screen is empty, or larger than --room or than 4096x4096; give it another one, or a larger --room",
        Fault::LinkFailed => {
            "the connection broke, or its handshake took more than 10 seconds; is a VNC server at that port?"
        }
        Fault::LinkEnded =>
            "it closed the connection inside the handshake; see the VNC server's own log",
        _ => "its handshake failed",
    }
}

/// What a fault of a run means. A fault of a handshake is that of a host that followed on another.
fn run_advice(fault: &Fault, has_password: bool) -> &'static str {
    match fault {
        Fault::LinkFailed =>
            "the connection to it broke; see whether it and the network are there, and start again",
        Fault::LinkEnded =>
            "it closed the connection inside a message; see the VNC server's own log",
        Fault::BadScreen =>
            "its screen is larger than the room that viewers are told; --room WxH makes room, up to 4096x4096",
        Fault::BadVersion | Fault::HostRefused(_) | Fault::NoNone | Fault::SecurityFailed => {
            join_advice(fault, has_password)
        }
        Fault::NumbersOut => "the numbers of updates have run out; start again",
        Fault::NoPlace => "no place for a reader of the screen was left; start again",
        _ =>
            "it sent bytes that RFB 3.8 doesn't have there, or that weren't asked of it; see whether the VNC server has updates",
    }
}

impl Advice<'_> {
    /// The host's name has no address.
    pub(crate) fn no_address<W: fmt::Write>(&self, f: &mut Formatter<W>) -> fmt::Result {
        write!(
            f,
            "there is no address for the host {}{}; is its name right?",
            self.settings.host,
            self.said()
        )
    }

    /// The host can't be connected to.
    pub(crate) fn no_connection<W: fmt::Write>(&self, f: &mut Formatter<W>) -> fmt::Result {
        write!(
            f,
            "can't connect to the host {}{}; is a VNC server running there, at that port?",
            self.settings.host,
            self.said()
        )
    }

    /// The handshake with the host of this number failed.
    pub(crate) fn bad_join<W: fmt::Write>(
        &self,
        f: &mut Formatter<W>,
        number: usize,
    ) -> fmt::Result {
        let fault = &self.trouble.fault;
        let given = Given { fault };
        write!(
            f,
            "the host {}: {fault}: {}{given}",
            text_of(self.settings, number),
            join_advice(fault, self.settings.host_password.is_some())
        )
    }

    /// The run ended by a fault of its host, or of its last one.
    pub(crate) fn bad_run<W: fmt::Write>(&self, f: &mut Formatter<W>) -> fmt::Result {
        let fault = &self.trouble.fault;
        let given = Given { fault };
        let advice = run_advice(fault, self.settings.host_password.is_some());
        if self.settings.next.is_empty() {
            write!(
                f,
                "the host {}: {fault}: {advice}{given}",
                self.settings.host
            )
        } else {
            write!(f, "the last host: {fault}: {advice}{given}")
        }
    }
}
