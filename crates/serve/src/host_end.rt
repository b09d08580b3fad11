//! The ends of a host's connection: over TCP, or to a recording.

ghost use Rattle.std.specs.Prelude.{◌≡◌};

use connections::JoiningLink;
use link::{Gave, Link, Took};
use playback::BadPlayback;
use player::{DeafLink, PlayedFile};
use run_traits::HostCount;
use std::alloc::Global;
use std::io;
use std::sync::{Arc, Wait};
use std::time::Clock;

/// One end of a host's connection.
#[derive(Drop)]
pub(crate) enum HostEnd<R: Wait + Clock + Drop> {
    /// Of a host over TCP.
    Tcp(JoiningLink<R>),
    /// Of a recording, to be read.
    Played(PlayedFile<R>),
    /// Of a recording, to be written: it hears nothing.
    Deaf(DeafLink),
}

impl<R: Wait + Clock + Drop> HostEnd<R> {
    ghost use Rattle.std.specs.Prelude.{◌≡◌, ◌⊎◌, OnOk, OnErr, true};
    ghost use Rattle.serve.specs.Hosts.{bad_of, end_state, is_closed, is_untimed};

    /// Lifts the deadline, if there is one. It fails where the system refuses that, and then the deadline stays.
    pub(crate) fn lift(&mut self) -> io::Result<()>
        ensures ok { OnOk result (is_untimed self.new ≡ true) }
        ensures err { OnErr result (self.new ≡ self.old) }
        ensures state { end_state self.new ≡ end_state self.old }
        ensures kept { is_untimed self.old ≡ true → is_untimed self.new ≡ true }
    {
        match self {
            HostEnd::Tcp(link) => link.lift(),
            HostEnd::Played(_) | HostEnd::Deaf(_) => Ok(()),
        }
    }

    /// From now on this count is told when bytes come.
    pub(crate) fn count_by(&mut self, count: Arc<HostCount, Global>)
        ensures { self.new ≡ self.old }
    {
        match self {
            HostEnd::Tcp(link) => link.count_by(count),
            HostEnd::Played(host) => host.count_by(count),
            HostEnd::Deaf(_) => {}
        }
    }

    /// Why the recording can't be played on that is read here, if it is one that can't.
    pub(crate) fn why(&self) -> Option<BadPlayback>
        ensures { result ≡ bad_of self.now }
    {
        match self {
            HostEnd::Played(host) => host.why(),
            HostEnd::Tcp(_) | HostEnd::Deaf(_) => None,
        }
    }

    /// Closes the connection, both ends of it, or the file of a recording.
    pub(crate) fn close(&mut self)
        ensures state { end_state self.new ≡ end_state self.old }
        ensures untimed { is_untimed self.new ≡ is_untimed self.old }
        ensures closed { (is_untimed self.new ≡ true) ⊎ (is_closed self.new ≡ true) }
    {
        match self {
            HostEnd::Tcp(link) => link.close(),
            HostEnd::Played(host) => host.close(),
            HostEnd::Deaf(_) => {}
        }
    }
}

impl<R: Wait + Clock + Drop> Link for HostEnd<R> {
    ghost use Rattle.serve.specs.Hosts.{end_state};

    ghost state = { end_state };

    fn take(&mut self, into: &mut [u8]) -> Took {
        match self {
            HostEnd::Tcp(link) => link.take(into),
            HostEnd::Played(host) => host.take(into),
            HostEnd::Deaf(link) => link.take(into),
        }
    }

    fn give(&mut self, bytes: &[u8]) -> Gave {
        match self {
            HostEnd::Tcp(link) => link.give(bytes),
            HostEnd::Played(host) => host.give(bytes),
            HostEnd::Deaf(link) => link.give(bytes),
        }
    }

    fn flush(&mut self) {
        match self {
            HostEnd::Tcp(link) => link.flush(),
            HostEnd::Played(host) => host.flush(),
            HostEnd::Deaf(link) => link.flush(),
        }
    }

    fn failures(&self) -> u64 {
        match self {
            HostEnd::Tcp(link) => link.failures(),
            HostEnd::Played(host) => host.failures(),
            HostEnd::Deaf(link) => link.failures(),
        }
    }
}
