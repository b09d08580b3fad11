//! Hosts, one after another.

use crate::loopback::is_patient;
use crate::room::Ear;
use crate::steps::{Step, plays};
use crate::system::SocketFiles;
use std::net::{Net, TcpListener, TcpStream};
use std::sync::Wait;
use std::time::Clock;

/// A host that is connected to.
pub(crate) struct Host {
    /// At which of the three places it listens, counted from 0.
    pub(crate) at: usize,
    /// What it does then. It closes after the last step.
    pub(crate) steps: &'static [Step],
}

/// Whether each host is right, one after another.
pub(crate) fn are_hosts_right<R>(ear: &Ear<R>, hosts: &[Host], listeners: &[TcpListener]) -> bool
where
    R: Net<Stream = TcpStream, Listener = TcpListener> + SocketFiles + Wait + Clock + Drop,
{
    let mut are_right = true;
    for host in hosts {
        let is_right = match listeners.get(host.at) {
            Some(listener) => is_host_right(ear, listener, host.steps),
            None => false,
        };
        are_right = is_right && are_right;
    }
    are_right
}

/// Whether a host at this listener is connected to, and meets what it should.
fn is_host_right<R>(ear: &Ear<R>, listener: &TcpListener, steps: &[Step]) -> bool
where
    R: Net<Stream = TcpStream, Listener = TcpListener> + SocketFiles + Wait + Clock + Drop,
{
    match listener.accept() {
        Ok((mut stream, _)) => is_patient(&stream) && plays(ear, 0, &mut stream, steps),
        Err(_) => false,
    }
}
