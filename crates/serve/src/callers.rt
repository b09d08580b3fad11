//! Listening for hosts that call.

ghost use Rattle.serve.specs.Ports.{AsksForCaller, AsksForHosts};

use crate::bound::Ports;
use crate::host_text::call_address;
use crate::incident::{Incident, RunLog};
use crate::trouble::{Stage, Trouble};
use connections::HostListener;
use fault::Fault;
use settings::Settings;
use std::alloc::Global;
use std::net::{Net, TcpListener, TcpStream};

/// Listens for the host of this text and number, if it calls, and tells the log where.
fn open_caller<R: Net<Stream = TcpStream, Listener = TcpListener>, G: RunLog>(
    rt: &R,
    text: &str,
    number: usize,
    ports: &mut Ports,
    log: &G,
) -> Result<Option<HostListener>, Trouble>
    ensures asked { AsksForCaller text.now ports.old ports.new }
{
    let Some(address) = call_address(text) else {
        return Ok(None);
    };
    let socket = match ports.listen(rt, address) {
        Ok(socket) => socket,
        Err(error) => return Err(Trouble::of(Stage::ListenHost(number), error)),
    };
    match HostListener::new(socket) {
        Ok(listener) => {
            log.note_incident(&Incident::HostsListening(address));
            Ok(Some(listener))
        }
        Err(error) => Err(Trouble::of(Stage::ListenHost(number), error)),
    }
}

/// Listens for each of the further hosts that calls, and adds its listener, or none, to the others.
#[tactic(auto, using(crate::proofs::Asking::no_hosts))]
fn add_callers<R: Net<Stream = TcpStream, Listener = TcpListener>, G: RunLog>(
    rt: &R,
    settings: &Settings,
    ports: &mut Ports,
    callers: &mut Vec<Option<HostListener>>,
    log: &G,
) -> Result<(), Trouble>
    ensures asked { AsksForHosts settings.now ports.old ports.new }
{
    let mut number: usize = 0;
    for host in &settings.next {
        number = number.saturating_add(1);
        let caller = open_caller(rt, host.as_str(), number, ports, log)?;
        if callers.push(caller).is_err() {
            return Err(Trouble::new(Stage::Start, Fault::Memory));
        }
    }
    Ok(())
}

/// Listens for each host that calls, and for nobody else. A listener, or none, stands at each host's number.
#[tactic(auto, using(crate::proofs::Asking::no_hosts, crate::proofs::Asking::first_host, crate::proofs::Asking::more_hosts))]
pub(crate) fn open_callers<R: Net<Stream = TcpStream, Listener = TcpListener>, G: RunLog>(
    rt: &R,
    alloc: Global,
    settings: &Settings,
    ports: &mut Ports,
    log: &G,
) -> Result<Vec<Option<HostListener>>, Trouble>
    ensures asked { AsksForHosts settings.now ports.old ports.new }
{
    let mut callers = Vec::new(alloc);
    let caller = open_caller(rt, settings.host.as_str(), 0, ports, log)?;
    if callers.push(caller).is_err() {
        return Err(Trouble::new(Stage::Start, Fault::Memory));
    }
    add_callers(rt, settings, ports, &mut callers, log)?;
    Ok(callers)
}
