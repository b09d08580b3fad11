//! Calling viewers that listen, for an operator.

use crate::halls::Halls;
use connections::NotCalled;
use roles::Role;
use std::alloc::{AllocError, Global};
use std::net::{Net, SocketAddr, TcpStream};
use std::sync::Wait;

/// Connects to the viewer that listens at this address, and answers what became of that. From then on the viewer is a
/// newcomer to the port of this role. Nobody but the operator waits for it.
pub(crate) fn call<R: Net<Stream = TcpStream> + Wait>(
    rt: &R,
    alloc: Global,
    halls: &Halls,
    role: Role,
    address: SocketAddr,
) -> Result<String, AllocError> {
    let Some(caller) = halls.caller(role) else {
        return String::from_str(alloc, "error: there is no place of that role\n");
    };
    match caller.call(rt, address) {
        Ok(()) => format!(in alloc; "connected to {address}\n"),
        Err(NotCalled::Crowded) => {
            String::from_str(alloc, "error: too many newcomers: call again later\n")
        }
        Err(NotCalled::Failed(error)) => {
            let why = error.kind();
            format!(in alloc; "error: {address} isn't connected to: {why}\n")
        }
    }
}
