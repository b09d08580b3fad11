//! Tests of `connections` and `run_traits`, over loopback alone or a socket in memory, bounded in count and by the ten
//! seconds that a viewer's handshake has; and of memory that is refused to one viewer while the threads of a run of
//! `reflector` go on, over links in memory and over TCP.
#![tactic(auto)]

#[cfg(test)]
mod alarms;
#[cfg(test)]
mod board;
#[cfg(test)]
mod bytes;
#[cfg(test)]
mod doors;
#[cfg(test)]
mod evenings;
#[cfg(test)]
mod hoard;
#[cfg(test)]
mod hosts;
#[cfg(test)]
mod house;
#[cfg(test)]
mod keeper;
#[cfg(test)]
mod links;
#[cfg(test)]
mod locks;
#[cfg(test)]
mod memory_links;
#[cfg(test)]
mod memory_socket;
#[cfg(test)]
mod newcomers;
#[cfg(test)]
mod orders;
#[cfg(test)]
mod port;
#[cfg(test)]
mod refused;
#[cfg(test)]
mod rings;
#[cfg(test)]
mod run;
#[cfg(test)]
mod sockets;
#[cfg(test)]
mod three_viewers;
#[cfg(test)]
mod viewers;
#[cfg(test)]
mod wire;
