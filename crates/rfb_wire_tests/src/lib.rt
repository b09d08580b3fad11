//! Tests of `rfb_wire`, `vnc_auth` and `link`, which are in their own crate so that each of those is proved once.
#![tactic(auto)]

#[cfg(test)]
mod asking;
#[cfg(test)]
mod client_reader;
#[cfg(test)]
mod head;
#[cfg(test)]
mod hello;
#[cfg(test)]
mod joining;
#[cfg(test)]
mod passwords;
