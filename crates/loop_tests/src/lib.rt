//! Tests of `host_reader`, `host_writer` and `viewer_server`, over links in memory, and of `shared_screen`.
#![tactic(auto)]

#[cfg(test)]
mod host;
#[cfg(test)]
mod noted;
#[cfg(test)]
mod puts;
#[cfg(test)]
mod screen;
#[cfg(test)]
mod spares;
#[cfg(test)]
mod viewer;
#[cfg(test)]
mod watch;
#[cfg(test)]
mod wishes;
#[cfg(test)]
mod writer;
