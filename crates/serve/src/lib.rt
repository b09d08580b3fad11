//! `reflectord serve`: one VNC host after another, and up to 64 viewers over TCP.
//!
//! It listens, joins the first host, starts the threads of a run, and says what became of it: by the exit status, and
//! where it failed also by `fault N` on standard error, with a line of plain words after it. A log says which hosts and
//! viewers come and go, if it is asked for. No clause says what a socket, a thread or a terminal does. Memory: for
//! places, doors and lines of the log; the rest is `reflector`'s. Handles: Threads, Wait, Net.
#![tactic(auto)]

mod advice;
mod answer;
mod bound;
mod call;
mod callers;
mod control;
mod counters;
mod ended;
mod entries;
mod exposure;
mod file_advice;
mod form;
mod halls;
mod held_host;
mod host_advice;
mod host_end;
mod host_text;
mod incident;
mod journal;
mod lifeline;
mod listen_advice;
mod means;
mod meet;
mod metrics;
mod noted_tries;
mod open;
mod order;
mod origins;
mod password;
mod place_door;
mod quoted;
mod rested;
mod rooms;
mod run;
mod runtime;
mod sentry;
mod start;
mod state;
mod status;
mod supply;
mod surroundings;
mod tape;
mod trouble;
mod turns;
mod web;
mod word_advice;
mod writer_reach;

pub use answer::serve;
pub use bound::Ports;
pub use ended::Served;
pub use order::StopOrder;
pub use rested::Rested;
pub use runtime::Runtime;
