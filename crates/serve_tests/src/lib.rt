//! Tests of `serve` over loopback alone, in which each wait ends: scenes, with a host and a viewer in threads and
//! `serve` between them; plays, in which one thread is several viewers, browsers, machines, an operator and systemd;
//! the pause that it makes; and the lines that `command_line` reads.
#![tactic(auto)]

#[cfg(test)]
mod actors;
#[cfg(test)]
mod again;
#[cfg(test)]
mod asks;
#[cfg(test)]
mod binds;
#[cfg(test)]
mod callers;
#[cfg(test)]
mod calls;
#[cfg(test)]
mod company;
#[cfg(test)]
mod control;
#[cfg(test)]
mod deeds;
#[cfg(test)]
mod ending;
#[cfg(test)]
mod forms;
#[cfg(test)]
mod hosts;
#[cfg(test)]
mod journal;
#[cfg(test)]
mod lines;
#[cfg(test)]
mod locks;
#[cfg(test)]
mod loopback;
#[cfg(test)]
mod meeting;
#[cfg(test)]
mod names;
#[cfg(test)]
mod next;
#[cfg(test)]
mod notices;
#[cfg(test)]
mod operator;
#[cfg(test)]
mod options;
#[cfg(test)]
mod origins;
#[cfg(test)]
mod passwords;
#[cfg(test)]
mod pauses;
#[cfg(test)]
mod play;
#[cfg(test)]
mod played;
#[cfg(test)]
mod proxied;
#[cfg(test)]
mod recordings;
#[cfg(test)]
mod refusals;
#[cfg(test)]
mod room;
#[cfg(test)]
mod scene;
#[cfg(test)]
mod service;
#[cfg(test)]
mod sizes;
#[cfg(test)]
mod sockets;
#[cfg(test)]
mod standard_error;
#[cfg(test)]
mod steps;
#[cfg(test)]
mod surroundings;
#[cfg(test)]
mod system;
#[cfg(test)]
mod turns;
#[cfg(test)]
mod updates;
#[cfg(test)]
mod visits;
