//! The addresses from which wrong passwords came of late.

ghost use Rattle.std.specs.Prelude.{◌≡◌, ◌≤◌, count_by, length};
ghost use Rattle.connections.specs.Guessing.{is_lately_from, same_ip};

use std::alloc::{AllocError, Global};
use std::marker::Model;
use std::net::IpAddr;
use std::time::Instant;

/// While so many wrong passwords from an address are less than a minute old, newcomers from there have to wait.
const MOST_WRONG: usize = 10;

/// That minute, in nanoseconds.
const MINUTE_NANOS: u128 = 60_000_000_000;

/// How many wrong passwords are remembered. Where more come within a minute, the first of them is forgotten.
const MOST_REMEMBERED: usize = 640;

/// A wrong password: from where it came, and when it was heard.
#[derive(Clone, Copy, Drop)]
pub(crate) struct Guess {
    ip: IpAddr,
    at: Instant,
}

/// Whether both are one address.
fn is_same(one: &IpAddr, other: &IpAddr) -> bool
    ensures { result ≡ same_ip one.now other.now }
{
    match (one, other) {
        (IpAddr::V4(one), IpAddr::V4(other)) => one.octets() == other.octets(),
        (IpAddr::V6(one), IpAddr::V6(other)) => one.octets() == other.octets(),
        _ => false,
    }
}

impl Guess {
    /// Whether it came from there, less than a minute ago.
    fn is_lately_from(&self, ip: &IpAddr, now: Instant) -> bool
        ensures { result ≡ is_lately_from ip.now now self.now }
    {
        match now.checked_duration_since(self.at) {
            Some(passed) => passed.as_nanos() < MINUTE_NANOS && is_same(&self.ip, ip),
            None => false,
        }
    }
}

/// How many of these came from there, less than a minute ago.
fn count_of(wrong: &[Guess], ip: &IpAddr, now: Instant) -> usize
    ensures count { result ≡ count_by (is_lately_from ip.now now) wrong.now }
    ensures few { result ≤ length wrong.now }
{
    let mut count = 0;
    for guess in wrong {
        if guess.is_lately_from(ip, now) {
            count += 1;
        }
    }
    count
}

/// The wrong passwords of late, in their order.
#[derive(Drop)]
pub(crate) struct Guesses {
    wrong: Vec<Guess>,
}

impl Model for Guesses {
    ghost use Rattle.std.specs.Prelude.{◌≤◌, List, length};
    ghost use Rattle.std.specs.Vec.{vec_capacity};
    ghost use Rattle.connections.specs.declared.guesses.Guess.{Guess};

    ghost Value = { List Guess };

    ghost view = { λ g. g.wrong.items };

    ghost invariant = { λ g. (length g.wrong.items ≤ 640) × (640 ≤ vec_capacity g.wrong) };
}

impl Guesses {
    ghost use Rattle.std.specs.Prelude.{◌≡◌, ◌↔◌, [], IfOk, IsTrue};
    ghost use Rattle.connections.specs.Guessing.{HasToWait, with_guess};

    /// None yet. It takes all the memory that it will need.
    pub(crate) fn new(alloc: Global) -> Result<Guesses, AllocError>
        ensures { IfOk result (λ guesses. guesses ≡ []) }
    {
        Ok(Guesses {
            wrong: Vec::with_capacity(alloc, MOST_REMEMBERED)?,
        })
    }

    /// Notes that a wrong password was heard from there now.
    pub(crate) fn note(&mut self, ip: IpAddr, now: Instant)
        ensures { self.new ≡ with_guess (record { ip = ip; at = now }) self.old }
    {
        if self.wrong.len() >= MOST_REMEMBERED {
            let _ = self.wrong.remove(0);
        }
        // There is room for it.
        let _ = self.wrong.push(Guess { ip, at: now });
    }

    /// Whether newcomers from there have to wait now.
    pub(crate) fn bars(&self, ip: IpAddr, now: Instant) -> bool
        ensures { IsTrue result ↔ HasToWait ip now self.now }
    {
        count_of(self.wrong.as_slice(), &ip, now) >= MOST_WRONG
    }
}
