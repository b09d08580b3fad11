//! How a recorded session opens.

ghost use Rattle.std.specs.Prelude.{◌≡◌, length, option_map};
ghost use Rattle.std.specs.Int.{w32, from_be_bytes};
ghost use Rattle.playback.specs.Opening.{judged_kind, judged_result, opening, by_version, security, counted, offered, kind, result as security_result};
ghost use Rattle.playback.specs.Openings.{seen, after_types};

use crate::bad::{BadOpening, BadPlayback};
use std::alloc::Global;
use std::marker::Model;

/// How many bytes a version has.
const VERSION_LEN: usize = 12;

/// How many bytes a security type of version 3.3 has, and a SecurityResult.
const NUMBER_LEN: usize = 4;

/// The most bytes that are looked at in one call. An opening has at most 272.
const MOST_BYTES: usize = 512;

/// The number that four bytes spell, the most significant first.
fn number(field: &[u8]) -> u32
    requires { length field.now ≡ 4 }
    ensures { result ≡ from_be_bytes w32 field.now }
{
    u32::from_be_bytes([field[0], field[1], field[2], field[3]])
}

/// What a host's security type says, in version 3.3.
fn judge_kind(number: u32) -> Result<(), BadOpening>
    ensures { result ≡ judged_kind number }
{
    match number {
        1 => Ok(()),
        0 => Err(BadOpening::Refused),
        _ => Err(BadOpening::NoNone),
    }
}

/// What a SecurityResult says.
fn judge_result(number: u32) -> Result<(), BadOpening>
    ensures { result ≡ judged_result number }
{
    if number == 0 {
        Ok(())
    } else {
        Err(BadOpening::NotPassed)
    }
}

/// What is seen of a security type, in version 3.3.
fn see_kind(bytes: &[u8]) -> Option<(&[u8], Result<(), BadOpening>)>
    ensures { option_map (λ s. (s.0.now, s.1)) result ≡ seen kind bytes.now }
{
    if bytes.len() < NUMBER_LEN {
        return None;
    }
    let (field, rest) = bytes.split_at(NUMBER_LEN);
    Some((rest, judge_kind(number(field))))
}

/// What is seen of a SecurityResult.
fn see_result(bytes: &[u8]) -> Option<(&[u8], Result<(), BadOpening>)>
    ensures { option_map (λ s. (s.0.now, s.1)) result ≡ seen security_result bytes.now }
{
    if bytes.len() < NUMBER_LEN {
        return None;
    }
    let (field, rest) = bytes.split_at(NUMBER_LEN);
    Some((rest, judge_result(number(field))))
}

/// What the bytes after these security types show, one of which has to be None. In version 3.8 a SecurityResult follows
/// the types.
fn see_offered<'a>(
    types: &[u8],
    rest: &'a [u8],
    has_result: bool,
) -> Option<(&'a [u8], Result<(), BadOpening>)>
    ensures { option_map (λ s. (s.0.now, s.1)) result
        ≡ seen (offered (after_types has_result) types.now) rest.now }
{
    if !types.contains(&1) {
        return Some((rest, Err(BadOpening::NoNone)));
    }
    if !has_result {
        return Some((rest, Ok(())));
    }
    see_result(rest)
}

/// What these bytes show: `count` security types, and what follows them.
fn see_counted(
    count: usize,
    bytes: &[u8],
    has_result: bool,
) -> Option<(&[u8], Result<(), BadOpening>)>
    ensures { option_map (λ s. (s.0.now, s.1)) result
        ≡ seen (counted (after_types has_result) count) bytes.now }
{
    if count == 0 {
        return Some((bytes, Err(BadOpening::Refused)));
    }
    if bytes.len() < count {
        return None;
    }
    let (types, rest) = bytes.split_at(count);
    see_offered(types, rest, has_result)
}

/// What is seen of security types, and of what follows them.
fn see_security(bytes: &[u8], has_result: bool) -> Option<(&[u8], Result<(), BadOpening>)>
    ensures { option_map (λ s. (s.0.now, s.1)) result
        ≡ seen (security (after_types has_result)) bytes.now }
{
    if bytes.is_empty() {
        return None;
    }
    let (first, rest) = bytes.split_at(1);
    see_counted(usize::from(first[0]), rest, has_result)
}

/// What the bytes after this version show.
fn see_by_version<'a>(field: &[u8], rest: &'a [u8]) -> Option<(&'a [u8], Result<(), BadOpening>)>
    ensures { option_map (λ s. (s.0.now, s.1)) result ≡ seen (by_version field.now) rest.now }
{
    if field == b"RFB 003.008\n".as_slice() {
        return see_security(rest, true);
    }
    if field == b"RFB 003.007\n".as_slice() {
        return see_security(rest, false);
    }
    if field == b"RFB 003.003\n".as_slice() || field == b"RFB 003.005\n".as_slice() {
        return see_kind(rest);
    }
    Some((rest, Err(BadOpening::UnknownVersion)))
}

/// What is seen of an opening.
fn see_opening(bytes: &[u8]) -> Option<(&[u8], Result<(), BadOpening>)>
    ensures { option_map (λ s. (s.0.now, s.1)) result ≡ seen opening bytes.now }
{
    if bytes.len() < VERSION_LEN {
        return None;
    }
    let (field, rest) = bytes.split_at(VERSION_LEN);
    see_by_version(field, rest)
}

/// A reader of the opening of a recorded session. It holds the bytes that have come of it, of which it takes memory.
#[derive(Drop)]
pub(crate) struct OpeningReader {
    begun: Vec<u8>,
    is_open: bool,
}

impl Model for OpeningReader {
    ghost use Rattle.playback.specs.Openings.{Begun};

    ghost Value = { Begun };

    ghost view = { λ r. record { begun = r.begun.items; is_open = r.is_open } };
}

impl OpeningReader {
    ghost use Rattle.std.specs.Prelude.{◌≡◌, ◌≤◌, [], true, false, length, IfOk, IfErr, OnErr, take, ◌++◌};
    ghost use Rattle.byte_reading.specs.Reading.{after, wants_more};
    ghost use Rattle.playback.specs.Opening.{opening};
    ghost use Rattle.playback.specs.Openings.{GoesOn, IsNoOpening};

    /// A reader to which no byte has come.
    pub(crate) fn new(alloc: Global) -> OpeningReader
        ensures { result ≡ record { begun = []; is_open = false } }
    {
        OpeningReader {
            begun: Vec::new(alloc),
            is_open: false,
        }
    }

    /// Whether the opening was whole.
    pub(crate) fn is_open(&self) -> bool
        ensures { result ≡ self.now.is_open }
    {
        self.is_open
    }

    /// Takes bytes from the front, at most up to the end of the opening, and answers how many. Where memory is refused,
    /// or where the opening isn't one of ours, nothing changes.
    pub(crate) fn feed(&mut self, said: &[u8]) -> Result<usize, BadPlayback>
        requires closed { self.old.is_open ≡ false }
        requires begun { wants_more (after opening self.old.begun) ≡ true }
        ensures count { IfOk result (λ count. count ≤ length said.now) }
        ensures goes_on { IfOk result (λ count.
            GoesOn self.new.is_open self.old.begun self.new.begun (take count said.now)) }
        ensures refused { IfErr result (λ why. IsNoOpening why (self.old.begun ++ said.now)) }
        ensures same { OnErr result (self.new ≡ self.old) }
    {
        let start = self.begun.len();
        let count = said.len().min(MOST_BYTES);
        let (piece, _) = said.split_at(count);
        self.begun.extend_from_slice(piece)?;
        let (left, outcome) = match see_opening(self.begun.as_slice()) {
            None => return Ok(count),
            Some((rest, outcome)) => (rest.len(), outcome),
        };
        if let Err(bad) = outcome {
            self.begun.truncate(start);
            return Err(BadPlayback::Opening(bad));
        }
        self.is_open = true;
        Ok(count - left)
    }
}
