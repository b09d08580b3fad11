//! How far a reader of a header has come.

ghost use Rattle.std.specs.Prelude.{◌≡◌, ◌∷◌, []};
ghost use Rattle.byte_reading.specs.Reading.{step, after, taken, wants_more, whole_of};
ghost use Rattle.proxy_header.specs.Header.{header, speaks, after_command, block, told, is_family};
ghost use Rattle.proxy_header.specs.State.{ahead, is_partial};
ghost use Rattle.proxy_header.specs.declared.state.State.TheVariants as state;

use crate::address::{AddressBlock, Ip};
use crate::origin::{Origin, Refusal};
use std::mem;

/// The bytes with which each header begins.
const SIGNATURE: [u8; 12] = [13, 10, 13, 10, 0, 13, 10, 81, 85, 73, 84, 10];

/// The version and the command LOCAL, in one byte.
const LOCAL: u8 = 0x20;

/// The version and the command PROXY.
const PROXY: u8 = 0x21;

/// For whom a header speaks.
#[derive(Clone, Copy)]
pub(crate) enum Command {
    /// For the proxy itself.
    Local,
    /// For a connection that came to the proxy.
    Proxy,
}

/// What has come of a header.
#[derive(Drop)]
pub(crate) enum State {
    /// This many bytes of the signature.
    Signature(usize),
    /// The signature and a command.
    Family(Command),
    /// All before the length. The header tells addresses of this kind, or none that are used here.
    Length(Option<Ip>),
    /// The same, and the first byte of the length.
    LengthEnd(Option<Ip>, u8),
    /// All before the addresses, and a part of these. After them this many bytes follow that aren't looked at.
    Block(AddressBlock, u16),
    /// All but this many bytes, which aren't looked at.
    Rest(Origin, u16),
    /// Bytes that show why the header is refused.
    Refused(Refusal),
}

/// The state after one more byte of the signature, or after the byte that follows it. `count` bytes of the signature
/// have come before.
fn judge_signature(count: usize, byte: u8) -> State
    ensures { ahead result ≡ step (ahead (state.Signature count)) byte }
{
    if count >= SIGNATURE.len() {
        return judge_command(byte);
    }
    if byte == SIGNATURE[count] {
        State::Signature(count + 1)
    } else {
        State::Refused(Refusal::Signature)
    }
}

/// What follows the version and the command.
fn judge_command(byte: u8) -> State
    ensures { ahead result ≡ after_command byte }
{
    match byte {
        LOCAL => State::Family(Command::Local),
        PROXY => State::Family(Command::Proxy),
        _ if byte / 16 == 2 => State::Refused(Refusal::Command),
        _ => State::Refused(Refusal::Version),
    }
}

/// Whether the family and the transport of the addresses have a meaning.
fn is_family(byte: u8) -> bool
    ensures { result ≡ is_family byte }
{
    byte / 16 <= 3 && byte % 16 <= 2
}

/// Which addresses are told, if they are used here: those of a stream over IPv4 or IPv6.
fn told(byte: u8) -> Option<Ip>
    ensures { result ≡ told byte }
{
    match byte {
        0x11 => Some(Ip::V4),
        0x21 => Some(Ip::V6),
        _ => None,
    }
}

/// What follows the family and the transport.
fn judge_family(command: Command, byte: u8) -> State
    ensures { ahead result ≡ speaks command byte }
{
    match command {
        Command::Local => State::Length(None),
        Command::Proxy if is_family(byte) => State::Length(told(byte)),
        Command::Proxy => State::Refused(Refusal::Family),
    }
}

/// What follows the length.
fn judge_length(told: Option<Ip>, length: u16) -> State
    ensures { ahead result ≡ block told length }
{
    match told {
        None => State::Rest(Origin::Peer, length),
        Some(ip) => {
            let block = ip.block_len() as u16;
            if length < block {
                State::Refused(Refusal::Length)
            } else {
                State::Block(AddressBlock::of(ip), length - block)
            }
        }
    }
}

impl State {
    /// What follows another byte.
    pub(crate) fn step(self, byte: u8) -> State
        ensures { ahead result ≡ step (ahead self) byte }
    {
        match self {
            State::Signature(count) => judge_signature(count, byte),
            State::Family(command) => judge_family(command, byte),
            State::Length(told) => State::LengthEnd(told, byte),
            State::LengthEnd(told, high) => judge_length(told, u16::from_be_bytes([high, byte])),
            State::Block(block, rest) => match block.take(byte) {
                Ok(block) => State::Block(block, rest),
                Err(origin) => State::Rest(origin, rest),
            },
            State::Rest(origin, left) => State::Rest(origin, left.saturating_sub(1)),
            State::Refused(why) => State::Refused(why),
        }
    }

    /// Takes a byte.
    pub(crate) fn advance(&mut self, byte: u8)
        ensures { ahead self.new ≡ step (ahead self.old) byte }
    {
        let state = mem::replace(self, State::Signature(0));
        *self = state.step(byte);
    }

    /// Whether another byte is wanted.
    pub(crate) fn wants_more(&self) -> bool
        ensures value { result ≡ wants_more (ahead self.now) }
        ensures partial { result ≡ is_partial self.now }
    {
        match self {
            State::Signature(_) => true,
            State::Family(_) | State::Length(_) | State::LengthEnd(_, _) => true,
            State::Block(block, _) => block.is_open(),
            State::Rest(_, left) => *left > 0,
            State::Refused(_) => false,
        }
    }

    /// Takes bytes up to the end of the header, and answers how many they are.
    pub(crate) fn feed(&mut self, piece: &[u8]) -> usize
        ensures reads { ahead self.new ≡ after (ahead self.old) piece.now }
        ensures used { result ≡ taken (ahead self.old) piece.now }
    {
        for (used, byte) in piece.iter().enumerate() {
            if !self.wants_more() {
                return used;
            }
            self.advance(*byte);
        }
        piece.len()
    }

    /// What the header tells, or why it is refused, once that is known.
    pub(crate) fn done(&self) -> Option<Result<Origin, Refusal>>
        ensures { result ≡ whole_of (ahead self.now) }
    {
        if self.wants_more() {
            return None;
        }
        match self {
            State::Rest(origin, _) => Some(Ok(*origin)),
            State::Refused(why) => Some(Err(*why)),
            _ => None,
        }
    }
}
