//! The addresses of a header.

ghost use Rattle.std.specs.Prelude.{◌≡◌, ◌+◌, ◌<◌, ◌≤◌, ◌∷◌, [], ◌++◌, length, true, MatchResult};
ghost use Rattle.proxy_header.specs.Header.{block_len, origin_in, port_at};

use crate::origin::Origin;
use arrayvec::ArrayVec;
use std::marker::Model;

/// The most bytes that a block of addresses has.
const LONGEST_BLOCK: usize = 36;

/// The kind of the addresses.
#[derive(Clone, Copy)]
pub(crate) enum Ip {
    V4,
    V6,
}

impl Ip {
    /// How many bytes a block of two addresses and two ports has.
    pub(crate) fn block_len(self) -> usize
        ensures value { result ≡ block_len self }
        ensures most { result ≤ LONGEST_BLOCK }
    {
        match self {
            Ip::V4 => 12,
            Ip::V6 => 36,
        }
    }
}

/// The port in two bytes of a block.
fn port_at(block: &[u8], i: usize) -> u16
    requires { i + 2 ≤ length block.now }
    ensures { result ≡ port_at block.now i }
{
    u16::from_be_bytes([block[i], block[i + 1]])
}

/// Where the connection came from, by the block of its addresses.
fn origin_in(ip: Ip, block: &[u8]) -> Origin
    requires { length block.now ≡ block_len ip }
    ensures { result ≡ origin_in ip block.now }
{
    match ip {
        Ip::V4 => match block.first_chunk::<4>() {
            Some(address) => Origin::Ipv4 {
                address: *address,
                port: port_at(block, 8),
            },
            None => unreachable!(),
        },
        Ip::V6 => match block.first_chunk::<16>() {
            Some(address) => Origin::Ipv6 {
                address: *address,
                port: port_at(block, 32),
            },
            None => unreachable!(),
        },
    }
}

/// A block of addresses, and those of its bytes that have come. At least one is missing.
#[derive(Drop)]
pub(crate) struct AddressBlock {
    ip: Ip,
    begun: ArrayVec<u8, LONGEST_BLOCK>,
}

impl Model for AddressBlock {
    ghost use Rattle.std.specs.Prelude.{ℕ, List, ◌<◌, length};
    ghost use Rattle.proxy_header.specs.Header.{block_len};
    ghost use Rattle.proxy_header.specs.declared.address.Ip.{Ip};

    ghost Value = { Ip × List ℕ };

    ghost view = { λ b. (b.ip, b.begun.items) };

    ghost invariant = { λ b. length b.begun.items < block_len b.ip };
}

impl AddressBlock {
    /// A block of which no byte has come.
    pub(crate) fn of(ip: Ip) -> AddressBlock
        ensures { result ≡ (ip, []) }
    {
        AddressBlock {
            ip,
            begun: ArrayVec::new(),
        }
    }

    /// Whether a byte of the block is missing, which is always so.
    pub(crate) fn is_open(&self) -> bool
        ensures value { result ≡ true }
        ensures missing { length self.now.1 < block_len self.now.0 }
    {
        self.begun.len() < self.ip.block_len()
    }

    /// Takes the next byte of the block. After the last byte it answers where the connection came from.
    pub(crate) fn take(mut self, byte: u8) -> Result<AddressBlock, Origin>
        ensures { MatchResult result (λ more. more ≡ (self.0, self.1 ++ byte ∷ []))
            (λ origin. (length (self.1 ++ byte ∷ []) ≡ block_len self.0)
            × (origin ≡ origin_in self.0 (self.1 ++ byte ∷ []))) }
    {
        self.begun.push(byte);
        if self.begun.len() < self.ip.block_len() {
            Ok(self)
        } else {
            Err(origin_in(self.ip, self.begun.as_slice()))
        }
    }
}
