//! The cipher.

ghost use Rattle.std.specs.Prelude.{◌≡◌, ◌++◌};
ghost use Rattle.vnc_auth.specs.Des.{coded, encrypted, decrypted};

use crate::bits::{at_places, exclusive};
use crate::key::round_key;
use crate::rounds::mixed;
use crate::tables::{FINAL, INITIAL_LEFT, INITIAL_RIGHT, KEY_CHOICE, TURNS, TURNS_BACK};

/// Both in a row.
fn in_a_row(first: &[bool; 32], second: &[bool; 32]) -> [bool; 64]
    ensures { result ≡ first.now ++ second.now }
{
    let mut both = [false; 64];
    let (front, back) = both.split_at_mut(32);
    front.copy_from_slice(first);
    back.copy_from_slice(second);
    both
}

/// A block of 64 bits, carried through rounds that turn a key of 64 bits so.
fn coded(turns: &[u8; 16], key: &[bool; 64], block: &[bool; 64]) -> [bool; 64]
    ensures { result ≡ coded turns.now key.now block.now }
{
    let chosen = at_places(&KEY_CHOICE, key);
    let mut left = at_places(&INITIAL_LEFT, block);
    let mut right = at_places(&INITIAL_RIGHT, block);
    for count in turns.iter() {
        let mix = mixed(&right, &round_key(*count, &chosen));
        let next = exclusive(&left, &mix);
        left = right;
        right = next;
    }
    at_places(&FINAL, &in_a_row(&right, &left))
}

/// A block of 64 bits, encrypted with a key of 64 bits.
pub(crate) fn encrypted(key: &[bool; 64], block: &[bool; 64]) -> [bool; 64]
    ensures { result ≡ encrypted key.now block.now }
{
    coded(&TURNS, key, block)
}

/// The block that was encrypted with this key.
pub(crate) fn decrypted(key: &[bool; 64], block: &[bool; 64]) -> [bool; 64]
    ensures { result ≡ decrypted key.now block.now }
{
    coded(&TURNS_BACK, key, block)
}
