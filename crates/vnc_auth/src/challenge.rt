//! The answer to a challenge.

ghost use Rattle.std.specs.Prelude.{◌≡◌, ◌↔◌, IsTrue, length};
ghost use Rattle.vnc_auth.specs.Answer.{sealed, opened, answer_of};

use crate::bits::{bits_of, bytes_of, mirrored_bits_of};
use crate::blocks::{decrypted, encrypted};

/// How many bytes a challenge has, and its answer.
pub const CHALLENGE_LEN: usize = 16;

/// Eight bytes, encrypted with a password.
fn sealed(password: &[u8], bytes: &[u8]) -> [u8; 8]
    ensures { result ≡ sealed password.now bytes.now }
{
    let key = mirrored_bits_of(password);
    let block = bits_of(bytes);
    let made = encrypted(&key, &block);
    bytes_of(&made)
}

/// Eight bytes that were sealed with a password, as they were before.
pub(crate) fn opened(password: &[u8], bytes: &[u8]) -> [u8; 8]
    ensures { result ≡ opened password.now bytes.now }
{
    let key = mirrored_bits_of(password);
    let block = bits_of(bytes);
    let found = decrypted(&key, &block);
    bytes_of(&found)
}

/// The answer to a challenge by someone who knows the password (RFC 6143, 7.2.2). Of the password the first eight bytes
/// count.
pub fn answer(password: &[u8], challenge: &[u8; CHALLENGE_LEN]) -> [u8; CHALLENGE_LEN]
    ensures { result ≡ answer_of password.now challenge.now }
{
    let (first, second) = challenge.split_at(8);
    let mut sealed_both = [0; CHALLENGE_LEN];
    let (front, back) = sealed_both.split_at_mut(8);
    front.copy_from_slice(&sealed(password, first));
    back.copy_from_slice(&sealed(password, second));
    sealed_both
}

/// Whether this is the answer to that challenge by someone who knows the password.
pub fn is_answer(
    password: &[u8],
    challenge: &[u8; CHALLENGE_LEN],
    given: &[u8; CHALLENGE_LEN],
) -> bool
    ensures { IsTrue result ↔ (given.now ≡ answer_of password.now challenge.now) }
{
    *given == answer(password, challenge)
}
