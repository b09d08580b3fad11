//! A password, and the file that it is read from.

ghost use Rattle.std.specs.Prelude.{◌≡◌, ◌==◌, ◌≤◌, ◌+◌, not, true, length};
ghost use Rattle.std.specs.List.{list_all, take_while};
ghost use Rattle.vnc_auth.specs.Answer.{answer_of};
ghost use Rattle.vnc_auth.specs.Password.{counting, first_line, is_text, is_stored, password_in};

use crate::challenge::{CHALLENGE_LEN, answer, opened};
use std::marker::Model;

/// How many bytes of a password count.
const PASSWORD_LEN: usize = 8;

/// The key that the files of `vncpasswd` are encrypted with. It is the same for everyone, and no secret.
const STORED_KEY: [u8; PASSWORD_LEN] = [23, 82, 107, 6, 35, 78, 88, 7];

/// A password: the eight bytes of it that count. It has no `Debug`, so that no log shows it.
#[derive(Clone, Copy)]
pub struct Password {
    bytes: [u8; PASSWORD_LEN],
}

impl Model for Password {
    ghost use Rattle.std.specs.Prelude.{ℕ, List};

    ghost Value = { List ℕ };

    ghost view = { λ p. p.bytes };

    ghost inverse = { λ bytes. record { bytes = bytes } };
}

/// How many bytes of a file stand before its first line feed.
fn line_len(contents: &[u8]) -> usize
    ensures { result ≡ length (take_while (λ c. not (c == 10)) contents.now) }
{
    contents.iter().take_while(|c| **c != b'\n').count()
}

/// The first line of a file, without its end.
fn first_line(contents: &[u8]) -> &[u8]
    ensures { result.now ≡ first_line contents.now }
{
    let line = &contents[..line_len(contents)];
    match line.len() {
        0 => line,
        len if line[len - 1] == b'\r' => &line[..len - 1],
        _ => line,
    }
}

/// Whether a byte may stand in a line of text.
fn is_text(c: u8) -> bool
    ensures { result ≡ is_text c }
{
    matches!(c, b' '..=b'~') || c == b'\r' || c == b'\n'
}

/// Whether all bytes may stand in a line of text.
fn is_line(contents: &[u8]) -> bool
    ensures { result ≡ list_all is_text contents.now }
{
    contents.iter().all(|c| is_text(*c))
}

/// Whether these bytes are what `vncpasswd` writes, and no line of text.
fn is_stored(contents: &[u8]) -> bool
    ensures value { result ≡ is_stored contents.now }
    ensures whole { result ≡ true → 8 ≤ length contents.now }
{
    match contents.len() {
        8 | 16 => !is_line(contents),
        _ => false,
    }
}

impl Password {
    /// The password with this text, of which the first eight bytes count.
    pub fn new(text: &[u8]) -> Password
        ensures { result ≡ counting text.now }
    {
        let count = text.len().min(PASSWORD_LEN);
        let mut bytes = [0; PASSWORD_LEN];
        bytes[..count].copy_from_slice(&text[..count]);
        Password { bytes }
    }

    /// The password in a file with these contents: what `vncpasswd` wrote there, or else the first line. There is none
    /// where that line is empty.
    pub fn in_file(contents: &[u8]) -> Option<Password>
        ensures { result ≡ password_in contents.now }
    {
        if is_stored(contents) {
            let bytes = opened(&STORED_KEY, &contents[..PASSWORD_LEN]);
            return Some(Password { bytes });
        }
        let line = first_line(contents);
        if line.is_empty() {
            None
        } else {
            Some(Password::new(line))
        }
    }

    /// The answer to a challenge by someone who knows the password (RFC 6143, 7.2.2).
    pub fn answer(&self, challenge: &[u8; CHALLENGE_LEN]) -> [u8; CHALLENGE_LEN]
        ensures { result ≡ answer_of self.now challenge.now }
    {
        answer(&self.bytes, challenge)
    }
}
