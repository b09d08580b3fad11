//! Keys of ports: who may come in.

ghost use Rattle.std.specs.Prelude.{◌≡◌, ◌↔◌, IsTrue};
ghost use Rattle.connections.specs.Keys.{Opens, is_locked, question, right_answer};

use std::io;
use std::random::RandomSource;
use vnc_auth::{CHALLENGE_LEN, Password};

/// The bytes of a question: how many security types there are, the one of VNC Authentication, and the challenge (RFC
/// 6143, 7.1.2, 7.2.2).
pub(crate) const QUESTION_LEN: usize = 18;

/// How many of them are the list of types.
pub(crate) const TYPES_LEN: usize = 2;

/// The bytes that answer a question: the choice of a type, and the answer to the challenge.
pub(crate) const ANSWERED_LEN: usize = 17;

/// The security type of VNC Authentication (RFC 6143, 7.2.2).
pub(crate) const VNC_AUTHENTICATION: u8 = 2;

/// The security type None, by which nothing is asked (RFC 6143, 7.2.1).
pub(crate) const NONE: u8 = 1;

/// Who may come by a port: each, or only those who know a password.
#[derive(Clone, Copy)]
pub enum Key {
    /// The port asks for nothing.
    Open,
    /// The port asks for this password (VNC Authentication, RFC 6143, 7.2.2).
    Locked(Password),
}

impl Key {
    /// Whether the port asks for a password.
    pub fn is_locked(&self) -> bool
        ensures { result ≡ is_locked self.now }
    {
        match self {
            Key::Open => false,
            Key::Locked(_) => true,
        }
    }

    /// Whether these bytes open the port to a newcomer that was asked this challenge.
    pub(crate) fn is_opened_by(&self, challenge: &[u8; CHALLENGE_LEN], answered: &[u8]) -> bool
        ensures { IsTrue result ↔ Opens self.now challenge.now answered.now }
    {
        match self {
            Key::Open => true,
            Key::Locked(password) => answered == right_answer(password, challenge).as_slice(),
        }
    }
}

/// What is asked at a locked port.
pub(crate) fn question(challenge: &[u8; CHALLENGE_LEN]) -> [u8; QUESTION_LEN]
    ensures { result ≡ question challenge.now }
{
    let mut question = [1u8; QUESTION_LEN];
    let (types, rest) = question.split_at_mut(TYPES_LEN);
    types[1] = VNC_AUTHENTICATION;
    rest.copy_from_slice(challenge);
    question
}

/// What answers it.
pub(crate) fn right_answer(
    password: &Password,
    challenge: &[u8; CHALLENGE_LEN],
) -> [u8; ANSWERED_LEN]
    ensures { result ≡ right_answer password.now challenge.now }
{
    let mut answered = [VNC_AUTHENTICATION; ANSWERED_LEN];
    let (_, rest) = answered.split_at_mut(1);
    rest.copy_from_slice(&password.answer(challenge));
    answered
}

/// A challenge for one newcomer, which nobody can foresee. No clause says that. It fails where the system refuses
/// random bytes.
pub(crate) fn draw<R: RandomSource>(rt: &R) -> io::Result<[u8; CHALLENGE_LEN]> {
    let mut challenge = [0; CHALLENGE_LEN];
    rt.fill_bytes(&mut challenge)?;
    Ok(challenge)
}
