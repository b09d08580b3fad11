//! Newcomers to a locked port: those who know the password, and those who don't (VNC Authentication, RFC 6143, 7.1.2,
//! 7.1.3 and 7.2.2).

use crate::house::House;
use crate::sockets::{LONG, VERSION, hears};
use run_control::{Outcome, Request};
use std::io;
use std::io::{ErrorKind, Read, Write};
use std::net::TcpStream;
use std::sync::Wait;
use std::time::Duration;

/// The password of the port.
pub(crate) const PASSWORD: &[u8] = b"hunter2x";

/// The version, and a list of the one type, VNC Authentication.
const ASKED: &[u8] = b"RFB 003.008\n\x01\x02";

/// What `openssl enc -des-ecb` makes of the first, the sixth and the seventh newcomer's challenge, with the password's
/// bits turned around in each byte. vncviewer 1.12 and xtightvncviewer 1.3.10 answer the first one so, too.
const FIRST: &[u8] = &[
    0x23, 0xC4, 0x81, 0x08, 0x42, 0xC0, 0x39, 0x94, 0xAB, 0x49, 0x6F, 0xC4, 0x67, 0x5C, 0xF3, 0xDC,
];

const SIXTH: &[u8] = &[
    0x2F, 0xDE, 0x2D, 0x71, 0x34, 0x0D, 0x92, 0xFE, 0xED, 0x2A, 0x4E, 0xDB, 0x74, 0x0C, 0x88, 0x1E,
];

const SEVENTH: &[u8] = &[
    0xC8, 0xC6, 0xC8, 0x69, 0x6C, 0x3D, 0x61, 0x55, 0xFF, 0xDB, 0x82, 0x4D, 0xDC, 0x6F, 0x8D, 0x1B,
];

/// SecurityResult 1, and the reason; of the first, what follows on its first byte.
const WRONG: &[u8] = b"\0\0\x01\0\0\0\x0Ewrong password";

const SHUT: &[u8] = b"\0\0\0\x01\0\0\0\x13no viewer is let in";

/// The time after which a wrong answer is told, in milliseconds.
const A_WHILE: u64 = 2_000;

/// For how many milliseconds a byte is waited for.
const SOON: u64 = 50;

/// The challenge of the newcomer with this number, counted from 0: the random bytes count on.
fn challenge(number: u8) -> [u8; 16] {
    let mut challenge = [0; 16];
    for i in 0..16u8 {
        challenge[usize::from(i)] = (number % 16) * 16 + i;
    }
    challenge
}

/// Whether a newcomer that has said its version, and perhaps more, is asked for the password.
fn is_asked(stream: &mut TcpStream, number: u8) -> io::Result<bool> {
    Ok(hears(stream, ASKED)? && hears(stream, &challenge(number))?)
}

/// Whether nothing more is said to a newcomer.
fn is_over(stream: &mut TcpStream) -> io::Result<bool> {
    Ok(stream.read(&mut [0])? == 0)
}

/// The byte that a newcomer is told next, if one has come or comes soon.
fn soon(stream: &mut TcpStream) -> io::Result<Option<u8>> {
    let mut byte = [0u8; 1];
    match stream.read(&mut byte) {
        Ok(1) => Ok(Some(byte[0])),
        Ok(_) => Err(io::Error::from(ErrorKind::UnexpectedEof)),
        Err(error) if error.kind() == ErrorKind::WouldBlock => Ok(None),
        Err(error) => Err(error),
    }
}

/// Whether a newcomer is told that its answer is wrong, once the clock is put forward: when the port has read the
/// answer isn't seen from here, so that is done again and again.
fn is_told_late<R: Wait + Drop>(house: &House<'_, R>, stream: &mut TcpStream) -> io::Result<bool> {
    for _ in 0..1_000 {
        if let Some(byte) = soon(stream)? {
            return Ok(byte == 0);
        }
        house.pass(A_WHILE);
    }
    Ok(false)
}

/// Whether a newcomer that has answered wrongly is told so after a while, not before, and then let go.
fn is_refused<R: Wait + Drop>(house: &House<'_, R>, stream: &mut TcpStream) -> io::Result<bool> {
    stream.set_read_timeout(Some(Duration::from_millis(SOON)))?;
    let is_kept = soon(stream)?.is_none();
    let is_told = is_told_late(house, stream)?;
    stream.set_read_timeout(Some(Duration::from_secs(LONG)))?;
    Ok(is_kept && is_told && hears(stream, WRONG)? && is_over(stream)?)
}

/// Whether a newcomer that chooses the type and then sends this in place of the answer takes no place and is refused.
fn fails_with<R: Wait + Drop>(house: &House<'_, R>, number: u8, answer: &[u8]) -> io::Result<bool> {
    let mut stream = house.come()?;
    stream.write_all(b"\x02")?;
    let was_asked = is_asked(&mut stream, number)?;
    stream.write_all(answer)?;
    let is_told = is_refused(house, &mut stream)?;
    Ok(was_asked && is_told && house.has_refused(u64::from(number) + 1))
}

/// Whether a newcomer fails that sends all at once, before it was asked, with the answer to another's challenge.
fn early_one_fails<R: Wait + Drop>(house: &House<'_, R>, number: u8) -> io::Result<bool> {
    let mut stream = house.come()?;
    stream.write_all(b"\x02")?;
    stream.write_all(FIRST)?;
    let was_asked = is_asked(&mut stream, number)?;
    let is_told = is_refused(house, &mut stream)?;
    Ok(was_asked && is_told && house.has_refused(u64::from(number) + 1))
}

/// Whether a newcomer that chooses the type None gets no challenge.
fn none_is_not_taken<R: Wait + Drop>(house: &House<'_, R>) -> io::Result<bool> {
    let mut stream = house.come()?;
    stream.write_all(b"\x01")?;
    Ok(hears(&mut stream, ASKED)? && is_over(&mut stream)? && house.has_refused(3))
}

/// Whether a newcomer of another version isn't told the types.
fn other_version_is_not_asked<R: Wait + Drop>(house: &House<'_, R>) -> io::Result<bool> {
    let mut stream = house.connect()?;
    stream.write_all(b"RFB 003.003\n")?;
    Ok(hears(&mut stream, VERSION)? && is_over(&mut stream)? && house.has_refused(3))
}

/// Whether one that knows the password is told so by the result where nobody is let in.
fn drained_one_is_told<R: Wait + Drop>(house: &House<'_, R>, number: u8) -> io::Result<bool> {
    let is_drained = house.ask(Request::Drain) == Outcome::Done;
    let mut stream = house.come()?;
    stream.write_all(b"\x02")?;
    let was_asked = is_asked(&mut stream, number)?;
    stream.write_all(SIXTH)?;
    let is_told = hears(&mut stream, SHUT)?;
    let is_opened = house.ask(Request::Undrain) == Outcome::Done;
    Ok(is_drained && was_asked && is_told && is_opened)
}

/// Whether one that knows the password, and sends each byte alone, has the place: behind the challenge it hears the
/// first byte that its owner says after the type None.
fn right_one_is_let_in<R: Wait + Drop>(
    house: &House<'_, R>,
    number: u8,
    answer: &[u8],
) -> io::Result<bool> {
    let mut stream = house.come_behind(b"")?;
    stream.write_all(b"\x02")?;
    let was_asked = is_asked(&mut stream, number)?;
    for byte in answer {
        stream.write_all(&[*byte])?;
    }
    let is_greeted = hears(&mut stream, b"R")?;
    Ok(was_asked && is_greeted && house.has_come(stream.local_addr()?))
}

/// The numbers of the newcomers that are asked at once: ten that guess, and before the last of them one that knows the
/// password, which has the first newcomer's challenge again. After those that wait comes one that has the sixth's.
const FIRST_GUESSER: u8 = 7;

const KNOWER: u8 = 16;

const LAST_GUESSER: u8 = 17;

const LAST_WAITING: u8 = 20;

const NEXT_ASKED: u8 = 21;

/// The minute for which an address has to wait, in milliseconds.
const A_MINUTE: u64 = 60_000;

/// A newcomer that was asked, and hasn't answered.
fn asked_one<R: Wait + Drop>(house: &House<'_, R>, number: u8) -> io::Result<TcpStream> {
    let mut stream = house.come()?;
    stream.write_all(b"\x02")?;
    if !is_asked(&mut stream, number)? {
        return Err(io::Error::from(ErrorKind::InvalidData));
    }
    stream.set_read_timeout(Some(Duration::from_millis(SOON)))?;
    Ok(stream)
}

/// Newcomers that have guessed, and one that is still to answer.
fn guessers<R: Wait + Drop>(house: &House<'_, R>) -> io::Result<(Vec<TcpStream>, TcpStream)> {
    let mut guessers = Vec::new(house.net.alloc());
    for number in FIRST_GUESSER..KNOWER {
        guessers.push(asked_one(house, number)?)?;
    }
    let knower = asked_one(house, KNOWER)?;
    guessers.push(asked_one(house, LAST_GUESSER)?)?;
    for stream in guessers.as_mut_slice() {
        stream.write_all(&[0; 16])?;
    }
    Ok((guessers, knower))
}

/// Whether newcomers that come now hear nothing, not even the version.
fn others_wait<R: Wait + Drop>(house: &House<'_, R>) -> io::Result<bool> {
    let mut hear_nothing = true;
    for _ in LAST_GUESSER..LAST_WAITING {
        let mut waits = house.come()?;
        waits.set_read_timeout(Some(Duration::from_millis(SOON)))?;
        hear_nothing = hear_nothing && soon(&mut waits)?.is_none();
    }
    Ok(hear_nothing)
}

/// Whether ten wrong passwords from an address are heard within a minute, and no answer after them, not even a right
/// one; and whether newcomers from there are asked again after that minute.
fn guessers_wait<R: Wait + Drop>(house: &House<'_, R>) -> io::Result<bool> {
    house.pass(A_MINUTE);
    let (mut guessers, mut knower) = guessers(house)?;
    let others_wait = others_wait(house)?;
    knower.write_all(FIRST)?;
    let is_barred = soon(&mut knower)?.is_none();
    for stream in guessers.as_mut_slice() {
        if !is_told_late(house, stream)? {
            return Ok(false);
        }
    }
    house.pass(A_MINUTE);
    Ok(others_wait && is_barred && right_one_is_let_in(house, NEXT_ASKED, SIXTH)?)
}

/// Whether only the right answer to a newcomer's own challenge opens the port, and what the others are told.
pub(crate) fn lock_holds<R: Wait + Drop>(house: &House<'_, R>) -> io::Result<bool> {
    let is_kept = fails_with(house, 0, &[0; 16])?
        && fails_with(house, 1, FIRST)?
        && early_one_fails(house, 2)?
        && none_is_not_taken(house)?
        && other_version_is_not_asked(house)?;
    let is_shut = drained_one_is_told(house, 5)?;
    Ok(is_kept && is_shut && right_one_is_let_in(house, 6, SEVENTH)? && guessers_wait(house)?)
}
