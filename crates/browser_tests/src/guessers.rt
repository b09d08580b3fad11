//! Browsers at a locked port: those that know the password, and those that don't (VNC Authentication, RFC 6143, 7.1.2,
//! 7.1.3 and 7.2.2), in messages of a WebSocket.

use crate::browser::Browser;
use crate::clock::puts_forward;
use crate::host::VERSION;
use crate::loopback::hears;
use crate::ports::{House, is_other_answered};
use std::sync::atomic::Ordering;

/// The password of the port.
pub(crate) const PASSWORD: &[u8] = b"hunter2x";

/// A list of the one type, VNC Authentication.
const TYPES: &[u8] = b"\x01\x02";

/// The first challenge: the random bytes count on.
const CHALLENGE: &[u8] = &[0, 1, 2, 3, 4, 5, 6, 7, 8, 9, 10, 11, 12, 13, 14, 15];

/// What `openssl enc -des-ecb` makes of it, with the password's bits turned around in each byte.
const ANSWER: &[u8] = &[
    0x23, 0xC4, 0x81, 0x08, 0x42, 0xC0, 0x39, 0x94, 0xAB, 0x49, 0x6F, 0xC4, 0x67, 0x5C, 0xF3, 0xDC,
];

/// SecurityResult 1, and the reason.
const WRONG: &[u8] = b"\0\0\0\x01\0\0\0\x0Ewrong password";

/// What a browser is told that knows the password where the place is taken: SecurityResult 1, the reason in a message
/// of its own, and a close frame with 1013, try again later (RFC 6455, 5.5.1).
const TAKEN: &[u8] = b"\x82\x04\0\0\0\x01\x82\x18\0\0\0\x14all places are taken\x88\x02\x03\xF5";

/// How a browser puts its answer into messages.
#[derive(Clone, Copy)]
enum Messages {
    /// All of it in one.
    One,
    /// Each byte in one of its own.
    Many,
}

/// A browser that was asked the first challenge, and has chosen this type.
fn asked(house: &House<'_>, choice: &[u8]) -> Option<Browser> {
    house.drawn.store(0, Ordering::SeqCst);
    let mut browser = Browser::open(house.net, house.port)?;
    let is_asked = browser.hears(VERSION)
        && browser.says(VERSION)
        && browser.hears(TYPES)
        && browser.says(choice);
    if is_asked { Some(browser) } else { None }
}

/// Hears the first challenge, and gives this answer to it. It answers whether both went well.
fn answers(browser: &mut Browser, answer: &[u8], messages: Messages) -> bool {
    let hears_it = browser.hears(CHALLENGE);
    match messages {
        Messages::One => hears_it && browser.says(answer),
        Messages::Many => hears_it && answer.iter().all(|byte| browser.says(&[*byte])),
    }
}

/// A browser that has answered so.
fn answered(house: &House<'_>, answer: &[u8], messages: Messages) -> Option<Browser> {
    let mut browser = asked(house, b"\x02")?;
    if answers(&mut browser, answer, messages) {
        Some(browser)
    } else {
        None
    }
}

/// Whether a browser that answers wrongly is told so once two seconds are over, and then let go. That the second of the
/// others is answered shows that the port has looked at the clock.
fn is_wrong_one_told(house: &House<'_>) -> bool {
    match answered(house, &[0; 16], Messages::One) {
        Some(mut browser) => {
            is_other_answered(house)
                && puts_forward(house.millis, 2_000)
                && is_other_answered(house)
                && is_other_answered(house)
                && browser.hears(WRONG)
                && browser.is_let_go()
        }
        None => false,
    }
}

/// Whether a browser that chooses the type None is let go.
fn is_none_refused(house: &House<'_>) -> bool {
    match asked(house, b"\x01") {
        Some(mut browser) => browser.is_let_go(),
        None => false,
    }
}

/// Whether a browser is told nothing more that has sent the right answer in a message with a further byte.
fn is_long_one_refused(house: &House<'_>) -> bool {
    let mut long = [1u8; 17];
    let (front, _) = long.split_at_mut(16);
    front.copy_from_slice(ANSWER);
    match answered(house, &long, Messages::One) {
        Some(mut browser) => !browser.hears(b"R"),
        None => false,
    }
}

/// Whether a browser that knows the password is told that the place is taken.
fn is_second_told(house: &House<'_>) -> bool {
    match answered(house, ANSWER, Messages::One) {
        Some(mut browser) => hears(browser.stream(), TAKEN),
        None => false,
    }
}

/// Whether a browser that knows the password finds the place, and the next one doesn't.
pub(crate) fn is_right_one_let_in(house: &House<'_>) -> bool {
    match answered(house, ANSWER, Messages::Many) {
        Some(mut browser) => browser.hears(b"R") && is_second_told(house),
        None => false,
    }
}

/// Whether nobody comes in who doesn't answer the browser's own challenge, and what is told to such browsers.
pub(crate) fn are_guessers_met(house: &House<'_>) -> bool {
    is_wrong_one_told(house) && is_none_refused(house) && is_long_one_refused(house)
}
