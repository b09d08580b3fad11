//! Speeds.

ghost use Rattle.std.specs.Prelude.{◌≡◌, ◌≢◌, ◌+◌, ◌<◌, ◌≤◌, ℕ, IfSome, IfNone, length, slice_index, true, false};
ghost use Rattle.play_control.specs.Speeds.{IsWhole, IsPart, SpellsWith, SpellsSpeed};

use crate::clock_time::two;

/// The slowest speed and the fastest, in hundredths.
const SLOWEST: u64 = 25;

const FASTEST: u64 = 1_600;

/// How fast a recording is played, in hundredths of its own speed: from 25 to 1600.
#[derive(Clone, Copy, Debug, PartialEq, Eq, Drop)]
pub struct Speed {
    pub hundredths: u64,
}

/// The number that a byte spells as a decimal digit.
fn digit(byte: u8) -> Option<u64>
    ensures found { IfSome result (λ n. (n < 10) × (byte ≡ 48 + n)) }
    ensures none { IfNone result ((n : ℕ) → n < 10 → byte ≢ 48 + n) }
{
    if !byte.is_ascii_digit() {
        return None;
    }
    Some(u64::from(byte - b'0'))
}

/// The number that so many bytes at the front spell as decimal digits, one or two, without a leading zero.
fn whole(text: &[u8], len: usize) -> Option<u64>
    requires { len ≤ length text.now }
    ensures found { IfSome result (λ n. IsWhole len text.now n) }
    ensures none { IfNone result ((n : ℕ) → ¬ IsWhole len text.now n) }
{
    match len {
        1 => match digit(text[0]) {
            Some(number) => Some(number),
            None => None,
        },
        2 => match two(text[0], text[1]) {
            Some(number) if number >= 10 => Some(u64::from(number)),
            _ => None,
        },
        _ => None,
    }
}

/// The hundredths that the digits from this place on spell, tenths or hundredths.
fn part(text: &[u8], place: usize) -> Option<u64>
    requires { place ≤ 3 }
    ensures found { IfSome result (λ n. IsPart place text.now n) }
    ensures none { IfNone result ((n : ℕ) → ¬ IsPart place text.now n) }
{
    if text.len() == place + 1 {
        let Some(tenths) = digit(text[place]) else {
            return None;
        };
        return Some(tenths * 10);
    }
    if text.len() == place + 2 {
        return match two(text[place], text[place + 1]) {
            Some(number) => Some(u64::from(number)),
            None => None,
        };
    }
    None
}

/// The hundredths that a text spells which has a point behind so many digits.
fn with_point(text: &[u8], digits: usize) -> Option<u64>
    requires place { (digits ≤ 2) × (digits ≤ length text.now) }
    requires point { slice_index text.now digits ≡ 46 }
    ensures found { IfSome result (λ n. SpellsWith digits text.now n) }
    ensures none { IfNone result ((n : ℕ) → ¬ SpellsWith digits text.now n) }
{
    let Some(whole) = whole(text, digits) else {
        return None;
    };
    match part(text, digits + 1) {
        Some(part) => Some(whole * 100 + part),
        None => None,
    }
}

/// Whether a text has a point at this place.
fn has_point(text: &[u8], place: usize) -> bool
    ensures yes { result ≡ true → (place < length text.now) × (slice_index text.now place ≡ 46) }
    ensures no { result ≡ false → place < length text.now → slice_index text.now place ≢ 46 }
{
    place < text.len() && text[place] == b'.'
}

/// Whether so many hundredths are a speed.
fn is_speed(hundredths: u64) -> bool
    ensures yes { result ≡ true → (25 ≤ hundredths) × (hundredths ≤ 1600) }
    ensures no { result ≡ false → 25 ≤ hundredths → hundredths ≤ 1600 → ⊥ }
{
    SLOWEST <= hundredths && hundredths <= FASTEST
}

/// The hundredths that a text spells.
fn hundredths(text: &[u8]) -> Option<u64>
    ensures found { IfSome result (λ n. SpellsSpeed text.now n) }
    ensures none { IfNone result ((n : ℕ) → ¬ SpellsSpeed text.now n) }
{
    if has_point(text, 1) {
        return with_point(text, 1);
    }
    if has_point(text, 2) {
        return with_point(text, 2);
    }
    match whole(text, text.len()) {
        Some(whole) => Some(whole * 100),
        None => None,
    }
}

impl Speed {
    ghost use Rattle.std.specs.Prelude.{◌≡◌, ◌≤◌, ℕ, IfSome, IfNone};
    ghost use Rattle.play_control.specs.Speeds.{SpellsSpeed};

    /// Reads a text like `2`, `0.5` or `1.25`, of a speed from 0.25 to 16. It answers `None` where the text is of none.
    pub fn read(text: &str) -> Option<Speed>
        ensures says { IfSome result (λ s.
            (25 ≤ s.hundredths) × (s.hundredths ≤ 1600) × SpellsSpeed text.now s.hundredths) }
        ensures none { IfNone result ((n : ℕ) → 25 ≤ n → n ≤ 1600 → ¬ SpellsSpeed text.now n) }
    {
        let Some(hundredths) = hundredths(text.as_bytes()) else {
            return None;
        };
        if !is_speed(hundredths) {
            return None;
        }
        Some(Speed { hundredths })
    }
}
