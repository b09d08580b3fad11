//! Times of a recording.

ghost use Rattle.std.specs.Prelude.{◌<◌, ℕ, IfNone, IfSome};
ghost use Rattle.play_control.specs.Times.{IsTwo};

/// How many bytes the text of a time has.
const TEXT_LEN: usize = 8;

/// The last second that has a text: 99:59:59.
const LAST_SECOND: u64 = 359_999;

/// A time of a recording, in whole seconds since it began: HH:MM:SS, up to 99:59:59.
#[derive(Clone, Copy, Debug, PartialEq, Eq, Drop)]
pub struct ClockTime {
    pub hours: u8,
    pub minutes: u8,
    pub seconds: u8,
}

/// The number below 100 that two bytes spell as decimal digits, the tens first.
pub(crate) fn two(tens: u8, ones: u8) -> Option<u8>
    ensures found { IfSome result (λ n. (n < 100) × IsTwo tens ones n) }
    ensures none { IfNone result ((n : ℕ) → n < 100 → ¬ IsTwo tens ones n) }
{
    if !tens.is_ascii_digit() || !ones.is_ascii_digit() {
        return None;
    }
    Some((tens - b'0') * 10 + (ones - b'0'))
}

/// The number of minutes, or of seconds, that two bytes spell.
fn sixtieth(tens: u8, ones: u8) -> Option<u8>
    ensures found { IfSome result (λ n. (n < 60) × IsTwo tens ones n) }
    ensures none { IfNone result ((n : ℕ) → n < 60 → ¬ IsTwo tens ones n) }
{
    let number = two(tens, ones)?;
    if number > 59 {
        return None;
    }
    Some(number)
}

impl ClockTime {
    ghost use Rattle.std.specs.Prelude.{◌≡◌, ◌*◌, ◌/◌, IfNone, IfSome, min};
    ghost use Rattle.play_control.specs.Times.{IsClockTime, IsClockText, millis_of};
    ghost use Rattle.play_control.specs.declared.clock_time.ClockTime.{ClockTime as Time};

    /// Reads a text like `01:30:00`. It answers `None` where the text is of no time.
    pub fn read(text: &str) -> Option<ClockTime>
        ensures says { IfSome result (λ time. IsClockTime time × IsClockText text.now time) }
        ensures none { IfNone result
            ((time : Time) → IsClockTime time → ¬ IsClockText text.now time) }
    {
        let text = text.as_bytes();
        if text.len() != TEXT_LEN || text[2] != b':' || text[5] != b':' {
            return None;
        }
        let hours = two(text[0], text[1])?;
        let minutes = sixtieth(text[3], text[4])?;
        let seconds = sixtieth(text[6], text[7])?;
        Some(ClockTime {
            hours,
            minutes,
            seconds,
        })
    }

    /// The time in milliseconds since the recording began.
    pub fn millis(&self) -> u64
        ensures { result ≡ millis_of self.now }
    {
        let minutes = u64::from(self.hours) * 60 + u64::from(self.minutes);
        (minutes * 60 + u64::from(self.seconds)) * 1_000
    }

    /// The time, in whole seconds, that has come so many milliseconds after the recording began; from 99:59:59 on, that
    /// time.
    pub fn at(millis: u64) -> ClockTime
        ensures is { IsClockTime result }
        ensures time { millis_of result ≡ min (millis / 1000) 359999 * 1000 }
    {
        let second = (millis / 1_000).min(LAST_SECOND);
        ClockTime {
            hours: (second / 3_600) as u8,
            minutes: (second / 60 % 60) as u8,
            seconds: (second % 60) as u8,
        }
    }
}
