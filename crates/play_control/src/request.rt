//! The lines of requests to a recording that is played.

ghost use Rattle.std.specs.Prelude.{IfSome, IfNone};
ghost use Rattle.play_control.specs.Request.{IsInRange, Says};
ghost use Rattle.play_control.specs.Times.{IsClockTime};
ghost use Rattle.play_control.specs.declared.clock_time.ClockTime.{ClockTime as Time};
ghost use Rattle.play_control.specs.declared.request.PlayRequest.TheVariants.{Seek};

use crate::clock_time::ClockTime;

/// What is asked of a recording that is played.
#[derive(Clone, Copy, Debug, PartialEq, Eq)]
pub enum PlayRequest {
    /// That it rests: `pause`.
    Pause,
    /// That it goes on: `play`.
    Play,
    /// That it is played from this time on: `seek HH:MM:SS`.
    Seek(ClockTime),
}

impl PlayRequest {
    ghost use Rattle.std.specs.Prelude.{IfSome, IfNone};
    ghost use Rattle.play_control.specs.Request.{IsInRange, Says};
    ghost use Rattle.play_control.specs.declared.request.PlayRequest as declared;

    /// Reads a line, without its line feed. It answers `None` where the line is no such request.
    pub fn read(line: &str) -> Option<PlayRequest>
        ensures says { IfSome result (λ request. IsInRange request × Says request line.now) }
        ensures none { IfNone result
            ((request : declared.PlayRequest) → IsInRange request → ¬ Says request line.now) }
    {
        match line {
            "pause" => Some(PlayRequest::Pause),
            "play" => Some(PlayRequest::Play),
            _ => seek_request(line),
        }
    }
}

/// `seek HH:MM:SS`.
fn seek_request(line: &str) -> Option<PlayRequest>
    ensures found { IfSome result (λ request. IsInRange request × Says request line.now) }
    ensures none { IfNone result ((time : Time) → IsClockTime time → ¬ Says (Seek time) line.now) }
{
    let text = line.strip_prefix("seek ")?;
    let time = ClockTime::read(text)?;
    Some(PlayRequest::Seek(time))
}
