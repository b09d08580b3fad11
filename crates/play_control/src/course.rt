//! Up to which time a recording is played.

/// Up to which time a recording is played. It goes on with a clock, at some speed, or it rests. Times are in
/// milliseconds.
#[derive(Clone, Copy, Debug, PartialEq, Eq, Drop)]
pub struct Course {
    /// The time of the recording from which it goes on, or at which it rests.
    from: u64,
    /// When it began to go on from there, by the clock, or `None` where it rests.
    since: Option<u64>,
    /// Its speed, in hundredths of the recording's own.
    hundredths: u64,
}

impl Course {
    ghost use Rattle.std.specs.Prelude.{◌≡◌, ◌≤◌, ◌-◌, ◌^◌, ℕ, Some, None, is_some, min, not, if◌then◌else◌};
    ghost use Rattle.play_control.specs.Courses.{time_at};

    /// A recording that goes on from now, at the time `from` and with this speed.
    pub fn new(from: u64, hundredths: u64, now: u64) -> Course
        ensures { result ≡ record { from = from; since = Some now; hundredths = hundredths } }
    {
        Course {
            from,
            since: Some(now),
            hundredths,
        }
    }

    /// Up to which time the recording is played now.
    pub fn time(&self, now: u64) -> u64
        ensures { result ≡ min (time_at self.now now) (2 ^ 64 - 1) }
    {
        let passed = match self.since {
            Some(since) => now.saturating_sub(since),
            None => 0,
        };
        let more = u128::from(passed) * u128::from(self.hundredths) / 100;
        let time = (u128::from(self.from) + more).min(u128::from(u64::MAX));
        time as u64
    }

    /// Whether it rests.
    pub fn rests(&self) -> bool
        ensures { result ≡ not (is_some self.now.since) }
    {
        self.since.is_none()
    }

    /// It rests from now on, at the time to which it has come.
    pub fn pause(&mut self, now: u64)
        ensures rests { self.new.since ≡ None }
        ensures time { self.new.from ≡ min (time_at self.old now) (2 ^ 64 - 1) }
        ensures speed { self.new.hundredths ≡ self.old.hundredths }
    {
        self.from = self.time(now);
        self.since = None;
    }

    /// It goes on from now on, if it rests.
    pub fn play(&mut self, now: u64)
        ensures { self.new ≡ record self.old {
          since = (if is_some self.old.since then self.old.since else Some now);
        } }
    {
        if self.since.is_none() {
            self.since = Some(now);
        }
    }

    /// Goes to this time. The recording goes on from there, or rests there, as it did before.
    pub fn seek(&mut self, time: u64, now: u64)
        ensures from { self.new.from ≡ time }
        ensures since { self.new.since ≡ (if is_some self.old.since then Some now else None) }
        ensures speed { self.new.hundredths ≡ self.old.hundredths }
    {
        self.from = time;
        if self.since.is_some() {
            self.since = Some(now);
        }
    }
}
