//! A wrapper that rings an alarm after each step.

ghost use Rattle.std.specs.Prelude.{◌≡◌};

use crate::alarm::Alarm;
use fault::Fault;
use painter::Patch;
use reflect_core::Puts;
use roles::{Input, InputSink};

/// Takes steps as `inner` does, and rings the alarm after each that succeeded.
#[derive(Drop)]
pub struct Ringing<T: Drop, B: Alarm + Drop> {
    /// What takes the updates or the input.
    pub inner: T,
    /// The alarm of those who wait for more.
    pub alarm: B,
}

impl<T: Puts + Drop, B: Alarm + Drop> Puts for Ringing<T, B> {
    ghost updates = { λ ringing. T.updates ringing.inner };

    ghost width = { λ ringing. T.width ringing.inner };

    ghost height = { λ ringing. T.height ringing.inner };

    fn put(&mut self, patch: Patch) -> Result<u64, (Fault, Patch)> {
        let number = self.inner.put(patch)?;
        self.alarm.ring();
        Ok(number)
    }
}

impl<T: InputSink + Drop, B: Alarm + Drop> InputSink for Ringing<T, B> {
    ghost sent = { λ ringing. T.sent ringing.inner };

    ghost may_refuse = { T.may_refuse };

    fn send(&mut self, input: Input) -> Result<(), (Fault, Input)> {
        self.inner.send(input)?;
        self.alarm.ring();
        Ok(())
    }
}
