//! A recording that is played without waiting.

use playback::Pace;

/// A pace at which every time has come.
#[derive(Drop)]
pub struct AtOnce;

impl Pace for AtOnce {
    ghost has_come = { λ _. Unit {0} };

    fn time(&self) -> u64 {
        u64::MAX
    }

    fn wait(&self, _until: u64) {}
}
