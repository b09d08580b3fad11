//! A clock that plays the times of a line.

use crate::words::parted;
use record_link::Watch;

/// A clock that shows these times, one after another, and 0 where none is left. It doesn't wait.
#[derive(Drop)]
pub(crate) struct Clock<'a> {
    pub(crate) times: &'a str,
}

impl Watch for Clock<'_> {
    fn now(&mut self) -> u32 {
        let (time, later) = parted(self.times, ',');
        self.times = later;
        time.parse::<u32>().unwrap_or(0)
    }

    fn wait(&mut self) {}
}
