//! Which tries of hosts are noted in a log.

ghost use Rattle.std.specs.Prelude.{◌≡◌};

use std::time::{Clock, Duration, Instant};

/// The seconds after which hosts that still aren't there are noted again.
const NOTED_AGAIN_SECONDS: u64 = 60;

/// In a round each host is tried once. The tries of the first round since a host was joined are noted, and then those
/// of one round a minute, so that a host that is away for a night doesn't fill the log.
#[derive(Drop)]
pub(crate) struct NotedTries {
    is_noted: bool,
    /// When the first try of the last noted round failed.
    since: Option<Instant>,
}

impl NotedTries {
    /// The first round is noted.
    pub(crate) fn new() -> NotedTries {
        NotedTries {
            is_noted: true,
            since: None,
        }
    }

    /// Whether the tries of this round are noted.
    pub(crate) fn is_noted(&self) -> bool
        ensures { result ≡ self.now.is_noted }
    {
        self.is_noted
    }

    /// A try has failed.
    pub(crate) fn fail<R: Clock>(&mut self, rt: &R) {
        if self.is_noted && self.since.is_none() {
            self.since = Instant::now(rt).ok();
        }
    }

    /// The next round begins. Where the clock can't be read it is noted.
    pub(crate) fn begin<R: Clock>(&mut self, rt: &R) {
        self.is_noted = match &self.since {
            Some(since) => match since.elapsed(rt) {
                Ok(passed) => passed >= Duration::from_secs(NOTED_AGAIN_SECONDS),
                Err(_) => true,
            },
            None => true,
        };
        if self.is_noted {
            self.since = None;
        }
    }
}
