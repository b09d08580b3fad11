//! What systemd tells a service that it starts.

use std::alloc::{AllocGlobal, Global};
use std::env;
use std::env::Env;
use std::os::unix::fs::MetadataExt;
use std::rt::Files;

/// Where the system tells which file standard error is.
const STANDARD_ERROR: &str = "/proc/self/fd/2";

/// What is told in the environment.
#[derive(Drop)]
pub(crate) struct Surroundings {
    /// Where systemd hears of the service (sd_notify(3)), if it wants to.
    pub(crate) notify: Option<String>,
    /// Whether the journal reads standard error.
    pub(crate) is_journal: bool,
}

/// Whether standard error is the journal: the file of this device and this number (systemd.exec(5), `JOURNAL_STREAM`).
fn is_journal<R: Env + Files + AllocGlobal>(rt: &R, alloc: Global) -> bool {
    let Ok(stream) = env::var(rt, "JOURNAL_STREAM") else {
        return false;
    };
    let Ok(found) = rt.metadata(STANDARD_ERROR) else {
        return false;
    };
    match format!(in alloc; "{}:{}", found.dev(), found.ino()) {
        Ok(text) => text.as_str() == stream.as_str(),
        Err(_) => false,
    }
}

impl Surroundings {
    /// What the environment tells here. What memory is refused for is left out.
    pub(crate) fn of<R: Env + Files + AllocGlobal>(rt: &R, alloc: Global) -> Surroundings {
        Surroundings {
            notify: env::var(rt, "NOTIFY_SOCKET").ok(),
            is_journal: is_journal(rt, alloc),
        }
    }
}
