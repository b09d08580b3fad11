//! The environment of a scene. It is empty, unless the room says where systemd hears of the service that it has
//! started; then standard error is the journal's.

ghost use Rattle.std.specs.Io.{WritesAtMost};

use crate::room::Ear;
use crate::system::SocketFiles;
use std::env::{Env, FillError};
use std::os::unix::fs::MetadataExt;
use std::sync::Wait;

/// Where systemd hears of a service (sd_notify(3)), and which file the journal reads (systemd.exec(5)).
const NOTIFY: &str = "NOTIFY_SOCKET";

const JOURNAL: &str = "JOURNAL_STREAM";

/// Where the system tells which file standard error is.
const STANDARD_ERROR: &str = "/proc/self/fd/2";

/// Copies a text to the beginning of a buffer.
fn copied(text: &str, buf: &mut [u8]) -> Result<usize, FillError>
    ensures { WritesAtMost result buf.new }
{
    let bytes = text.as_bytes();
    match buf.get_mut(..bytes.len()) {
        Some(room) => {
            room.copy_from_slice(bytes);
            Ok(bytes.len())
        }
        None => Err(FillError::TooLong),
    }
}

impl<R: SocketFiles + Wait + Drop> Ear<R> {
    /// Where systemd hears of the service.
    fn notify(&self, buf: &mut [u8]) -> Result<usize, FillError>
        ensures { WritesAtMost result buf.new }
    {
        let notify = self.room.notify.lock(self);
        copied(notify.as_str(), buf)
    }

    /// The device and the number of the file that is standard error.
    fn journal(&self, buf: &mut [u8]) -> Result<usize, FillError>
        ensures { WritesAtMost result buf.new }
    {
        let Ok(found) = self.rt.look(STANDARD_ERROR) else {
            return Err(FillError::NotPresent);
        };
        match format!(in self.alloc; "{}:{}", found.dev(), found.ino()) {
            Ok(text) => copied(text.as_str(), buf),
            Err(_) => Err(FillError::NotPresent),
        }
    }
}

impl<R: SocketFiles + Wait + Drop> Env for Ear<R> {
    fn arg(&self, _i: usize, _buf: &mut [u8]) -> Result<usize, FillError> {
        Err(FillError::NotPresent)
    }

    fn var(&self, name: &str, buf: &mut [u8]) -> Result<usize, FillError> {
        if self.room.notify.lock(self).is_empty() {
            Err(FillError::NotPresent)
        } else if name == NOTIFY {
            self.notify(buf)
        } else if name == JOURNAL {
            self.journal(buf)
        } else {
            Err(FillError::NotPresent)
        }
    }

    fn var_at(&self, _i: usize, _buf: &mut [u8]) -> Result<usize, FillError> {
        Err(FillError::NotPresent)
    }
}
