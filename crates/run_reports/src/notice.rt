//! What systemd is told of a run (sd_notify(3)).

ghost use Rattle.std.specs.Prelude.{◌≡◌, ◌++◌, IfOk, OnOk};
ghost use Rattle.std.specs.String.{string_bytes};
ghost use Rattle.run_reports.specs.Notices.{after_status, host_part, notice_of, ready_line};

use itoa::Buffer;
use std::alloc::{AllocError, Global};

/// Whether a notice says that a run is ready.
#[derive(Clone, Copy, Debug, PartialEq, Eq)]
pub enum Ready {
    /// The notice says so: a host is joined for the first time.
    Now,
    /// The notice doesn't say so.
    Unsaid,
}

/// How a run stands.
#[derive(Clone, Copy, Debug)]
pub struct Notice<'a> {
    /// Whether it is said that the run is ready.
    pub ready: Ready,
    /// The text of the host that is joined, or `None` where none is. It has no line feed.
    pub host: Option<&'a str>,
    /// How many viewers have a place.
    pub viewers: u64,
    /// How many places there are.
    pub places: u64,
}

/// Puts that the run is ready, where it is said.
fn put_ready(text: &mut String, ready: Ready) -> Result<(), AllocError>
    ensures { OnOk result (string_bytes text.new ≡ string_bytes text.old ++ ready_line ready) }
{
    match ready {
        Ready::Now => text.push_str("READY=1\n"),
        Ready::Unsaid => Ok(()),
    }
}

/// Puts whether a host is joined, and which.
fn put_host(text: &mut String, notice: &Notice<'_>) -> Result<(), AllocError>
    ensures { OnOk result (string_bytes text.new ≡ string_bytes text.old ++ host_part notice.now) }
{
    match notice.host {
        Some(host) => {
            text.push_str("host ")?;
            text.push_str(host)
        }
        None => text.push_str("no host"),
    }
}

/// Puts how the run stands.
fn put_status(text: &mut String, notice: &Notice<'_>) -> Result<(), AllocError>
    ensures { OnOk result
        (string_bytes text.new ≡ after_status (string_bytes text.old) notice.now) }
{
    text.push_str("STATUS=")?;
    put_host(text, notice)?;
    text.push_str("; ")?;
    text.push_str(Buffer::new().format(notice.viewers))?;
    text.push_str(" of ")?;
    text.push_str(Buffer::new().format(notice.places))?;
    text.push_str(" viewers\n")
}

/// The text of a notice. It fails where memory is refused for it.
pub fn notice_text(alloc: Global, notice: &Notice<'_>) -> Result<String, AllocError>
    ensures { IfOk result (λ text. string_bytes text ≡ notice_of notice.now) }
{
    let mut text = String::new(alloc);
    put_ready(&mut text, notice.ready)?;
    put_status(&mut text, notice)?;
    Ok(text)
}
