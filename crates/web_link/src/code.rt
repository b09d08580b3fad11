//! The codes that close frames carry.

ghost use Rattle.std.specs.Prelude.{◌≡◌};
ghost use Rattle.web_link.specs.Web.{close_code};

use web_frames::Breach;

/// A normal end (RFC 6455, section 7.4.1).
pub(crate) const NORMAL: u16 = 1000;

/// The close code of a breach.
pub(crate) fn code_of(why: Breach) -> u16
    ensures { result ≡ close_code why }
{
    match why {
        Breach::Protocol => 1002,
        Breach::Text => 1003,
    }
}
