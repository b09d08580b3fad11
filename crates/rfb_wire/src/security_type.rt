//! The security types that are used.

/// Security type None: neither side is authenticated, and nothing is encrypted (RFC 6143, 7.2.1).
pub(crate) const NONE: u8 = 1;

/// VNC Authentication: the server asks a challenge, and nothing is encrypted (RFC 6143, 7.2.2).
pub(crate) const VNC_AUTHENTICATION: u8 = 2;
