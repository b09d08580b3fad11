//! The version of the protocol that is spoken (RFC 6143, 7.1.1).

/// How many bytes a version has.
pub(crate) const VERSION_LEN: usize = 12;

/// Version 3.8, as it is said to hosts and to viewers.
pub(crate) const VERSION: [u8; VERSION_LEN] = *b"RFB 003.008\n";
