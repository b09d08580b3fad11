//! Why a request opens no link.

/// Why a request opens no link.
#[derive(Clone, Copy, Debug, PartialEq, Eq)]
pub enum Objection {
    /// The request's Host or its Origin isn't listed: 403.
    Stranger,
    /// The request is no opening handshake of a WebSocket, or has no valid key: 400.
    Malformed,
    /// The request asks for a version of the protocol other than 13: 426.
    OtherVersion,
}
