//! The types of messages: the first byte of each (RFC 6143, 7.5 and 7.6).

/// What a viewer sends to say in which format it wants pixels (RFC 6143, 7.5.1).
pub(crate) const SET_PIXEL_FORMAT: u8 = 0;

/// What a viewer sends to say which encodings it reads (RFC 6143, 7.5.2).
pub(crate) const SET_ENCODINGS: u8 = 2;

/// What a viewer sends to ask for a rectangle (RFC 6143, 7.5.3).
pub(crate) const FRAMEBUFFER_UPDATE_REQUEST: u8 = 3;

/// What a viewer sends where a key goes down or up (RFC 6143, 7.5.4).
pub(crate) const KEY_EVENT: u8 = 4;

/// What a viewer sends where its pointer moves, or a button goes down or up (RFC 6143, 7.5.5).
pub(crate) const POINTER_EVENT: u8 = 5;

/// What a viewer sends where it has a new cut text (RFC 6143, 7.5.6).
pub(crate) const CLIENT_CUT_TEXT: u8 = 6;

/// What a server sends to bring rectangles (RFC 6143, 7.6.1).
pub const FRAMEBUFFER_UPDATE: u8 = 0;

/// What a server sends to set colours of a colour map (RFC 6143, 7.6.2).
pub const SET_COLOUR_MAP_ENTRIES: u8 = 1;

/// What a server sends to ring the viewer's bell (RFC 6143, 7.6.3).
pub const BELL: u8 = 2;

/// What a server sends where it has a new cut text (RFC 6143, 7.6.4).
pub const SERVER_CUT_TEXT: u8 = 3;
