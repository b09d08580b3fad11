//! How an answer writes its rectangles.

use joined_runs::RectForm;
use pixel_format::Format;
use rfb_wire::Choice;

/// How an answer writes its rectangles: in which form (`joined_runs`), in which pixel format, and as the viewer chose
/// (RFC 6143, 7.5.1 and 7.5.2).
#[derive(Clone, Copy)]
pub struct Style {
    pub runs: RectForm,
    pub format: Format,
    pub choice: Choice,
}
