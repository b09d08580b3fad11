//! How viewers are answered.

use joined_runs::RectForm;

/// How all viewers of a screen are answered.
#[derive(Clone, Copy, Debug, PartialEq, Eq)]
pub struct AnswerForm {
    /// The form of rectangles in RRE and Hextile.
    pub runs: RectForm,
    /// Whether a viewer that would rather have ZRLE is answered in it (RFC 6143, 7.7.6).
    pub zrle: bool,
    /// Whether copies of the host are passed on to a viewer that takes CopyRect (RFC 6143, 7.7.2).
    pub copies: bool,
}
