//! The names of the two forms.

/// The form of a rectangle in RRE and in Hextile: as which subrectangles its pixels are written.
#[derive(Clone, Copy, Debug, PartialEq, Eq)]
pub enum RectForm {
    /// The runs of each row, over the first pixel's value.
    OfRows,
    /// Runs that are joined with those below them, in Hextile over each tile's most frequent value. A rectangle that
    /// has fewer bytes as the runs of its rows is written in that way.
    Joined,
}
