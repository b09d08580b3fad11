//! What a host paints, and what its screen shows after some of its updates.

/// An update paints a rectangle: its number, the rectangle's x, y, width and height, and the colour.
pub(crate) type Paint = [u64; 6];

/// What the updates of a host paint.
pub(crate) enum Picture {
    /// Update n paints colour n all over.
    Plain,
    /// These rectangles, in order. What isn't painted is black.
    Painted(&'static [Paint]),
}

/// Whether an update up to this one paints the position.
fn covers(paint: &Paint, last: u64, x: u64, y: u64) -> bool {
    let [update, left, top, w, h, _] = *paint;
    let is_right = left <= x && x.wrapping_sub(left) < w;
    let is_below = top <= y && y.wrapping_sub(top) < h;
    update <= last && is_right && is_below
}

impl Picture {
    /// The colour of a position after the first updates, up to this one.
    pub(crate) fn colour(&self, last: u64, x: u64, y: u64) -> u64 {
        let Picture::Painted(paints) = self else {
            return last;
        };
        let mut colour = 0;
        for paint in paints.iter() {
            if covers(paint, last, x, y) {
                colour = paint[5];
            }
        }
        colour
    }
}
