//! The host's copies.

use crate::values::Values;
use copy_log::CopyRect;

/// Tells some copies: of each the rectangle, and the top left of its source.
pub fn tell_copies(copies: &[CopyRect], seen: &mut Values) -> Option<()> {
    for copy in copies {
        let area = copy.area;
        seen.tell(&[area.x, area.y, area.w, area.h, copy.x, copy.y])?;
    }
    Some(())
}
