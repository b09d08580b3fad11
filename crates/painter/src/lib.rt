//! Updates of a screen, in colours: painted as they come, and kept (RFC 6143, section 7.6).
//!
//! Colours stand row after row, in 4 bytes a pixel. A `new`, `Painter::patch` and `Patch::copy` take memory, and fail
//! where it is refused (`Memory`). All else takes none, and always succeeds where its condition holds. No handle is
//! needed.
#![tactic(auto)]

mod area_forms;
mod area_source;
mod board;
mod canvas;
mod colours;
mod copying;
mod encoded;
mod forms;
mod law;
mod painter;
mod patch;
mod room;
mod shown;
mod text;
mod wanted;

pub use area_source::AreaSource;
pub use board::Board;
pub use copying::copy_area;
pub use law::{same_updates_are_put_together, same_updates_show_the_same};
pub use painter::Painter;
pub use patch::Patch;
pub use shown::Shown;
pub use text::LastText;
pub use wanted::Wanted;
