//! Writes areas of a screen in ZRLE (RFC 6143, section 7.7.6): tiles of 64 by 64 pixels, compressed into a part.
//!
//! `specs/Tiles` says what a tile's bytes are and what it draws, and `specs/Areas` where tiles lie and what an area's
//! part inflates to. A part is made once, and goes into the stream of each viewer of one pixel format. `specs/Reading`
//! says what a viewer reads there, which is one thing alone. Nothing here takes a handle.
#![tactic(auto)]

mod area;
mod cpixel;
mod encoder;
mod law;
mod packed;
mod palette;
mod palette_runs;
mod pixels;
mod runs;
mod tile;

pub use cpixel::Cpixels;
pub use encoder::Encoder;
pub use law::{
    areas_are_read, areas_show_their_colours, cpixels_are_read_back, data_bring_one_thing,
    packed_lengths_are_the_standards, parts_are_read, parts_show_areas_in_order,
    parts_show_one_thing, rectangles_draw_one_thing, run_lengths_are_the_standards,
    tiles_draw_one_thing,
};
pub use tile::write_tile;
