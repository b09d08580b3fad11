//! What a viewer makes of ZRLE: lengths are the RFC's, pixel values are read back, and bytes bring one thing alone.

ghost use Rattle.zrle_codec.specs.Cpixel.{CpixelsAreReadBack};
ghost use Rattle.zrle_codec.specs.Standard.{RunLengthsAreTheStandards, PackedLengthsAreTheStandards};
ghost use Rattle.zrle_codec.specs.OneThing.{TilesDrawOneThing, RectanglesDrawOneThing, PartsShowOneThing, AreasShowTheirColours, PartsShowAreasInOrder, DataBringOneThing, PartsAreRead, AreasAreRead};

use deflate::{
    blocks_inflate_to_one_thing, nothing_is_a_part, parts_concatenate, parts_have_one_source,
};

/// A colour's pixel value is read back from its CPIXEL, in each accepted format: no bit of it is in a byte that is left
/// off.
pub fn cpixels_are_read_back()
    ensures { CpixelsAreReadBack }
{}

/// The bytes of a run's length add up as RFC 6143, 7.7.5, says, and its examples are so.
pub fn run_lengths_are_the_standards()
    ensures { RunLengthsAreTheStandards }
{}

/// Packed indices have as many bytes as RFC 6143, 7.7.5, says.
pub fn packed_lengths_are_the_standards()
    ensures { PackedLengthsAreTheStandards }
{}

/// A tile's bytes end at one place, and draw one thing alone.
pub fn tiles_draw_one_thing()
    ensures { TilesDrawOneThing }
{}

/// So do the bytes of a rectangle's tiles, one behind another.
pub fn rectangles_draw_one_thing()
    ensures { RectanglesDrawOneThing }
{}

/// A part shows one thing alone.
pub fn parts_show_one_thing()
    ensures { PartsShowOneThing }
{
    parts_have_one_source();
}

/// In each accepted format the pixel values of an area, as they are received, are those of its colours.
pub fn areas_show_their_colours()
    ensures { AreasShowTheirColours }
{}

/// Parts one behind another show one list of areas, in order.
pub fn parts_show_areas_in_order()
    ensures { PartsShowAreasInOrder }
{
    parts_have_one_source();
    nothing_is_a_part();
    parts_concatenate();
}

/// The data of a rectangle bring one thing alone, and leave the connection's zlib stream in one state.
pub fn data_bring_one_thing()
    ensures { DataBringOneThing }
{
    blocks_inflate_to_one_thing();
}

/// A rectangle whose data are a part is read as what the part shows, whatever was inflated before.
pub fn parts_are_read()
    ensures { PartsAreRead }
{}

/// In each accepted format, what is read of the part of an area of a screen are the pixel values of its colours.
pub fn areas_are_read()
    ensures { AreasAreRead }
{}
