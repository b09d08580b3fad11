//! Writes the tiles of an area, and makes them one part of a zlib stream.

ghost use Rattle.std.specs.Prelude.{◌≡◌, [], ◌+◌, ◌*◌, ◌^◌, ◌≤◌, length, map, OnOk, OnErr};
ghost use Rattle.pixel_format.specs.PixelFormat.{tint};
ghost use Rattle.raster.specs.Screen.{IsWithin, part_of, value_at, values_of};
ghost use Rattle.zrle_codec.specs.Areas.{AppendsZrle, SpellsTiles, area_values, zrle_tile_count};
ghost use Rattle.zrle_codec.specs.Tiles.{AppendsTile};

use crate::area::{zrle_tile_count, zrle_tile_rect};
use crate::cpixel::Cpixels;
use crate::tile::{POSITIONS, write_tile};
use deflate::Deflater;
use raster::{Rect, tint_rows};
use std::alloc::{AllocError, Global};

/// Appends the tile that shows this place of a screen of colours, whose pixel values it puts into `room`.
fn append_tile(
    pixels: &Cpixels,
    colours: &[u32],
    width: usize,
    height: usize,
    place: &Rect,
    room: &mut [u32],
    out: &mut Vec<u8>,
) -> Result<(), AllocError>
    requires size { length colours.now ≡ width * height }
    requires small { (width ≤ 4096) × (height ≤ 4096) }
    requires within { IsWithin place.now width height }
    requires wide { (1 ≤ place.now.w) × (place.now.w ≤ 64) }
    requires high { (1 ≤ place.now.h) × (place.now.h ≤ 64) }
    requires room { length room.old ≡ POSITIONS }
    ensures room { length room.new ≡ POSITIONS }
    ensures ok { OnOk result (AppendsTile pixels.now.format place.now.w place.now.h
        (map (tint pixels.now.format)
        (values_of place.now.w place.now.h (part_of place.now (value_at width colours.now))))
        out.old.items out.new.items) }
{
    let across = place.w as usize;
    let down = place.h as usize;
    let values = &mut room[..across * down];
    tint_rows(colours, width, height, place, &pixels.format, values);
    write_tile(pixels, across, down, values, out)?;
    Ok(())
}

/// Appends all tiles of an area.
fn append_tiles(
    pixels: &Cpixels,
    colours: &[u32],
    width: usize,
    height: usize,
    area: &Rect,
    room: &mut [u32],
    out: &mut Vec<u8>,
) -> Result<(), AllocError>
    requires size { length colours.now ≡ width * height }
    requires small { (width ≤ 4096) × (height ≤ 4096) }
    requires within { IsWithin area.now width height }
    requires room { length room.old ≡ POSITIONS }
    requires empty { out.old.items ≡ [] }
    ensures room { length room.new ≡ POSITIONS }
    ensures ok { OnOk result (SpellsTiles pixels.now.format area.now.w area.now.h
        (area_values pixels.now.format width colours.now area.now)
        (zrle_tile_count area.now.w area.now.h) out.new.items) }
    ensures few { OnOk result (length out.new.items ≤ 16385 * 4096) }
{
    for t in 0..zrle_tile_count(area.w, area.h) {
        let tile = zrle_tile_rect(area.w, area.h, t);
        let place = Rect {
            x: area.x + tile.x,
            y: area.y + tile.y,
            w: tile.w,
            h: tile.h,
        };
        append_tile(pixels, colours, width, height, &place, room, out)?;
    }
    Ok(())
}

/// What writing areas takes, made once for any number of them, in any pixel format.
#[derive(Drop)]
pub struct Encoder {
    deflater: Deflater,
    values: Vec<u32>,
    tiles: Vec<u8>,
    ghost room: { length values.items ≡ 4096 },
}

impl Encoder {
    /// Takes the memory, but for what `append` takes for the bytes of an area and of its part.
    pub fn new(alloc: Global) -> Result<Encoder, AllocError> {
        let deflater = Deflater::new(alloc)?;
        let values = vec![in alloc; 0; POSITIONS]?;
        Ok(Encoder {
            deflater,
            values,
            tiles: Vec::new(alloc),
        })
    }

    /// Appends the part that inflates to the tiles of an area of a screen of colours, which stand in rows of `width`: at
    /// most 2^27 bytes. Where memory is refused nothing is appended.
    pub fn append(
        &mut self,
        pixels: &Cpixels,
        colours: &[u32],
        width: usize,
        height: usize,
        area: &Rect,
        out: &mut Vec<u8>,
    ) -> Result<(), AllocError>
        requires size { length colours.now ≡ width * height }
        requires small { (width ≤ 4096) × (height ≤ 4096) }
        requires within { IsWithin area.now width height }
        ensures ok { OnOk result (AppendsZrle pixels.now.format area.now.w area.now.h
            (area_values pixels.now.format width colours.now area.now)
            out.old.items out.new.items) }
        ensures few { OnOk result (length out.new.items ≤ length out.old.items + 2 ^ 27) }
        ensures err { OnErr result (out.new.items ≡ out.old.items) }
    {
        self.tiles.clear();
        append_tiles(
            pixels,
            colours,
            width,
            height,
            area,
            &mut self.values,
            &mut self.tiles,
        )?;
        self.deflater.compress(&self.tiles, out)?;
        Ok(())
    }
}
