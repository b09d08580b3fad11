//! Parts of a screen that are encoded once for all viewers (RFC 6143, 7.7.4).

ghost use Rattle.std.specs.Prelude.{◌≡◌, ℕ, ◌-◌, ◌*◌, ◌≤◌, [], drop, length, take, IfOk, IfErr, IfSome};
ghost use Rattle.fault.specs.declared.kinds.Fault.TheVariants.{Memory};
ghost use Rattle.painter.specs.Encoded.{AreEncoded, IsHextileOf};
ghost use Rattle.raster.specs.Screen.{Canvas, IsWithin, value_at};
ghost use Rattle.raster.specs.Size.{IsScreenSize};

use crate::area_source::AreaSource;
use fault::Fault;
use joined_runs::RectForm;
use pixel_format::Format;
use raster::{Rect, TILE_SIDE, tile_count};
use std::alloc::Global;
use tiles::{Grid, TouchedSince, Walk};

/// How many bytes a pixel of the widest format has (RFC 6143, 7.4).
const WIDEST_PIXEL: u64 = 4;

/// Writes the data of an area in Hextile of joined runs from byte `start` on, and answers where it ends. `None` where
/// there is no room for the bytes of Raw, or where Hextile doesn't save any.
fn encode_at(
    source: &AreaSource,
    area: &Rect,
    format: &Format,
    bytes: &mut [u8],
    start: usize,
) -> Option<usize>
    requires start { start ≤ length bytes.old }
    requires within { IsWithin area.now source.now.width source.now.height }
    ensures before { take start bytes.new ≡ take start bytes.old }
    ensures some { IfSome result (λ end. (start ≤ end) × (end ≤ length bytes.new)
        × IsHextileOf format.now (value_at source.now.width source.now.colours.now) area.now
        (take (end - start) (drop start bytes.new))) }
{
    let (_, free) = bytes.split_at_mut(start);
    if (free.len() as u64) < WIDEST_PIXEL * (area.w * area.h) {
        return None;
    }
    let forms = source.kept_forms(area, format);
    let len = source.encode(RectForm::Joined, area, forms, format, free)?;
    Some(start + len)
}

/// An area, and from where to where its data stands among the bytes.
#[derive(Clone, Copy)]
pub(crate) struct EncodedArea {
    pub area: Rect,
    pub start: usize,
    pub end: usize,
}

/// The data of some areas of a screen in Hextile of joined runs, in one format: of those that the last update changed,
/// from the top, in a row of tiles from the left. All room is taken when it is made, and isn't touched before areas are
/// to be encoded.
#[derive(Drop)]
pub(crate) struct EncodedAreas {
    pub format: Format,
    pub list: Vec<EncodedArea>,
    pub bytes: Vec<u8>,
}

impl EncodedAreas {
    /// No areas, and room for those of a screen: a byte for each of its pixels, and the bytes of one row of tiles in
    /// Raw. It fails where memory is refused (`Memory`).
    pub fn new(alloc: Global, width: u64, height: u64) -> Result<Self, Fault>
        requires { IsScreenSize width height }
        ensures ok { IfOk result (λ areas. areas.list.items ≡ []) }
        ensures err { IfErr result (λ fault. fault ≡ Memory) }
    {
        let room = width * height + WIDEST_PIXEL * TILE_SIDE * width;
        let list = Vec::with_capacity(alloc, tile_count(width, height) as usize)?;
        let bytes = Vec::with_capacity(alloc, room as usize)?;
        Ok(EncodedAreas {
            format: Format::HOST,
            list,
            bytes,
        })
    }

    /// No areas, and no room for any: none are ever encoded.
    pub fn none(alloc: Global) -> Self
        ensures { result.list.items ≡ [] }
    {
        EncodedAreas {
            format: Format::HOST,
            list: Vec::new(alloc),
            bytes: Vec::new(alloc),
        }
    }

    /// Forgets all of them.
    pub fn clear(&mut self)
        ensures { self.new.list.items ≡ [] }
    {
        self.list.clear();
    }

    /// Forgets all of them, before areas are encoded in this format.
    fn begin(&mut self, format: &Format)
        ensures { (self.new.list.items ≡ []) × (self.new.format ≡ format.now) }
    {
        self.list.clear();
        self.format = *format;
        let room = self.bytes.capacity();
        // Not refused: there is room.
        let _ = self.bytes.resize(room, 0);
    }

    /// Encodes one area more, where there is room for it and that saves bytes. Its data stands from byte `start` on. It
    /// answers where that ends.
    fn add(&mut self, source: &AreaSource, area: &Rect, start: usize) -> usize
        requires start { start ≤ length self.old.bytes.items }
        requires within { IsWithin area.now source.now.width source.now.height }
        requires encoded { AreEncoded self.old.format
            (value_at source.now.width source.now.colours.now) start
            self.old.bytes.items self.old.list.items }
        ensures end { result ≤ length self.new.bytes.items }
        ensures encoded { AreEncoded self.new.format
            (value_at source.now.width source.now.colours.now) result
            self.new.bytes.items self.new.list.items }
    {
        let format = self.format;
        let Some(end) = encode_at(source, area, &format, self.bytes.as_mut_slice(), start) else {
            return start;
        };
        let encoded = EncodedArea {
            area: *area,
            start,
            end,
        };
        if self.list.push(encoded).is_err() {
            return start;
        }
        end
    }

    /// Encodes the areas that were touched after update `number`, and no others.
    fn add_touched(&mut self, source: &AreaSource, grid: &Grid, number: u64)
        requires none { self.old.list.items ≡ [] }
        requires same { (grid.now.width ≡ source.now.width)
            × (grid.now.height ≡ source.now.height) }
        ensures { AreEncoded self.new.format (value_at source.now.width source.now.colours.now)
            (length self.new.bytes.items) self.new.bytes.items self.new.list.items }
    {
        let touched = TouchedSince::new(grid, number);
        let all = Rect {
            x: 0,
            y: 0,
            w: source.width,
            h: source.height,
        };
        let mut walk = Walk::new(&all, source.width, source.height);
        let mut end = 0;
        while let Some(run) = walk.next(&touched) {
            end = self.add(source, &run.area, end);
        }
    }

    /// Encodes what was touched after update `number` in the format that is wanted, and nothing else. Where no format
    /// is wanted, nothing is encoded.
    pub fn renew(&mut self, source: &AreaSource, grid: &Grid, number: u64, wanted: Option<Format>)
        requires { (grid.now.width ≡ source.now.width) × (grid.now.height ≡ source.now.height) }
        ensures { AreEncoded self.new.format (value_at source.now.width source.now.colours.now)
            (length self.new.bytes.items) self.new.bytes.items self.new.list.items }
    {
        match wanted {
            None => self.clear(),
            Some(format) => {
                self.begin(&format);
                self.add_touched(source, grid, number);
            }
        }
    }

    /// The data of an area in a format, where it is encoded.
    pub fn find(&self, area: &Rect, format: &Format) -> Option<&[u8]>
        ensures { (colours : Canvas) (n : ℕ)
            → AreEncoded self.now.format colours n self.now.bytes.items self.now.list.items
            → IfSome result (λ bytes. IsHextileOf format.now colours area.now bytes.now) }
    {
        if self.format != *format {
            return None;
        }
        let list = self.list.as_slice();
        let at = list.partition_point(|encoded| {
            encoded.area.y < area.y || encoded.area.y == area.y && encoded.area.x < area.x
        });
        let encoded = list.get(at)?;
        if encoded.area != *area {
            return None;
        }
        self.bytes.as_slice().get(encoded.start..encoded.end)
    }
}
