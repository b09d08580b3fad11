//! Reading Hextile, in whatever pieces it comes.

ghost use Rattle.std.specs.Prelude.{◌≡◌, ℕ, ◌+◌, ◌<◌, ◌≤◌, true, List, [], length, take, is_some, None, IfOk, OnOk};
ghost use Rattle.byte_reading.specs.Reading.{Done, whole_of, fault_of};
ghost use Rattle.raster.specs.declared.encoding.Encoding.TheVariants.{Hextile};
ghost use Rattle.raster.specs.Encoding.{Tile, hextile, tiled};
ghost use Rattle.raster.specs.Reader.{Steps, Draws};
ghost use Rattle.raster.specs.Screen.{Map, LooksLike, kept};
ghost use Rattle.hextile_codec.specs.Ahead.{Part, Sofar, blank, nothing_read, ahead, Stands, IsSameSize, IsWanting, is_wanting, needed};

use crate::colours::Colours;
use crate::drawing::{draw, is_whole};
use crate::stage::{MOST_NEEDED, Stage, is_failed, needed};
use arrayvec::ArrayVec;
use fault::Fault;
use pixel_format::Format;
use raster::{Canvas, CodecReader, Rect, TILE_SIDE, read_piece, tile_count, tile_rect};
use std::marker::Model;
use std::mem;

/// A reader of one rectangle in Hextile (RFC 6143, section 7.7.4), which paints as it reads. It holds no more than
/// the bytes that follow a mask up to the first subrectangle, and where it stands.
#[derive(Drop)]
pub struct Reader {
    format: Format,
    width: u64,
    height: u64,
    /// How many tiles the rectangle has.
    tiles: u64,
    /// The number of the tile that is read, and where it lies.
    tile: u64,
    area: Rect,
    carried: Colours,
    stage: Stage,
    begun: ArrayVec<u8, MOST_NEEDED>,
}

impl Model for Reader {
    ghost use Rattle.std.specs.Prelude.{length};
    ghost use Rattle.hextile_codec.specs.Carried.{carried_by};
    ghost use Rattle.hextile_codec.specs.Ahead.{Progress, IsPlace};

    ghost Value = { Progress };

    ghost view = { λ r. record {
      format = r.format;
      width = r.width;
      height = r.height;
      tile = r.tile;
      carried = carried_by r.carried;
      stage = r.stage;
      begun = r.begun.items;
    } };

    ghost invariant = { λ r. IsPlace r.format r.width r.height r.tiles r.tile r.area r.stage
        (length r.begun.items) };
}

impl Reader {
    /// A reader to which no byte has come, of a rectangle of `w` by `h` in a format.
    pub fn new(w: u64, h: u64, format: Format) -> Reader
        requires width { w ≤ 65535 }
        requires height { h ≤ 65535 }
        ensures format { result.format ≡ format }
        ensures width { result.width ≡ w }
        ensures height { result.height ≡ h }
        ensures begins { (part : Part) → ahead result (nothing_read part) ≡ hextile format w h }
        ensures stands { (keep : ℕ → ℕ) (canvas : Map ℕ) (part : Part)
            → Stands keep result canvas (nothing_read part) }
    {
        Reader {
            format,
            width: w,
            height: h,
            tiles: tile_count(w, h),
            tile: 0,
            area: Rect {
                x: 0,
                y: 0,
                w: w.min(TILE_SIDE),
                h: h.min(TILE_SIDE),
            },
            carried: Colours::NOTHING,
            stage: Stage::Mask,
            begun: ArrayVec::new(),
        }
    }

    /// Whether the rectangle is read to its end. Then a canvas on which it drew shows its tiles.
    pub fn whole(&self) -> bool
        ensures whole { (sofar : Sofar) → result ≡ is_some (whole_of (ahead self.now sofar)) }
        ensures shows { (keep : ℕ → ℕ) (canvas : Map ℕ) (sofar : Sofar) (tiles : List Tile)
            → Stands keep self.now canvas sofar
            → ahead self.now sofar ≡ Done tiles
            → LooksLike self.now.width self.now.height canvas
            (kept keep (tiled self.now.width self.now.height tiles)) }
    {
        self.tile == self.tiles
    }

    /// Draws what bytes say that follow those looked at last, and answers how many it took.
    fn take<C: Canvas>(&mut self, canvas: &mut C, bytes: &[u8]) -> usize
        requires wanting { is_wanting self.old ≡ true }
        requires fresh { self.old.begun ≡ [] }
        requires count { needed self.old.format self.old.stage ≤ length bytes.now }
        requires width { C.width canvas.old ≡ self.old.width }
        requires height { C.height canvas.old ≡ self.old.height }
        ensures used { needed self.old.format self.old.stage ≤ result }
        ensures within { result ≤ length bytes.now }
        ensures size { IsSameSize self.old self.new }
        ensures width { C.width canvas.new ≡ self.old.width }
        ensures height { C.height canvas.new ≡ self.old.height }
        ensures stays { C.Stays canvas.old canvas.new }
        ensures drawn { (sofar : Sofar) → Stands C.keeps self.old (C.shows canvas.old) sofar
            → Steps ahead (Stands C.keeps) self.old self.new (C.shows canvas.new)
            (take result bytes.now) sofar }
    {
        let drawn = draw(
            &self.format,
            self.area,
            self.carried,
            self.stage,
            bytes,
            canvas,
        );
        self.carried = drawn.carried;
        if is_whole(&self.area, drawn.stage) {
            self.tile += 1;
            self.stage = Stage::Mask;
            if self.tile < self.tiles {
                self.area = tile_rect(self.width, self.height, self.tile);
            }
        } else {
            self.stage = drawn.stage;
        }
        drawn.used
    }

    /// Takes the next piece, up to the end of the rectangle, and draws it on a canvas of the rectangle's size.
    /// Answers how many bytes it used.
    ///
    /// `NoBackground` and `NoForeground` at the mask of a tile that lacks that colour, where none is carried;
    /// `SubrectOutside` at the last byte of a subrectangle that leaves its tile. A fault is final.
    pub fn feed<C: Canvas>(&mut self, canvas: &mut C, piece: &[u8]) -> Result<usize, Fault>
        requires width { C.width canvas.old ≡ self.old.width }
        requires height { C.height canvas.old ≡ self.old.height }
        ensures size { IsSameSize self.old self.new }
        ensures width { C.width canvas.new ≡ self.old.width }
        ensures height { C.height canvas.new ≡ self.old.height }
        ensures stays { C.Stays canvas.old canvas.new }
        ensures within { IfOk result (λ used. used ≤ length piece.now) }
        ensures some { IsWanting self.old → 0 < length piece.now → IfOk result (λ used. 0 < used) }
        ensures fine { OnOk result ((sofar : Sofar) → fault_of (ahead self.new sofar) ≡ None) }
        ensures drawn { (sofar : Sofar) → Stands C.keeps self.old (C.shows canvas.old) sofar
            → Draws ahead (Stands C.keeps) self.old self.new (C.shows canvas.new)
            piece.now result sofar }
    {
        read_piece(self, canvas, piece)
    }
}

impl CodecReader for Reader {
    ghost encoding = { Hextile };

    ghost Sofar = { Sofar };

    ghost nothing = { nothing_read blank };

    ghost Read = { List Tile };

    ghost picture = { tiled };

    ghost format_of = { λ p. p.format };

    ghost width = { λ p. p.width };

    ghost height = { λ p. p.height };

    ghost ahead = { ahead };

    ghost Stands = { Stands };

    fn begin(w: u64, h: u64, format: Format) -> Reader {
        Reader::new(w, h, format)
    }

    fn whole(&self) -> bool {
        Reader::whole(self)
    }

    fn is_open(&self) -> bool {
        self.tile < self.tiles && !is_failed(self.stage)
    }

    fn fault(&self) -> Option<Fault> {
        match self.stage {
            Stage::Failed(flaw) => Some(flaw.fault()),
            _ => None,
        }
    }

    fn step<C: Canvas>(&mut self, canvas: &mut C, bytes: &[u8]) -> usize {
        let needed = needed(&self.format, self.stage);
        if self.begun.is_empty() && needed <= bytes.len() {
            return self.take(canvas, bytes);
        }
        let count = bytes.len().min(needed - self.begun.len());
        // No field needs more bytes than there is room for.
        let _ = self.begun.try_extend_from_slice(&bytes[..count]);
        if self.begun.len() == needed {
            let field = mem::replace(&mut self.begun, ArrayVec::new());
            self.take(canvas, field.as_slice());
        }
        count
    }
}
