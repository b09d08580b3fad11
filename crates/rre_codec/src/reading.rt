//! Reads RRE, in whatever pieces it comes.

ghost use Rattle.std.specs.Prelude.{◌≡◌, ℕ, ◌+◌, ◌<◌, ◌≤◌, true, [], length, take, is_some, None, IfOk, OnOk};
ghost use Rattle.pixel_format.specs.PixelFormat.{pixel_len};
ghost use Rattle.byte_reading.specs.Reading.{Done, whole_of, fault_of};
ghost use Rattle.raster.specs.declared.encoding.Encoding.TheVariants.{Rre};
ghost use Rattle.raster.specs.Encoding.{Drawing, drawn, rre};
ghost use Rattle.raster.specs.Reader.{Draws};
ghost use Rattle.raster.specs.Screen.{Map, LooksLike, kept};
ghost use Rattle.rre_codec.specs.Ahead.{Leads, needed, is_open, ahead, Stands, IsSameSize, IsWanting};

use crate::run::COUNT_LEN;
use crate::stage::{MOST_NEEDED, Stage, is_open, needed};
use arrayvec::ArrayVec;
use fault::Fault;
use pixel_format::Format;
use raster::{Canvas, CodecReader, RECT_LEN, Rect, read_piece};
use std::marker::Model;

/// Draws the background in the bytes of a header, and answers that its subrectangles are next.
fn draw_head<C: Canvas>(format: &Format, w: u64, h: u64, bytes: &[u8], canvas: &mut C) -> Stage
    requires count { length bytes.now ≡ COUNT_LEN + pixel_len format.now }
    requires width { C.width canvas.old ≡ w }
    requires height { C.height canvas.old ≡ h }
    ensures width { C.width canvas.new ≡ w }
    ensures height { C.height canvas.new ≡ h }
    ensures stays { C.Stays canvas.old canvas.new }
    ensures drawn { (sofar : Drawing)
        → Leads C.keeps format.now w h Stage.Head result bytes.now
        (C.shows canvas.old) (C.shows canvas.new) sofar }
{
    let (count, background) = bytes.split_at(COUNT_LEN);
    let count = u32::from_be_bytes([count[0], count[1], count[2], count[3]]);
    canvas.fill(Rect { x: 0, y: 0, w, h }, format.get_pixel(background));
    Stage::Subrects(count)
}

/// Draws the subrectangle in these bytes, if it lies inside, and answers what is next. It is one of `left`.
#[inline(always)]
fn draw_subrect<C: Canvas>(
    format: &Format,
    w: u64,
    h: u64,
    left: u32,
    bytes: &[u8],
    canvas: &mut C,
) -> Stage
    requires some { 0 < left }
    requires count { length bytes.now ≡ pixel_len format.now + RECT_LEN }
    requires width { C.width canvas.old ≡ w }
    requires height { C.height canvas.old ≡ h }
    ensures width { C.width canvas.new ≡ w }
    ensures height { C.height canvas.new ≡ h }
    ensures stays { C.Stays canvas.old canvas.new }
    ensures drawn { (sofar : Drawing)
        → Leads C.keeps format.now w h (Stage.Subrects left) result bytes.now
        (C.shows canvas.old) (C.shows canvas.new) sofar }
{
    let (value, place) = bytes.split_at(format.bytes());
    let area = Rect::read(place);
    if !area.within(w, h) {
        return Stage::Outside;
    }
    canvas.fill(area, format.get_pixel(value));
    Stage::Subrects(left - 1)
}

/// Draws what the bytes that are looked at together say, and answers what the next ones are.
#[inline(always)]
fn draw<C: Canvas>(
    format: &Format,
    w: u64,
    h: u64,
    stage: Stage,
    bytes: &[u8],
    canvas: &mut C,
) -> Stage
    requires open { is_open stage ≡ true }
    requires count { length bytes.now ≡ needed format.now stage }
    requires width { C.width canvas.old ≡ w }
    requires height { C.height canvas.old ≡ h }
    ensures width { C.width canvas.new ≡ w }
    ensures height { C.height canvas.new ≡ h }
    ensures stays { C.Stays canvas.old canvas.new }
    ensures drawn { (sofar : Drawing)
        → Leads C.keeps format.now w h stage result bytes.now
        (C.shows canvas.old) (C.shows canvas.new) sofar }
{
    match stage {
        Stage::Head => draw_head(format, w, h, bytes, canvas),
        Stage::Subrects(left) => draw_subrect(format, w, h, left, bytes, canvas),
        Stage::Outside => Stage::Outside,
    }
}

/// Draws the fields that are whole in these bytes, one after another. It answers what the next bytes are, and how many
/// bytes these fields have.
fn draw_fields<C: Canvas>(
    format: &Format,
    w: u64,
    h: u64,
    stage: Stage,
    bytes: &[u8],
    canvas: &mut C,
) -> (Stage, usize)
    requires open { is_open stage ≡ true }
    requires count { needed format.now stage ≤ length bytes.now }
    requires width { C.width canvas.old ≡ w }
    requires height { C.height canvas.old ≡ h }
    ensures some { 0 < result.1 }
    ensures within { result.1 ≤ length bytes.now }
    ensures width { C.width canvas.new ≡ w }
    ensures height { C.height canvas.new ≡ h }
    ensures stays { C.Stays canvas.old canvas.new }
    ensures drawn { (sofar : Drawing)
        → Leads C.keeps format.now w h stage result.0 (take result.1 bytes.now)
        (C.shows canvas.old) (C.shows canvas.new) sofar }
{
    let mut stage = stage;
    let mut rest = bytes;
    while is_open(stage) && needed(format, stage) <= rest.len() {
        let (field, others) = rest.split_at(needed(format, stage));
        stage = draw(format, w, h, stage, field, canvas);
        rest = others;
    }
    (stage, bytes.len() - rest.len())
}

/// A reader of one rectangle in RRE (RFC 6143, section 7.7.3), which draws as it reads. It holds no more than the bytes
/// of one subrectangle, and only where a piece ends inside that.
#[derive(Drop)]
pub struct Reader {
    format: Format,
    width: u64,
    height: u64,
    stage: Stage,
    begun: ArrayVec<u8, MOST_NEEDED>,
}

impl Model for Reader {
    ghost use Rattle.std.specs.Prelude.{◌<◌, length};
    ghost use Rattle.rre_codec.specs.Ahead.{Progress, needed};

    ghost Value = { Progress };

    ghost view = { λ r. record {
      format = r.format;
      width = r.width;
      height = r.height;
      stage = r.stage;
      begun = r.begun.items;
    } };

    ghost invariant = { λ r. length r.begun.items < needed r.format r.stage };
}

impl Reader {
    /// A reader to which no byte has come, of a rectangle of `w` by `h` in a format.
    pub fn new(w: u64, h: u64, format: Format) -> Reader
        ensures format { result.format ≡ format }
        ensures width { result.width ≡ w }
        ensures height { result.height ≡ h }
        ensures begins { (sofar : Drawing) → ahead result sofar ≡ rre format w h }
        ensures stands { (keeps : ℕ → ℕ) (canvas : Map ℕ) (sofar : Drawing)
            → Stands keeps result canvas sofar }
    {
        Reader {
            format,
            width: w,
            height: h,
            stage: Stage::Head,
            begun: ArrayVec::new(),
        }
    }

    /// Whether the rectangle is read to its end.
    pub fn whole(&self) -> bool
        ensures whole { (sofar : Drawing) → result ≡ is_some (whole_of (ahead self.now sofar)) }
        ensures shows { (keeps : ℕ → ℕ) (canvas : Map ℕ) (sofar drawing : Drawing)
            → Stands keeps self.now canvas sofar
            → ahead self.now sofar ≡ Done drawing
            → LooksLike self.now.width self.now.height canvas (kept keeps (drawn drawing)) }
    {
        match self.stage {
            Stage::Subrects(left) => left == 0,
            _ => false,
        }
    }

    /// Takes the next piece, up to the end of the rectangle, and draws it on a canvas of the rectangle's size. It
    /// answers how many bytes it used.
    ///
    /// `SubrectOutside` at the last byte of a subrectangle that leaves the rectangle. The fault is final.
    pub fn feed<C: Canvas>(&mut self, canvas: &mut C, piece: &[u8]) -> Result<usize, Fault>
        requires width { C.width canvas.old ≡ self.old.width }
        requires height { C.height canvas.old ≡ self.old.height }
        ensures size { IsSameSize self.old self.new }
        ensures width { C.width canvas.new ≡ self.old.width }
        ensures height { C.height canvas.new ≡ self.old.height }
        ensures stays { C.Stays canvas.old canvas.new }
        ensures within { IfOk result (λ used. used ≤ length piece.now) }
        ensures some { IsWanting self.old → 0 < length piece.now → IfOk result (λ used. 0 < used) }
        ensures fine { OnOk result ((sofar : Drawing) → fault_of (ahead self.new sofar) ≡ None) }
        ensures drawn { (sofar : Drawing) → Stands C.keeps self.old (C.shows canvas.old) sofar
            → Draws ahead (Stands C.keeps) self.old self.new (C.shows canvas.new)
            piece.now result sofar }
    {
        read_piece(self, canvas, piece)
    }
}

impl CodecReader for Reader {
    ghost encoding = { Rre };

    ghost Sofar = { Drawing };

    ghost nothing = { record { background = 0; subrects = [] } };

    ghost Read = { Drawing };

    ghost picture = { λ w h drawing. drawn drawing };

    ghost format_of = { λ p. p.format };

    ghost width = { λ p. p.width };

    ghost height = { λ p. p.height };

    ghost ahead = { ahead };

    ghost Stands = { Stands };

    fn begin(w: u64, h: u64, format: Format) -> Reader {
        Reader::new(w, h, format)
    }

    fn whole(&self) -> bool {
        Reader::whole(self)
    }

    fn is_open(&self) -> bool {
        is_open(self.stage)
    }

    fn fault(&self) -> Option<Fault> {
        match self.stage {
            Stage::Outside => Some(Fault::SubrectOutside),
            _ => None,
        }
    }

    /// Draws the fields that are whole in these bytes, or keeps bytes of a field that isn't.
    fn step<C: Canvas>(&mut self, canvas: &mut C, bytes: &[u8]) -> usize {
        let needed = needed(&self.format, self.stage);
        if self.begun.is_empty() && needed <= bytes.len() {
            let (stage, used) = draw_fields(
                &self.format,
                self.width,
                self.height,
                self.stage,
                bytes,
                canvas,
            );
            self.stage = stage;
            return used;
        }
        let count = bytes.len().min(needed - self.begun.len());
        // No field needs more bytes than there is room for.
        let _ = self.begun.try_extend_from_slice(&bytes[..count]);
        if self.begun.len() == needed {
            self.stage = draw(
                &self.format,
                self.width,
                self.height,
                self.stage,
                self.begun.as_slice(),
                canvas,
            );
            self.begun.clear();
        }
        count
    }
}
