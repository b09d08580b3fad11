//! Readers of one rectangle in an encoding, which draw the rectangle on a canvas.

ghost use Rattle.std.specs.Prelude.{◌≡◌, ℕ, ◌<◌, ◌≤◌, true, length, take, is_some, None, IfOk, OnOk};
ghost use Rattle.pixel_format.specs.PixelFormat.{PixelFormat};
ghost use Rattle.byte_reading.specs.Reading.{Reading, Done, wants_more, whole_of, fault_of};
ghost use Rattle.raster.specs.declared.encoding.Encoding.{Encoding};
ghost use Rattle.raster.specs.Encoding.{pixels};
ghost use Rattle.raster.specs.Screen.{Map, LooksLike, kept};
ghost use Rattle.raster.specs.Reader.{values_read, Steps, Draws};

use crate::canvas::Canvas;
use fault::Fault;
use pixel_format::Format;

/// A reader of one rectangle in an encoding, whose bytes may come in any pieces. It draws what they say on a canvas of
/// the rectangle's size, and takes no memory.
pub trait CodecReader {
    // The encoding that it reads.
    ghost encoding: { Encoding };

    // What may have been read so far.
    ghost Sofar: { Type 0 };

    // Where nothing was read so far.
    ghost nothing: { Sofar };

    // What the whole rectangle is read as.
    ghost Read: { Type 0 };

    // What a rectangle of this width and height shows, where this was read.
    ghost picture: { ℕ → ℕ → Read → Map ℕ };

    ghost format_of: { Self → PixelFormat };

    ghost width: { Self → ℕ };

    ghost height: { Self → ℕ };

    // How reading goes on after what was read so far.
    ghost ahead: { Self → Sofar → Reading Read };

    // A canvas shows what it keeps of what was read so far.
    ghost Stands: { (ℕ → ℕ) → Self → Map ℕ → Sofar → Type 0 };

    /// A reader to which no byte has come, of a rectangle of `w` by `h` in a format.
    fn begin(w: u64, h: u64, format: Format) -> Self
        requires wide { w ≤ 65535 }
        requires high { h ≤ 65535 }
        ensures format { format_of result ≡ format }
        ensures width { width result ≡ w }
        ensures height { height result ≡ h }
        ensures begins { values_read w h (picture w h) (ahead result nothing)
            ≡ pixels encoding format w h }
        ensures stands { (keeps : ℕ → ℕ) (canvas : Map ℕ) → Stands keeps result canvas nothing };

    /// Whether the rectangle is read to its end. Then the canvas on which the reader drew shows the whole rectangle.
    fn whole(&self) -> bool
        ensures whole { (sofar : Sofar) → result ≡ is_some (whole_of (ahead self.now sofar)) }
        ensures shows { (keeps : ℕ → ℕ) (canvas : Map ℕ) (sofar : Sofar) (read : Read)
            → Stands keeps self.now canvas sofar
            → ahead self.now sofar ≡ Done read
            → LooksLike (width self.now) (height self.now) canvas
            (kept keeps (picture (width self.now) (height self.now) read)) };

    /// Whether another byte is wanted.
    fn is_open(&self) -> bool
        ensures { (sofar : Sofar) → result ≡ wants_more (ahead self.now sofar) };

    /// The fault at which it stands.
    fn fault(&self) -> Option<Fault>
        ensures { (sofar : Sofar) → result ≡ fault_of (ahead self.now sofar) };

    /// Takes bytes from the front of these, and answers how many. The reader keeps bytes only where they end too early
    /// to be drawn.
    fn step<C: Canvas>(&mut self, canvas: &mut C, bytes: &[u8]) -> usize
        requires more { (sofar : Sofar) → wants_more (ahead self.old sofar) ≡ true }
        requires some { 0 < length bytes.now }
        requires width { C.width canvas.old ≡ width self.old }
        requires height { C.height canvas.old ≡ height self.old }
        ensures some { 0 < result }
        ensures within { result ≤ length bytes.now }
        ensures format { format_of self.new ≡ format_of self.old }
        ensures width { width self.new ≡ width self.old }
        ensures height { height self.new ≡ height self.old }
        ensures across { C.width canvas.new ≡ C.width canvas.old }
        ensures down { C.height canvas.new ≡ C.height canvas.old }
        ensures stays { C.Stays canvas.old canvas.new }
        ensures drawn { (sofar : Sofar) → Stands C.keeps self.old (C.shows canvas.old) sofar
            → Steps ahead (Stands C.keeps) self.old self.new (C.shows canvas.new)
            (take result bytes.now) sofar };
}

/// Takes the next piece, up to the end of the rectangle, and draws it on a canvas of the rectangle's size. It answers
/// how many bytes it used. At the byte that shows a fault it answers that fault, which is final.
pub fn read_piece<R: CodecReader, C: Canvas>(
    reader: &mut R,
    canvas: &mut C,
    piece: &[u8],
) -> Result<usize, Fault>
    requires width { C.width canvas.old ≡ R.width reader.old }
    requires height { C.height canvas.old ≡ R.height reader.old }
    ensures format { R.format_of reader.new ≡ R.format_of reader.old }
    ensures width { R.width reader.new ≡ R.width reader.old }
    ensures height { R.height reader.new ≡ R.height reader.old }
    ensures across { C.width canvas.new ≡ C.width canvas.old }
    ensures down { C.height canvas.new ≡ C.height canvas.old }
    ensures stays { C.Stays canvas.old canvas.new }
    ensures within { IfOk result (λ used. used ≤ length piece.now) }
    ensures some { ((sofar : R.Sofar) → wants_more (R.ahead reader.old sofar) ≡ true)
        → 0 < length piece.now
        → IfOk result (λ used. 0 < used) }
    ensures fine { OnOk result ((sofar : R.Sofar) → fault_of (R.ahead reader.new sofar) ≡ None) }
    ensures drawn { (sofar : R.Sofar) → R.Stands C.keeps reader.old (C.shows canvas.old) sofar
        → Draws R.ahead (R.Stands C.keeps) reader.old reader.new (C.shows canvas.new)
        piece.now result sofar }
{
    let mut left = piece;
    while !left.is_empty() && reader.is_open() {
        let used = reader.step(canvas, left);
        let (_, rest) = left.split_at(used);
        left = rest;
    }
    match reader.fault() {
        Some(fault) => Err(fault),
        None => Ok(piece.len() - left.len()),
    }
}
