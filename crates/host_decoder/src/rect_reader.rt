//! Readers of the pixels of one rectangle, which paint them as they come.

ghost use Rattle.std.specs.Prelude.{◌≡◌, ◌<◌, ◌≤◌, List, false, length, is_some, IfOk, OnOk, IsFalse};
ghost use Rattle.pixel_format.specs.PixelFormat.{host_format};
ghost use Rattle.byte_reading.specs.Reading.{Reading, Done, after, whole_of};
ghost use Rattle.raster.specs.declared.encoding.Encoding.{Encoding};
ghost use Rattle.raster.specs.declared.rect.Rect as rect;
ghost use Rattle.raster.specs.Encoding.{pixels};
ghost use Rattle.raster.specs.Screen.{Canvas, part_of};
ghost use Rattle.raster.specs.Update.{Paint};
ghost use Rattle.painter.specs.Drawing.{IsPaintedAround, IsSameAround, drawn};
ghost use Rattle.painter.specs.Painter.{IsAsLarge, worked};
ghost use Rattle.host_decoder.specs.Data.{putting, Fed, FedAs, IsDrawnAs};

use fault::Fault;
use painter::Painter;
use raster::Rect;

/// A reader of a rectangle's pixels, in whatever pieces they come, in one encoding. It draws them on the rectangle that
/// a painter draws on, and takes no memory.
pub(crate) trait RectReader {
    // The encoding whose pixels it reads.
    ghost encoding: { Encoding };

    // It reads a rectangle of this size.
    ghost IsFor: { rect.Rect → Self → Type 0 };

    // It stands at no fault.
    ghost IsFine: { Self → Type 0 };

    // Another byte is wanted.
    ghost IsWanting: { Self → Type 0 };

    // It stands for a reading of the paint of a rectangle, which shows what has come of it.
    ghost Stands: { rect.Rect → Self → Canvas → Reading Paint → Type 0 };

    /// A reader to which no byte has come.
    fn of(area: &Rect) -> Self
        requires wide { area.now.w ≤ 4096 }
        requires high { area.now.h ≤ 4096 }
        ensures fits { IsFor area.now result }
        ensures stands { (canvas : Canvas)
            → Stands area.now result canvas
            (putting area.now (pixels encoding host_format area.now.w area.now.h)) };

    /// Takes the next piece, up to the end of the rectangle, draws what it says, and answers how many bytes it used, or
    /// the fault, which is final.
    fn feed(&mut self, painter: &mut Painter, piece: &[u8]) -> Result<usize, Fault>
        requires { IsFor painter.old.area self.old }
        ensures fits { IsFor painter.old.area self.new }
        ensures around { IsSameAround painter.old painter.new }
        ensures within { IfOk result (λ used. used ≤ length piece.now) }
        ensures some { IsWanting self.old → 0 < length piece.now → IfOk result (λ used. 0 < used) }
        ensures fine { OnOk result (IsFine self.new) }
        ensures fed { (reading : Reading Paint)
            → Stands painter.old.area self.old (drawn painter.old) reading
            → Stands painter.old.area self.new (drawn painter.new) (after reading piece.now)
            × FedAs reading piece.now result };

    /// Whether the rectangle is read to its end.
    fn is_whole(&self) -> bool
        ensures whole { (area : rect.Rect) (canvas : Canvas) (reading : Reading Paint)
            → Stands area self.now canvas reading
            → result ≡ is_some (whole_of reading) }
        ensures drawn { (area : rect.Rect) (canvas : Canvas) (painted : Paint)
            → Stands area self.now canvas (Done painted)
            → IsDrawnAs area canvas painted }
        ensures open_ { IsFalse result → IsFine self.now → IsWanting self.now };
}

/// Takes the next piece of a rectangle, up to its end, and paints what it says. It answers how many bytes it used, and
/// whether the rectangle is whole; a whole one is one more paint. Or it answers the fault.
pub(crate) fn paint_pixels<R: RectReader>(
    reader: &mut R,
    painter: &mut Painter,
    piece: &[u8],
) -> Result<(usize, bool), Fault>
    requires { R.IsFor painter.old.area reader.old }
    ensures fits { R.IsFor painter.old.area reader.new }
    ensures size { IsAsLarge painter.old painter.new }
    ensures within { IfOk result (λ fed. fed.0 ≤ length piece.now) }
    ensures some { R.IsWanting reader.old → 0 < length piece.now → IfOk result (λ fed. 0 < fed.0) }
    ensures open_ { IfOk result (λ fed. fed.1 ≡ false → R.IsWanting reader.new) }
    ensures fed { (start : Canvas) (paints : List Paint) (reading : Reading Paint)
        → IsPaintedAround start paints painter.old.area painter.old
        → R.Stands painter.old.area reader.old (drawn painter.old) reading
        → Fed (λ next. IsPaintedAround start paints painter.old.area painter.new
        × R.Stands painter.old.area reader.new (part_of painter.old.area (worked painter.new)) next)
        start paints painter.new reading piece.now result }
{
    let used = reader.feed(painter, piece)?;
    let whole = reader.is_whole();
    if whole {
        painter.end_drawing();
    }
    Ok((used, whole))
}
