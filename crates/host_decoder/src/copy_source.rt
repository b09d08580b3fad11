//! The source of a CopyRect, in whatever pieces it comes (RFC 6143, section 7.7.2).

ghost use Rattle.std.specs.Prelude.{◌≡◌, ◌-◌, ◌<◌, ◌≤◌, ◌++◌, ◌==◌, [], List, false, length, min, take, IfOk};
ghost use Rattle.byte_reading.specs.Reading.{Reading};
ghost use Rattle.raster.specs.Screen.{Canvas, IsWithin};
ghost use Rattle.raster.specs.Update.{Paint};
ghost use Rattle.painter.specs.Painter.{IsAsLarge, IsPaintedOver};
ghost use Rattle.host_decoder.specs.Data.{CopyStands, Fed, IsSource};

use fault::Fault;
use painter::Painter;
use raster::Rect;
use rfb_wire::read_copy_source;
use std::marker::Model;

/// How many bytes a source has: x and y, in two bytes each.
const SOURCE_LEN: usize = 4;

/// The bytes of a source that have come.
#[derive(Drop)]
pub(crate) struct CopySource {
    bytes: [u8; SOURCE_LEN],
    filled: usize,
}

impl Model for CopySource {
    ghost use Rattle.std.specs.Prelude.{ℕ, List, take, ◌≤◌};

    ghost Value = { List ℕ };

    ghost view = { λ r. take r.filled r.bytes };

    ghost invariant = { λ r. r.filled ≤ 4 };
}

impl CopySource {
    /// A reader to which no byte has come.
    pub(crate) fn new() -> CopySource
        ensures { result ≡ [] }
    {
        CopySource {
            bytes: [0; SOURCE_LEN],
            filled: 0,
        }
    }

    /// Takes the bytes that are missing from the front of a piece, and answers how many.
    fn take_bytes(&mut self, piece: &[u8]) -> usize
        ensures count { result ≡ min (4 - length self.old) (length piece.now) }
        ensures bytes { self.new ≡ self.old ++ take result piece.now }
        ensures most { length self.new ≤ 4 }
    {
        let count = piece.len().min(SOURCE_LEN - self.filled);
        let end = self.filled + count;
        self.bytes[self.filled..end].copy_from_slice(&piece[..count]);
        self.filled = end;
        count
    }

    /// Whether all four bytes of the source have come.
    fn is_full(&self) -> bool
        ensures value { result ≡ (length self.now == 4) }
        ensures most { length self.now ≤ 4 }
    {
        self.filled == SOURCE_LEN
    }

    /// The source of a rectangle, once all of its bytes have come.
    fn source(&self, area: &Rect) -> Rect
        ensures value { length self.now ≡ 4 → IsSource area.now self.now result }
        ensures size { (result.w ≡ area.now.w) × (result.h ≡ area.now.h) }
        ensures most { length self.now ≤ 4 }
    {
        let (x, y) = read_copy_source(&self.bytes);
        Rect {
            x: u64::from(x),
            y: u64::from(y),
            w: area.w,
            h: area.h,
        }
    }

    /// Takes the next piece, up to the end of the source. Once all bytes of the source have come, the rectangle is
    /// copied. It answers how many bytes it used, and whether all have come.
    ///
    /// It fails with `CopyOutside` at the last byte of a source that leaves the screen.
    pub(crate) fn feed(
        &mut self,
        painter: &mut Painter,
        area: &Rect,
        piece: &[u8],
    ) -> Result<(usize, bool), Fault>
        requires { IsWithin area.now painter.old.width painter.old.height }
        ensures size { IsAsLarge painter.old painter.new }
        ensures within { IfOk result (λ fed. fed.0 ≤ length piece.now) }
        ensures some { length self.old < 4 → 0 < length piece.now → IfOk result (λ fed. 0 < fed.0) }
        ensures open_ { IfOk result (λ fed. fed.1 ≡ false → length self.new < 4) }
        ensures fed { (start : Canvas) (paints : List Paint) (reading : Reading Paint)
            → IsPaintedOver start paints painter.old
            → CopyStands painter.old.width painter.old.height area.now self.old reading
            → Fed (λ next. IsPaintedOver start paints painter.new
            × CopyStands painter.old.width painter.old.height area.now self.new next)
            start paints painter.new reading piece.now result }
    {
        let used = self.take_bytes(piece);
        if !self.is_full() {
            return Ok((used, false));
        }
        let source = self.source(area);
        let (width, height) = painter.size();
        if !source.within(width, height) {
            return Err(Fault::CopyOutside);
        }
        painter.copy(*area, source.x, source.y);
        Ok((used, true))
    }
}
