//! Reads a rectangle in an encoding of a codec, RRE or Hextile, in whatever pieces it comes (RFC 6143, sections 7.7.3
//! and 7.7.4).

ghost use Rattle.std.specs.Prelude.{◌≡◌, true, None};
ghost use Rattle.byte_reading.specs.Reading.{fault_of, wants_more};
ghost use Rattle.host_decoder.specs.Data.{IsCodecFor, CodecStands};
ghost use Rattle.host_decoder.specs.Updates.{colour_of};

use crate::rect_reader::RectReader;
use fault::Fault;
use painter::Painter;
use pixel_format::Format;
use raster::{CodecReader, Rect, read_piece};

impl<R: CodecReader> RectReader for R {
    ghost encoding = { R.encoding };

    ghost IsFor = { IsCodecFor R.width R.height };

    ghost IsFine = { λ p. (sofar : R.Sofar) → fault_of (R.ahead p sofar) ≡ None };

    ghost IsWanting = { λ p. (sofar : R.Sofar) → wants_more (R.ahead p sofar) ≡ true };

    ghost Stands = { CodecStands R.width R.height R.picture R.ahead (R.Stands colour_of) };

    fn of(area: &Rect) -> R {
        R::begin(area.w, area.h, Format::host())
    }

    /// It fails with `SubrectOutside` at the last byte of a subrectangle that leaves the rectangle or, in Hextile, its
    /// tile. It fails with `NoBackground` or `NoForeground` at the mask of a tile that lacks that colour, where none is
    /// carried over.
    fn feed(&mut self, painter: &mut Painter, piece: &[u8]) -> Result<usize, Fault> {
        read_piece(self, painter, piece)
    }

    fn is_whole(&self) -> bool {
        self.whole()
    }
}
