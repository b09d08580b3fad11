//! The data of one rectangle of a host, in whatever pieces it comes, painted as it comes (RFC 6143, section 7.7).

ghost use Rattle.std.specs.Prelude.{◌≡◌, ◌≢◌, ◌<◌, ◌≤◌, List, Ok, false, length, IfOk, IfErr, IsFalse, IsTrue};
ghost use Rattle.pixel_format.specs.PixelFormat.{host_format};
ghost use Rattle.byte_reading.specs.Reading.{Reading, Faulty};
ghost use Rattle.fault.specs.declared.kinds.Fault.TheVariants.{UnknownEncoding};
ghost use Rattle.raster.specs.Screen.{Canvas, IsWithin};
ghost use Rattle.raster.specs.Size.{IsScreenSize};
ghost use Rattle.raster.specs.Update.{Paint};
ghost use Rattle.painter.specs.Painter.{IsAsLarge, IsPaintedOver, Painting};
ghost use Rattle.rfb_wire.specs.ClientMessage.{desktop_size};
ghost use Rattle.rfb_wire.specs.ServerMessage.{data_of};
ghost use Rattle.host_decoder.specs.Data.{DataStands, Fed, IsSameArea, IsWanting};

use crate::body::Body;
use crate::copy_source::CopySource;
use crate::raw_data::RawPixels;
use crate::rect_reader::{RectReader, paint_pixels};
use fault::Fault;
use hextile_codec::Reader as HextileReader;
use painter::Painter;
use raster::{COPY_RECT, Encoding, Rect};
use rre_codec::Reader as RreReader;
use std::marker::Model;

/// A reader of the data of one rectangle, which paints them as they come. It takes no memory.
#[derive(Drop)]
pub(crate) struct Data {
    width: u64,
    height: u64,
    area: Rect,
    body: Body,
}

impl Model for Data {
    ghost use Rattle.raster.specs.Screen.{IsWithin};
    ghost use Rattle.host_decoder.specs.Data.{DataProgress, IsBodyFor};

    ghost Value = { DataProgress };

    ghost view = { λ r.
        record { width = r.width; height = r.height; area = r.area; body = r.body } };

    ghost invariant = { λ r. IsWithin r.area r.width r.height × IsBodyFor r.area r.body };
}

impl Data {
    /// A reader to which no byte has come, of the data of the rectangle `area` in an encoding, on a screen of `width`
    /// by `height` pixels.
    ///
    /// It fails with `UnknownEncoding` for any but Raw, CopyRect, RRE and Hextile. A new size has no data.
    pub(crate) fn new(width: u64, height: u64, area: Rect, encoding: u32) -> Result<Data, Fault>
        requires size { IsScreenSize width height }
        requires within { IsWithin area width height }
        requires data { encoding ≢ desktop_size }
        ensures stands { IfOk result (λ d.
            (start : Canvas) (paints : List Paint) (painter : Painting)
            → IsPaintedOver start paints painter
            → DataStands d start paints painter (data_of host_format width height area encoding)) }
        ensures width { IfOk result (λ d. d.width ≡ width) }
        ensures height { IfOk result (λ d. d.height ≡ height) }
        ensures area { IfOk result (λ d. d.area ≡ area) }
        ensures err { IfErr result (λ fault. (fault ≡ UnknownEncoding)
            × (data_of host_format width height area encoding ≡ Faulty UnknownEncoding)) }
    {
        let body = match Encoding::of_number(encoding) {
            Some(Encoding::Raw) => Body::Raw(RawPixels::of(&area)),
            Some(Encoding::Rre) => Body::Rre(RreReader::of(&area)),
            Some(Encoding::Hextile) => Body::Hextile(HextileReader::of(&area)),
            None if encoding == COPY_RECT => Body::Copy(CopySource::new()),
            None => return Err(Fault::UnknownEncoding),
        };
        Ok(Data {
            width,
            height,
            area,
            body,
        })
    }

    /// Takes all of a piece that ends inside the pixels of a Raw rectangle, and paints it. For any other it answers
    /// `false`, and nothing changes. It takes no memory.
    pub(crate) fn feed_raw(&mut self, painter: &mut Painter, piece: &[u8]) -> bool
        requires width { self.old.width ≡ painter.old.width }
        requires height { self.old.height ≡ painter.old.height }
        ensures area { IsSameArea self.old self.new }
        ensures size { IsAsLarge painter.old painter.new }
        ensures open_ { IsTrue result → IsWanting self.new }
        ensures fed { IsTrue result
            → (start : Canvas) (paints : List Paint) (reading : Reading Paint)
            → DataStands self.old start paints painter.old reading
            → Fed (DataStands self.new start paints painter.new) start paints painter.new reading
            piece.now (Ok (length piece.now, false)) }
        ensures others { IsFalse result → (self.new ≡ self.old) × (painter.new ≡ painter.old) }
    {
        let Body::Raw(raw) = &mut self.body else {
            return false;
        };
        if raw.missing() <= piece.len() {
            return false;
        }
        painter.draw_on(self.area);
        raw.take_all(painter, piece);
        true
    }

    /// Takes the next piece, up to the end of the rectangle, and paints what it says. It answers how many bytes it
    /// used, and whether the rectangle is whole. It takes no memory.
    ///
    /// It fails with `SubrectOutside`, `NoBackground`, `NoForeground` or `CopyOutside` at the byte that shows the
    /// fault. The painter's screen may then show a part of the rectangle, and is useless from then on.
    pub(crate) fn feed(
        &mut self,
        painter: &mut Painter,
        piece: &[u8],
    ) -> Result<(usize, bool), Fault>
        requires width { self.old.width ≡ painter.old.width }
        requires height { self.old.height ≡ painter.old.height }
        ensures area { IsSameArea self.old self.new }
        ensures size { IsAsLarge painter.old painter.new }
        ensures within { IfOk result (λ fed. fed.0 ≤ length piece.now) }
        ensures some { IsWanting self.old → 0 < length piece.now → IfOk result (λ fed. 0 < fed.0) }
        ensures open_ { IfOk result (λ fed. fed.1 ≡ false → IsWanting self.new) }
        ensures fed { (start : Canvas) (paints : List Paint) (reading : Reading Paint)
            → DataStands self.old start paints painter.old reading
            → Fed (DataStands self.new start paints painter.new) start paints painter.new
            reading piece.now result }
    {
        painter.draw_on(self.area);
        match &mut self.body {
            Body::Raw(raw) => paint_pixels(raw, painter, piece),
            Body::Copy(source) => source.feed(painter, &self.area, piece),
            Body::Rre(rre) => paint_pixels(rre, painter, piece),
            Body::Hextile(hextile) => paint_pixels(hextile, painter, piece),
        }
    }
}
