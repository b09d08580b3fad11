//! The pixels of a Raw rectangle, in whatever pieces they come, painted as they come (RFC 6143, section 7.7.1).

ghost use Rattle.std.specs.Prelude.{◌≡◌, ℕ, ◌+◌, ◌*◌, ◌<◌, ◌≤◌, ◌^◌, ◌⊎◌, ◌++◌, [], List, length, map, ⊤};
ghost use Rattle.std.specs.Int.{w32, from_le_bytes};
ghost use Rattle.byte_reading.specs.Reading.{Reading};
ghost use Rattle.raster.specs.declared.encoding.Encoding.TheVariants.{Raw};
ghost use Rattle.raster.specs.Update.{Paint};
ghost use Rattle.painter.specs.Drawing.{IsSameAround, drawn};
ghost use Rattle.host_decoder.specs.Data.{IsRawFor, RawStands, RawTakes, ShowsFirst};

use crate::rect_reader::RectReader;
use fault::Fault;
use painter::Painter;
use raster::{Canvas, Rect};
use std::marker::Model;

/// How many bytes a pixel of the host has.
const PIXEL_LEN: usize = 4;

/// A reader of the pixels of a rectangle. It holds no more than the bytes of one pixel that is begun.
#[derive(Drop)]
pub(crate) struct RawPixels {
    width: usize,
    count: usize,
    done: usize,
    begun: [u8; PIXEL_LEN],
    filled: usize,
}

impl Model for RawPixels {
    ghost use Rattle.std.specs.Prelude.{◌≡◌, ◌+◌, ◌*◌, ◌^◌, ◌<◌, ◌≤◌, take, length};
    ghost use Rattle.host_decoder.specs.DataParts.{RawProgress};

    ghost Value = { RawProgress };

    ghost view = { λ r.
        record { width = r.width; count = r.count; done = r.done; begun = take r.filled r.begun } };

    ghost invariant = { λ r. (length r.begun ≡ 4) × (r.filled < 4)
        × (r.filled + 4 * r.done ≤ 4 * r.count) × (r.count < 2 ^ 32) };
}

/// Puts pixels on the rectangle that is drawn on, after those that have come, row by row.
fn put_pixels(painter: &mut Painter, width: usize, done: usize, pixels: &[[u8; PIXEL_LEN]])
    requires width { width ≡ painter.old.area.w }
    requires within { done + length pixels.now ≤ painter.old.area.w * painter.old.area.h }
    requires small { painter.old.area.w * painter.old.area.h < 2 ^ 32 }
    ensures around { IsSameAround painter.old painter.new }
    ensures shows { (values : List ℕ) → length values ≡ done
        → ShowsFirst painter.old.area (drawn painter.old) values
        → ShowsFirst painter.old.area (drawn painter.new)
        (values ++ map (from_le_bytes w32) pixels.now) }
{
    let mut at = done;
    let mut left = pixels;
    while !left.is_empty() {
        let x = at % width;
        let (row, rest) = left.split_at(left.len().min(width - x));
        painter.put_bytes(x as u64, (at / width) as u64, row);
        at += row.len();
        left = rest;
    }
}

impl RawPixels {
    /// How many bytes are still to come.
    pub(crate) fn missing(&self) -> usize
        ensures left { length self.now.begun + result + 4 * self.now.done ≡ 4 * self.now.count }
        ensures begun { length self.now.begun < 4 }
    {
        (self.count - self.done) * PIXEL_LEN - self.filled
    }

    /// How many of the bytes belong to the pixel that is begun, if one is.
    fn first_len(&self, bytes: &[u8]) -> usize
        ensures most { result ≤ length bytes.now }
        ensures pixel { length self.now.begun + result ≤ 4 }
        ensures ends { result < length bytes.now
            → (length self.now.begun + result ≡ 0) ⊎ (length self.now.begun + result ≡ 4) }
    {
        if self.filled == 0 {
            0
        } else {
            bytes.len().min(PIXEL_LEN - self.filled)
        }
    }

    /// Takes bytes that end no later than the pixel that is begun.
    fn take_bytes(&mut self, painter: &mut Painter, bytes: &[u8])
        requires fits { IsRawFor painter.old.area self.old }
        requires pixel { length self.old.begun + length bytes.now ≤ 4 }
        requires missing { length self.old.begun + length bytes.now + 4 * self.old.done
            ≤ 4 * self.old.count }
        ensures fits { IsRawFor painter.old.area self.new }
        ensures around { IsSameAround painter.old painter.new }
        ensures takes { (reading : Reading Paint)
            → RawStands painter.old.area self.old (drawn painter.old) reading
            → RawTakes painter.old.area self.new (drawn painter.new) reading bytes.now }
        ensures more { length self.new.begun + 4 * self.new.done
            ≡ length self.old.begun + 4 * self.old.done + length bytes.now }
        ensures begun { length self.new.begun < 4 }
    {
        let end = self.filled + bytes.len();
        if bytes.is_empty() {
            return;
        }
        self.begun[self.filled..end].copy_from_slice(bytes);
        self.filled = end;
        if end == PIXEL_LEN {
            put_pixels(painter, self.width, self.done, &[self.begun]);
            self.filled = 0;
            self.done += 1;
        }
    }

    /// Takes whole pixels, where none is begun.
    fn take_pixels(&mut self, painter: &mut Painter, pixels: &[[u8; PIXEL_LEN]])
        requires fits { IsRawFor painter.old.area self.old }
        requires begun { self.old.begun ≡ [] }
        requires missing { length pixels.now + self.old.done ≤ self.old.count }
        ensures same { self.new ≡ record self.old { done = self.old.done + length pixels.now } }
        ensures around { IsSameAround painter.old painter.new }
        ensures shows { (values : List ℕ) → length values ≡ self.old.done
            → ShowsFirst painter.old.area (drawn painter.old) values
            → ShowsFirst painter.old.area (drawn painter.new)
            (values ++ map (from_le_bytes w32) pixels.now) }
    {
        put_pixels(painter, self.width, self.done, pixels);
        self.done += pixels.len();
    }

    /// Takes all of these bytes. They have to end no later than the rectangle.
    pub(crate) fn take_all(&mut self, painter: &mut Painter, bytes: &[u8])
        requires fits { IsRawFor painter.old.area self.old }
        requires missing { length self.old.begun + length bytes.now + 4 * self.old.done
            ≤ 4 * self.old.count }
        ensures fits { IsRawFor painter.old.area self.new }
        ensures around { IsSameAround painter.old painter.new }
        ensures takes { (reading : Reading Paint)
            → RawStands painter.old.area self.old (drawn painter.old) reading
            → RawTakes painter.old.area self.new (drawn painter.new) reading bytes.now }
        ensures more { length self.new.begun + 4 * self.new.done
            ≡ length self.old.begun + 4 * self.old.done + length bytes.now }
        ensures begun { length self.new.begun < 4 }
    {
        let (first, rest) = bytes.split_at(self.first_len(bytes));
        self.take_bytes(painter, first);
        if rest.is_empty() {
            return;
        }
        let (pixels, last) = rest.as_chunks::<PIXEL_LEN>();
        self.take_pixels(painter, pixels);
        self.take_bytes(painter, last);
    }
}

impl RectReader for RawPixels {
    ghost encoding = { Raw };

    ghost IsFor = { IsRawFor };

    ghost IsFine = { λ _. ⊤ };

    ghost IsWanting = { λ p. p.done < p.count };

    ghost Stands = { RawStands };

    fn of(area: &Rect) -> RawPixels {
        RawPixels {
            width: area.w as usize,
            count: (area.w * area.h) as usize,
            done: 0,
            begun: [0; PIXEL_LEN],
            filled: 0,
        }
    }

    /// Takes the next piece, up to the end of the pixels, and answers how many bytes it used. It never fails.
    fn feed(&mut self, painter: &mut Painter, piece: &[u8]) -> Result<usize, Fault> {
        let used = piece.len().min(self.missing());
        self.take_all(painter, &piece[..used]);
        Ok(used)
    }

    fn is_whole(&self) -> bool {
        self.done == self.count
    }
}
