//! A viewer that decodes what it is sent, by RFC 6143 alone. It shares no code with what is tested.

use std::alloc::{AllocError, Global};

/// The colour of a position of which nothing is known.
pub(crate) const UNKNOWN: u64 = u64::MAX;

/// A pixel format: the bytes of a pixel, whether the highest comes first, and the maximum and the shift of red, green
/// and blue (RFC 6143, 7.4).
pub(crate) struct Format {
    pub(crate) bytes: u64,
    pub(crate) is_big: bool,
    pub(crate) maxima: [u64; 3],
    pub(crate) shifts: [u32; 3],
}

/// An area of a screen.
#[derive(Clone, Copy)]
pub(crate) struct Area {
    pub(crate) x: u64,
    pub(crate) y: u64,
    pub(crate) w: u64,
    pub(crate) h: u64,
}

impl Format {
    /// A colour as a pixel.
    pub(crate) fn tint(&self, colour: u64) -> u64 {
        let [red, green, blue] = self.maxima;
        let [at_red, at_green, at_blue] = self.shifts;
        let red = part(colour / 65536, red).wrapping_shl(at_red);
        let green = part(colour / 256, green).wrapping_shl(at_green);
        let blue = part(colour, blue).wrapping_shl(at_blue);
        red.wrapping_add(green).wrapping_add(blue)
    }
}

/// The last eight bits, made to fit the maximum and rounded.
fn part(colour: u64, maximum: u64) -> u64 {
    (colour % 256).wrapping_mul(maximum).wrapping_add(127) / 255
}

/// Bytes that are read, pixels of them in this format. Past their end 0 is read.
#[derive(Drop)]
struct Bytes<'a> {
    left: &'a [u8],
    format: &'a Format,
    /// Whether it was read past the end, or what was read is nothing that a viewer can follow.
    is_wrong: bool,
}

impl Bytes<'_> {
    /// The next byte.
    fn byte(&mut self) -> u64 {
        match self.left.split_first() {
            Some((first, left)) => {
                self.left = left;
                u64::from(*first)
            }
            None => {
                self.is_wrong = true;
                0
            }
        }
    }

    /// A number of this many bytes, the highest first.
    fn number(&mut self, count: u64) -> u64 {
        let mut number: u64 = 0;
        for _ in 0..count {
            number = number.wrapping_mul(256).wrapping_add(self.byte());
        }
        number
    }

    /// A number of this many bytes, the lowest first.
    fn lowest_first(&mut self, count: u64) -> u64 {
        let mut number: u64 = 0;
        let mut unit: u64 = 1;
        for _ in 0..count {
            number = number.wrapping_add(self.byte().wrapping_mul(unit));
            unit = unit.wrapping_mul(256);
        }
        number
    }

    fn pixel(&mut self) -> u64 {
        if self.format.is_big {
            self.number(self.format.bytes)
        } else {
            self.lowest_first(self.format.bytes)
        }
    }

    /// A rectangle's position and size.
    fn area(&mut self) -> Area {
        let x = self.number(2);
        let y = self.number(2);
        let w = self.number(2);
        let h = self.number(2);
        Area { x, y, w, h }
    }
}

/// What an area is painted with.
#[derive(Clone, Copy)]
enum Source {
    /// One colour all over.
    Colour(u64),
    /// The pixels that come next, row after row.
    Pixels,
    /// What is held from this position on.
    Held(u64, u64),
}

/// In which encodings rectangles came, or have to come.
#[derive(Clone, Copy)]
pub(crate) struct CameEncodings {
    pub(crate) raw: bool,
    pub(crate) copy: bool,
    pub(crate) rre: bool,
    pub(crate) hextile: bool,
}

impl CameEncodings {
    /// None of them.
    pub(crate) const NONE: CameEncodings = CameEncodings {
        raw: false,
        copy: false,
        rre: false,
        hextile: false,
    };
}

/// What a viewer holds of a screen, and in which encodings it came.
#[derive(Drop)]
pub(crate) struct Follower {
    width: u64,
    held: Vec<u64>,
    /// Whether what is read is held. Otherwise it is only read.
    is_held: bool,
    /// The encodings in which rectangles came.
    pub(crate) came: CameEncodings,
}

impl Follower {
    /// It holds no screen.
    pub(crate) fn new(alloc: Global) -> Follower {
        Follower {
            width: 0,
            held: Vec::new(alloc),
            is_held: false,
            came: CameEncodings::NONE,
        }
    }

    /// It holds a screen of this size, of which nothing is known.
    pub(crate) fn begin(&mut self, w: u64, h: u64) -> Result<(), AllocError> {
        self.width = w;
        self.held.resize(w.wrapping_mul(h) as usize, UNKNOWN)
    }

    /// What is held at a position.
    pub(crate) fn at(&self, x: u64, y: u64) -> u64 {
        let index = y.wrapping_mul(self.width).wrapping_add(x) as usize;
        match self.held.get(index) {
            Some(value) if x < self.width => *value,
            _ => UNKNOWN,
        }
    }

    fn set(&mut self, x: u64, y: u64, value: u64) {
        let index = y.wrapping_mul(self.width).wrapping_add(x) as usize;
        let is_inside = x < self.width && index < self.held.len();
        if self.is_held && is_inside {
            self.held[index] = value;
        }
    }

    fn paint_row(&mut self, bytes: &mut Bytes, area: Area, row: u64, source: Source) {
        for column in 0..area.w {
            let value = match source {
                Source::Colour(colour) => colour,
                Source::Pixels => bytes.pixel(),
                Source::Held(x, y) => self.at(x.wrapping_add(column), y.wrapping_add(row)),
            };
            self.set(area.x.wrapping_add(column), area.y.wrapping_add(row), value);
        }
    }

    fn paint(&mut self, bytes: &mut Bytes, area: Area, source: Source) {
        for row in 0..area.h {
            if !bytes.is_wrong {
                self.paint_row(bytes, area, row, source);
            }
        }
    }

    /// A background, and rectangles on it (7.7.3).
    fn rre(&mut self, bytes: &mut Bytes, area: Area) {
        let count = bytes.number(4).min(bytes.left.len() as u64);
        let background = bytes.pixel();
        self.paint(bytes, area, Source::Colour(background));
        for _ in 0..count {
            let value = bytes.pixel();
            let part = bytes.area();
            self.paint(bytes, part.from(area), Source::Colour(value));
        }
    }

    /// The rectangles on a tile, each of its own colour or of this one.
    fn parts(&mut self, bytes: &mut Bytes, tile: Area, is_coloured: bool, foreground: u64) {
        for _ in 0..bytes.byte() {
            let value = if is_coloured {
                bytes.pixel()
            } else {
                foreground
            };
            let place = bytes.byte();
            let size = bytes.byte();
            let part = Area {
                x: place / 16,
                y: place % 16,
                w: (size / 16).wrapping_add(1),
                h: (size % 16).wrapping_add(1),
            };
            self.paint(bytes, part.from(tile), Source::Colour(value));
        }
    }

    /// A tile of Hextile, over the background and the foreground of those before it. It answers those that are left.
    fn tile(&mut self, bytes: &mut Bytes, tile: Area, colours: (u64, u64)) -> (u64, u64) {
        let (mut background, mut foreground) = colours;
        let mask = bytes.byte();
        if mask % 2 == 1 {
            self.paint(bytes, tile, Source::Pixels);
            return colours;
        }
        if mask / 2 % 2 == 1 {
            background = bytes.pixel();
        }
        if mask / 4 % 2 == 1 {
            foreground = bytes.pixel();
        }
        self.paint(bytes, tile, Source::Colour(background));
        if mask / 8 % 2 == 1 {
            self.parts(bytes, tile, mask / 16 % 2 == 1, foreground);
        }
        (background, foreground)
    }

    /// A row of tiles, each 16 wide but the last (7.7.4).
    fn tiles(&mut self, bytes: &mut Bytes, row: Area, colours: (u64, u64)) -> (u64, u64) {
        let mut colours = colours;
        for number in 0..row.w.wrapping_add(15) / 16 {
            let from = number.wrapping_mul(16);
            let tile = Area {
                x: row.x.wrapping_add(from),
                y: row.y,
                w: row.w.wrapping_sub(from).min(16),
                h: row.h,
            };
            colours = self.tile(bytes, tile, colours);
        }
        colours
    }

    fn hextile(&mut self, bytes: &mut Bytes, area: Area) {
        let mut colours = (UNKNOWN, UNKNOWN);
        for number in 0..area.h.wrapping_add(15) / 16 {
            let from = number.wrapping_mul(16);
            let row = Area {
                x: area.x,
                y: area.y.wrapping_add(from),
                w: area.w,
                h: area.h.wrapping_sub(from).min(16),
            };
            colours = self.tiles(bytes, row, colours);
        }
    }

    /// One rectangle (7.6.1), Raw, as a copy of another area of the screen (7.7.2), which has to lie apart, or in one
    /// of two more encodings.
    fn rectangle(&mut self, bytes: &mut Bytes) {
        let area = bytes.area();
        match bytes.number(4) {
            0 => {
                self.came.raw |= self.is_held;
                self.paint(bytes, area, Source::Pixels);
            }
            1 => {
                self.came.copy |= self.is_held;
                let x = bytes.number(2);
                let y = bytes.number(2);
                self.paint(bytes, area, Source::Held(x, y));
            }
            2 => {
                self.came.rre |= self.is_held;
                self.rre(bytes, area);
            }
            5 => {
                self.came.hextile |= self.is_held;
                self.hextile(bytes, area);
            }
            _ => bytes.is_wrong = true,
        }
    }

    /// Reads one FramebufferUpdate at the front of these bytes (7.6.1). It answers how many bytes it has, if it is
    /// whole.
    fn update(&mut self, bytes: &[u8], format: &Format) -> Option<usize> {
        let mut bytes = Bytes {
            left: bytes,
            format,
            is_wrong: false,
        };
        let whole = bytes.left.len();
        bytes.is_wrong = bytes.number(2) != 0 || bytes.is_wrong;
        for _ in 0..bytes.number(2) {
            if !bytes.is_wrong {
                self.rectangle(&mut bytes);
            }
        }
        if bytes.is_wrong {
            None
        } else {
            Some(whole.saturating_sub(bytes.left.len()))
        }
    }

    /// Follows one whole FramebufferUpdate at the front of these bytes, and answers how many bytes it has. Where there
    /// is no whole one, nothing is followed.
    pub(crate) fn follow(&mut self, bytes: &[u8], format: &Format) -> Option<usize> {
        self.is_held = false;
        if self.update(bytes, format).is_none() {
            return None;
        }
        self.is_held = true;
        self.update(bytes, format)
    }
}

impl Area {
    /// The area, as it lies from the position of the other.
    fn from(self, other: Area) -> Area {
        Area {
            x: other.x.wrapping_add(self.x),
            y: other.y.wrapping_add(self.y),
            w: self.w,
            h: self.h,
        }
    }
}
