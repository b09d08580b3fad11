//! A screen of 1920 by 1080, and patches for it.

ghost use Rattle.std.specs.Prelude.{◌≡◌, IfOk};
ghost use Rattle.raster.specs.Screen.{IsWithin};

use fault::Fault;
use painter::{Painter, Patch};
use raster::Rect;
use reflect_core::{Cut, Puts, ScreenSource};
use std::alloc::Global;
use std::time::{Clock, Instant};
use tiles::Have;

pub const ALL: Rect = Rect {
    x: 0,
    y: 0,
    w: 1920,
    h: 1080,
};

pub const TILE: Rect = Rect {
    x: 640,
    y: 320,
    w: 16,
    h: 16,
};

/// A screen that patches are painted on, as a host's reader has, and room for the colours of one patch.
#[derive(Drop)]
pub struct Brush {
    painter: Painter,
    colours: Vec<u32>,
    pub ghost painter_is: { (painter.width ≡ 1920) × (painter.height ≡ 1080) },
}

impl Brush {
    pub fn new(alloc: Global) -> Result<Brush, Fault> {
        let painter = Painter::new(alloc, 1920, 1080)?;
        let colours = Vec::with_capacity(alloc, 1920 * 1080)?;
        Ok(Brush { painter, colours })
    }

    /// One colour on a rectangle.
    pub fn painted(&mut self, area: Rect, colour: u32) -> Result<Patch, Fault>
        requires { IsWithin area 1920 1080 }
        ensures { IfOk result (λ patch. (patch.width ≡ 1920) × (patch.height ≡ 1080)) }
    {
        self.colours.clear();
        self.colours.resize((area.w * area.h) as usize, colour)?;
        self.painter.put(area, self.colours.as_slice());
        self.painter.patch()
    }
}

/// The time in nanoseconds of one put of this colour on a rectangle, if it was taken. The patch was made before, and its
/// room is given back within.
pub fn put<P: Puts, R: Clock>(
    rt: &R,
    brush: &mut Brush,
    puts: &mut P,
    area: Rect,
    colour: u32,
) -> Option<u128>
    requires area { IsWithin area 1920 1080 }
    requires screen { (P.width puts.old ≡ 1920) × (P.height puts.old ≡ 1080) }
    ensures { (P.width puts.new ≡ 1920) × (P.height puts.new ≡ 1080) }
{
    let patch = brush.painted(area, colour).ok()?;
    let start = Instant::now(rt).ok()?;
    let put = puts.put(patch);
    let time = start.elapsed(rt).ok()?.as_nanos();
    if put.is_ok() { Some(time) } else { None }
}

/// Room for a cut, and what a viewer has.
#[derive(Drop)]
pub struct Room {
    pub have: Have,
    pub cut: Cut,
    pub ghost have_is: { (have.width ≡ 1920) × (have.height ≡ 1080) },
    pub ghost cut_is: { (cut.width ≡ 1920) × (cut.height ≡ 1080) },
}

impl Room {
    /// Nothing was sent.
    pub fn new(alloc: Global) -> Result<Room, Fault> {
        let have = Have::new(alloc, 1920, 1080)?;
        let cut = Cut::new(alloc, 1920, 1080)?;
        Ok(Room { have, cut })
    }

    /// The whole screen was sent at the last cut.
    pub fn keep_all(&mut self) {
        let number = self.cut.number;
        self.have.keep(&ALL, None, number);
    }
}

/// The time in nanoseconds of one cut of the whole screen, if it was had.
pub fn cut<S: ScreenSource, R: Clock>(rt: &R, source: &mut S, room: &mut Room) -> Option<u128>
    requires { (S.width source.old ≡ 1920) × (S.height source.old ≡ 1080) }
    ensures { (S.width source.new ≡ 1920) × (S.height source.new ≡ 1080) }
{
    let start = Instant::now(rt).ok()?;
    let cut = source.cut(&ALL, &room.have, None, &mut room.cut);
    let time = start.elapsed(rt).ok()?.as_nanos();
    if cut.is_ok() { Some(time) } else { None }
}
