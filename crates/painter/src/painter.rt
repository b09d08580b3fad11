//! A screen that an update is painted on as it comes, and the patch of the tiles that it touched (RFC 6143, 7.6.1).

ghost use Rattle.std.specs.Prelude.{◌≡◌, ℕ, ◌*◌, ◌<◌, ◌≤◌, ◌^◌, List, [], ◌∷◌, ◌++◌, length, slice_index, IfOk, IfErr, OnOk};
ghost use Rattle.painter.specs.Copies.{leading_copies};
ghost use Rattle.painter.specs.Patch.{tile_area};
ghost use Rattle.painter.specs.Same.{AreSameUpdates};
ghost use Rattle.painter.specs.Drawing.{IsPaintedAround, drawn};
ghost use Rattle.painter.specs.Painter.{IsAsLarge, IsPaintedOver, colours_in, colours_of, is_touched, tile_puts, touched_below, worked};
ghost use Rattle.fault.specs.declared.kinds.Fault.TheVariants.{Memory};
ghost use Rattle.raster.specs.Painted.{Fits, paint_of};
ghost use Rattle.raster.specs.Picture.{Picture, shown};
ghost use Rattle.raster.specs.Screen.{Canvas, IsWithin, LooksLike, opening, tile_count, tile_rect, value_at};
ghost use Rattle.raster.specs.Size.{IsScreenSize};
ghost use Rattle.raster.specs.Switch.{switch, switch_to};
ghost use Rattle.raster.specs.Update as update;
ghost use Rattle.std.specs.List.{flat_map, sum_by};

use crate::patch::Patch;
use copy_log::{CopyRect, MOST_COPIES};
use fault::Fault;
use raster::{Paint, Raster, Rect, Size, tile_count, tile_rect};
use std::alloc::Global;
use std::marker::Model;
use tiles::Grid;

/// What the grid says of a tile that the update has touched, and of one that it hasn't.
const TOUCHED: u64 = 1;

const UNTOUCHED: u64 = 0;

/// The host's screen as all bytes so far left it, the copies that the update which is being read began with, and the
/// tiles that its other paints have touched.
#[derive(Drop)]
pub struct Painter {
    pub(crate) raster: Raster,
    touched: Grid,
    /// The rectangle that is drawn on.
    pub(crate) area: Rect,
    /// The new size that the update has told.
    told: Option<Size>,
    /// The copies that the update began with. The room for them is kept.
    copies: Vec<CopyRect>,
    /// Whether one copy more would be one of these: no other paint came, and there are fewer than a patch keeps.
    leads: bool,
    alloc: Global,
}

impl Model for Painter {
    ghost use Rattle.std.specs.Prelude.{◌≡◌, ◌<◌, ◌≤◌, true, length, vec_capacity};
    ghost use Rattle.copy_log.specs.Notes.{paints};
    ghost use Rattle.raster.specs.Screen.{IsWithin};
    ghost use Rattle.raster.specs.Size.{IsScreenSize};
    ghost use Rattle.painter.specs.Copies.{AreCopies};
    ghost use Rattle.painter.specs.Painter.{Painting};
    ghost use Rattle.painter.specs.Patch.{IsWithinScreen};
    ghost use Rattle.copy_log.specs.declared.note.TheConstants.{MOST_COPIES};

    ghost Value = { Painting };

    ghost view = { λ s. record {
      width = s.raster.width;
      height = s.raster.height;
      colours = s.raster.colours;
      copies = paints s.copies.items;
      leads = s.leads;
      marks = s.touched.stamps;
      area = s.area;
      told = s.told;
    } };

    ghost invariant = { λ s. IsScreenSize s.raster.width s.raster.height
        × (s.touched.width ≡ s.raster.width) × (s.touched.height ≡ s.raster.height)
        × IsWithin s.area s.raster.width s.raster.height
        × IsWithinScreen s.raster.width s.raster.height s.told
        × AreCopies s.raster.width s.raster.height s.copies.items
        × (s.leads ≡ true → length s.copies.items < MOST_COPIES)
        × (MOST_COPIES ≤ vec_capacity s.copies) };
}

/// Adds the colours of a rectangle of a raster, row after row. It fails where memory is refused (`Memory`).
fn add_colours(colours: &mut Vec<u32>, raster: &Raster, area: &Rect) -> Result<(), Fault>
    requires within { IsWithin area.now raster.now.width raster.now.height }
    requires small { raster.now.width * raster.now.height < 2 ^ 32 }
    requires wide { 0 < area.now.w }
    ensures ok { OnOk result
        (colours.new.items ≡ colours.old.items ++ colours_in (shown raster.now) area.now) }
    ensures err { IfErr result (λ fault. fault ≡ Memory) }
{
    for y in 0..area.h {
        let row = raster.row(area.y + y);
        colours.extend_from_slice(&row[area.x as usize..(area.x + area.w) as usize])?;
    }
    Ok(())
}

impl Painter {
    /// A black screen of `width` by `height` pixels, of which no tile was touched. It fails where memory is refused
    /// (`Memory`).
    pub fn new(alloc: Global, width: u64, height: u64) -> Result<Self, Fault>
        requires { IsScreenSize width height }
        ensures size { IfOk result (λ screen. (screen.width ≡ width) × (screen.height ≡ height)) }
        ensures black { IfOk result (λ screen. IsPaintedOver opening [] screen) }
        ensures err { IfErr result (λ fault. fault ≡ Memory) }
    {
        Ok(Painter {
            raster: Raster::new(alloc, width, height)?,
            touched: Grid::new(alloc, width, height)?,
            area: Rect {
                x: 0,
                y: 0,
                w: 0,
                h: 0,
            },
            told: None,
            copies: Vec::with_capacity(alloc, MOST_COPIES)?,
            leads: true,
            alloc,
        })
    }

    /// The screen for a host of this size that follows another: black, with no tile touched, and the patch that turns
    /// the screen of the host before it black and tells the size. It fails where memory is refused (`Memory`).
    pub fn black(alloc: Global, width: u64, height: u64, size: Size) -> Result<(Self, Patch), Fault>
        requires screen { IsScreenSize width height }
        requires fits { (size.width ≤ width) × (size.height ≤ height) }
        ensures size { IfOk result (λ made. (made.0.width ≡ width) × (made.0.height ≡ height)) }
        ensures black { IfOk result (λ made. IsPaintedOver opening [] made.0) }
        ensures sized { IfOk result (λ made. (made.1.width ≡ width) × (made.1.height ≡ height)) }
        ensures same { IfOk result (λ made. (start : Canvas)
            → AreSameUpdates width height start (switch_to size ∷ []) (made.1.update ∷ [])) }
        ensures err { IfErr result (λ fault. fault ≡ Memory) }
    {
        let mut black = Painter::new(alloc, width, height)?;
        black.resize(size);
        let patch = black.patch()?;
        Ok((black, patch))
    }

    /// The width and height of the screen in pixels.
    pub fn size(&self) -> (u64, u64)
        ensures { (result.0 ≡ self.now.width) × (result.1 ≡ self.now.height) }
    {
        (self.raster.width(), self.raster.height())
    }

    /// The colours of row `y`, from the left.
    pub fn row(&self, y: u64) -> &[u32]
        requires { y < self.now.height }
        ensures count { length result.now ≡ self.now.width }
        ensures colours { (x : ℕ) → x < self.now.width
            → slice_index result.now x ≡ worked self.now x y }
    {
        self.raster.row(y)
    }

    /// Puts colours on a rectangle, row after row. It always succeeds, and takes no memory.
    pub fn put(&mut self, area: Rect, colours: &[u32])
        requires within { IsWithin area self.old.width self.old.height }
        requires count { length colours.now ≡ area.w * area.h }
        ensures size { IsAsLarge self.old self.new }
        ensures painted { (start : Canvas) (paints : List update.Paint)
            → IsPaintedOver start paints self.old
            → IsPaintedOver start (paints ++ update.Put area colours.now ∷ []) self.new }
    {
        self.raster.put(area, colours);
        self.touched.touch(&area, TOUCHED);
        self.leads = false;
    }

    /// Takes a new size of the host's own screen (RFC 6143, 7.8.2): the whole screen turns black, and stays as large as
    /// it was. It always succeeds, and takes no memory.
    pub fn resize(&mut self, size: Size)
        requires { (size.width ≤ self.old.width) × (size.height ≤ self.old.height) }
        ensures size { IsAsLarge self.old self.new }
        ensures painted { (start : Canvas) (paints : List update.Paint)
            → IsPaintedOver start paints self.old
            → IsPaintedOver start (paints ++ update.Resized size ∷ []) self.new }
    {
        let whole = Rect {
            x: 0,
            y: 0,
            w: self.raster.width(),
            h: self.raster.height(),
        };
        self.raster.fill(whole, 0);
        self.touched.touch(&whole, TOUCHED);
        self.leads = false;
        self.told = Some(size);
    }

    /// Copies a rectangle from another part of the screen, as it was before the call: `x`, `y` is that part's top left
    /// (RFC 6143, 7.7.2). A copy that the update begins with is noted, and touches no tile. It always succeeds, and
    /// takes no memory.
    pub fn copy(&mut self, area: Rect, x: u64, y: u64)
        requires within { IsWithin area self.old.width self.old.height }
        requires source { IsWithin (record { x = x; y = y; w = area.w; h = area.h })
            self.old.width self.old.height }
        ensures size { IsAsLarge self.old self.new }
        ensures painted { (start : Canvas) (paints : List update.Paint)
            → IsPaintedOver start paints self.old
            → IsPaintedOver start (paints ++ update.Copy area x y ∷ []) self.new }
    {
        self.raster.copy(area, x, y);
        if self.leads {
            // Not refused: there is room.
            let _ = self.copies.push(CopyRect { area, x, y });
            self.leads = self.copies.len() < MOST_COPIES;
        } else {
            self.touched.touch(&area, TOUCHED);
        }
    }

    /// Paints a paint. It always succeeds, and takes no memory.
    pub fn paint(&mut self, paint: &Paint)
        requires { Fits self.old.width self.old.height (paint_of paint.now) }
        ensures size { IsAsLarge self.old self.new }
        ensures painted { (start : Canvas) (paints : List update.Paint)
            → IsPaintedOver start paints self.old
            → IsPaintedOver start (paints ++ paint_of paint.now ∷ []) self.new }
    {
        match paint {
            Paint::Put(area, colours) => self.put(*area, colours.as_slice()),
            Paint::Copy(area, x, y) => self.copy(*area, *x, *y),
        }
    }

    /// Begins to draw on a rectangle. Its tiles are touched only when the drawing ends, and only then do no more copies
    /// lead the update.
    pub fn draw_on(&mut self, area: Rect)
        requires { IsWithin area self.old.width self.old.height }
        ensures { self.new ≡ record self.old { area = area } }
    {
        self.area = area;
    }

    /// Ends drawing on the rectangle: what it shows is one more paint. It always succeeds, and takes no memory.
    pub fn end_drawing(&mut self)
        ensures size { IsAsLarge self.old self.new }
        ensures painted { (start : Canvas) (paints : List update.Paint) (colours : List ℕ)
            → IsPaintedAround start paints self.old.area self.old
            → LooksLike self.old.area.w self.old.area.h
            (drawn self.old) (value_at self.old.area.w colours)
            → IsPaintedOver start (paints ++ update.Put self.old.area colours ∷ []) self.new }
    {
        self.touched.touch(&self.area, TOUCHED);
        self.leads = false;
    }

    /// Whether a paint other than the leading copies has touched tile `t`.
    fn is_touched(&self, t: u64) -> bool
        requires { t < tile_count self.now.width self.now.height }
        ensures { result ≡ is_touched self.now t }
    {
        self.touched.stamp(t) == TOUCHED
    }

    /// How many tiles were touched, and how many positions they have.
    fn touched_size(&self) -> (u64, u64)
        ensures count { result.0
            ≡ length (touched_below self.now (tile_count self.now.width self.now.height)) }
        ensures area { result.1 ≡ sum_by (tile_area self.now.width self.now.height)
            (touched_below self.now (tile_count self.now.width self.now.height)) }
    {
        let (width, height) = (self.raster.width(), self.raster.height());
        let mut count = 0;
        let mut positions = 0;
        for t in 0..tile_count(width, height) {
            if self.is_touched(t) {
                let area = tile_rect(width, height, t);
                count += 1;
                positions += area.w * area.h;
            }
        }
        (count, positions)
    }

    /// The tiles that were touched, in rising order: their numbers, and the colours of each as it looks now, one tile
    /// after the other. It fails where memory is refused (`Memory`).
    fn touched_tiles(&self) -> Result<(Vec<u64>, Vec<u32>), Fault>
        ensures numbers { IfOk result (λ tiles.
            tiles.0.items ≡ touched_below self.now (tile_count self.now.width self.now.height)) }
        ensures colours { IfOk result (λ tiles. tiles.1.items ≡ flat_map
            (λ t. colours_in (worked self.now) (tile_rect self.now.width self.now.height t))
            (touched_below self.now (tile_count self.now.width self.now.height))) }
        ensures err { IfErr result (λ fault. fault ≡ Memory) }
    {
        let (width, height) = (self.raster.width(), self.raster.height());
        let (count, positions) = self.touched_size();
        let mut numbers = Vec::with_capacity(self.alloc, count as usize)?;
        let mut colours = Vec::with_capacity(self.alloc, positions as usize)?;
        for t in 0..tile_count(width, height) {
            if self.is_touched(t) {
                numbers.push(t)?;
                add_colours(&mut colours, &self.raster, &tile_rect(width, height, t))?;
            }
        }
        Ok((numbers, colours))
    }

    /// At the end of a FramebufferUpdate (RFC 6143, section 7.6.1): the copies that it began with, and the tiles that
    /// its other paints touched, each once, in rising order, with the colours of the whole tile. Then no copy is noted
    /// and no tile is touched: the next update begins. It fails where memory is refused (`Memory`).
    pub fn patch(&mut self) -> Result<Patch, Fault>
        ensures patch { IfOk result (λ patch. patch ≡ record {
          width = self.old.width;
          height = self.old.height;
          update = update.Paints self.old.told
              (self.old.copies ++ tile_puts self.old.width self.old.height
              (worked self.old) (is_touched self.old));
        }) }
        ensures same { IfOk result (λ patch.
            (start : Canvas) (paints : List update.Paint) → IsPaintedOver start paints self.old
            → AreSameUpdates self.old.width self.old.height start
            (update.of_paints paints ∷ []) (patch.update ∷ [])) }
        ensures copies { IfOk result (λ patch.
            (start : Canvas) (paints : List update.Paint) → IsPaintedOver start paints self.old
            → leading_copies (update.paints_of patch.update) ≡ leading_copies paints) }
        ensures most { IfOk result (λ patch.
            colours_of (update.paints_of patch.update) ≤ self.old.width * self.old.height) }
        ensures size { IsAsLarge self.old self.new }
        ensures shows { self.new.colours ≡ self.old.colours }
        ensures begun { OnOk result
            ((start : Canvas) → LooksLike self.old.width self.old.height (worked self.old) start
            → IsPaintedOver start [] self.new) }
        ensures err { IfErr result (λ fault. fault ≡ Memory) }
    {
        let (width, height) = self.size();
        let (numbers, colours) = self.touched_tiles()?;
        let copies = self.copies.as_slice().to_vec(self.alloc)?;
        let all = Rect {
            x: 0,
            y: 0,
            w: width,
            h: height,
        };
        self.touched.touch(&all, UNTOUCHED);
        self.copies.clear();
        self.leads = true;
        let size = self.told.take();
        Ok(Patch::of_tiles(width, height, size, copies, numbers, colours))
    }

    /// Where the host has ended and another begins, whose screen is as large as this one: the screen turns black, what
    /// was painted of an update that isn't whole is dropped, and the patch brings the black screen and tells the size.
    /// It fails where memory is refused (`Memory`), and then nothing has changed.
    pub fn switch(&mut self) -> Result<Patch, Fault>
        ensures size { IsAsLarge self.old self.new }
        ensures sized { IfOk result (λ patch.
            (patch.width ≡ self.old.width) × (patch.height ≡ self.old.height)) }
        ensures same { IfOk result (λ patch. (start : Canvas)
            → AreSameUpdates self.old.width self.old.height start
            (switch self.old.width self.old.height ∷ []) (patch.update ∷ [])) }
        ensures begun { OnOk result ((start : Canvas) → IsPaintedOver (update.after_paints start
            (update.paints_of (switch self.old.width self.old.height))) [] self.new) }
        ensures err { IfErr result (λ fault. (fault ≡ Memory) × (self.new ≡ self.old)) }
    {
        let (width, height) = self.size();
        let (next, patch) = Painter::black(self.alloc, width, height, Size { width, height })?;
        *self = next;
        Ok(patch)
    }
}
