//! What one whole message of the host changes on a screen.

ghost use Rattle.std.specs.Prelude.{◌≡◌, ℕ, ◌<◌, ◌≤◌, ◌*◌, ◌^◌, ◌+◌, List, [], ◌∷◌, ◌++◌, length, All, IfOk, IfErr, IfSome};
ghost use Rattle.copy_log.specs.Notes.{IsSameLog, LogStands, paints};
ghost use Rattle.painter.specs.Copies.{AreCopies, leading_copies, other_paints};
ghost use Rattle.painter.specs.Patch.{AreTiles, AreTouchedTiles, IsWithinScreen, ShowsOver, is_bell, text_of, tile_paints};
ghost use Rattle.fault.specs.declared.kinds.Fault.TheVariants.{Memory};
ghost use Rattle.fault.specs.declared.limits.TheConstants.{LONGEST_TEXT};
ghost use Rattle.raster.specs.Screen.{LooksLike, meets, tile_count, tile_rect, value_at};
ghost use Rattle.raster.specs.Size.{IsScreenSize};
ghost use Rattle.raster.specs.Update.{Update, Paints, Bell, Cut, after_paints, paints_of, size_after_update};
ghost use Rattle.std.specs.List.{list_any};
ghost use Rattle.std.specs.Option.{option_copied};
ghost use Rattle.tiles.specs.Grid.{IsTouched};
ghost use Rattle.tiles.specs.Touched.{touches};

use copy_log::{CopyLog, CopyRect};
use fault::Fault;
use raster::{Paint, Size, apply_paints, put, tile_rect};
use std::alloc::Global;
use std::marker::Model;
use tiles::Grid;

/// What a FramebufferUpdate changed: the new size of the host's own screen, if it told one; the copies that it began
/// with, at most 16; the numbers of the tiles that its other paints touched; and the colours of one whole tile after
/// the other, each row after row. Or a Bell, or a text that was cut (RFC 6143, 7.6).
#[derive(Drop)]
enum Change {
    Tiles(Option<Size>, Vec<CopyRect>, Vec<u64>, Vec<u32>),
    Bell,
    Text(Vec<u8>),
}

/// An update in colours, for a screen of one size: contracts see its width and height in pixels, and the update.
#[derive(Drop)]
pub struct Patch {
    width: u64,
    height: u64,
    change: Change,
}

impl Model for Patch {
    ghost use Rattle.painter.specs.Patch.{SizedUpdate, update_of, IsFor};
    ghost use Rattle.raster.specs.Size.{IsScreenSize};

    ghost Value = { SizedUpdate };

    ghost view = { λ p. record {
      width = p.width;
      height = p.height;
      update = update_of p.width p.height p.change;
    } };

    ghost invariant = { λ p. IsScreenSize p.width p.height × IsFor p.width p.height p.change };
}

/// Does copies, one after the other, on the colours of their screen of `width` by `height`, which stand row after row.
fn copy_rects(screen: &mut [u32], width: u64, height: u64, copies: &[CopyRect])
    requires size { IsScreenSize width height }
    requires rows { length screen.old ≡ width * height }
    requires copies { AreCopies width height copies.now }
    ensures { LooksLike width height (value_at width screen.new)
        (after_paints (value_at width screen.old) (paints copies.now)) }
{
    for copy in copies {
        let paints = [Paint::Copy(copy.area, copy.x, copy.y)];
        apply_paints(screen, width as usize, height as usize, &paints);
    }
}

/// Puts tiles on the colours of their screen of `width` by `height`, which stand row after row.
fn put_tiles(screen: &mut [u32], width: u64, height: u64, numbers: &[u64], colours: &[u32])
    requires size { IsScreenSize width height }
    requires rows { length screen.old ≡ width * height }
    requires tiles { AreTiles width height numbers.now colours.now }
    ensures { LooksLike width height (value_at width screen.new)
        (after_paints (value_at width screen.old)
        (tile_paints width height numbers.now colours.now)) }
{
    let mut left = colours;
    for number in numbers {
        let area = tile_rect(width, height, *number);
        let (tile, behind) = left.split_at((area.w * area.h) as usize);
        put(screen, width as usize, height as usize, area, tile);
        left = behind;
    }
}

/// Notes on a grid that update `n` touched these tiles of a screen of `width` by `height`.
fn touch_tiles(grid: &mut Grid, width: u64, height: u64, numbers: &[u64], n: u64)
    requires size { IsScreenSize width height }
    requires tiles { All (λ t. t < tile_count width height) numbers.now }
    ensures { IsTouched (λ t. list_any (λ k. meets (tile_rect width height k)
        (tile_rect grid.old.width grid.old.height t)) numbers.now) n grid.old grid.new }
{
    for number in numbers {
        grid.touch(&tile_rect(width, height, *number), n);
    }
}

/// Notes on a grid that update `n` touched the tiles that these copies meet.
fn touch_copies(grid: &mut Grid, width: u64, height: u64, copies: &[CopyRect], n: u64)
    requires size { IsScreenSize width height }
    requires copies { AreCopies width height copies.now }
    ensures { IsTouched (λ t. list_any (λ c. meets c.area
        (tile_rect grid.old.width grid.old.height t)) copies.now) n grid.old grid.new }
{
    for copy in copies {
        grid.touch(&copy.area, n);
    }
}

impl Patch {
    /// The new size that a FramebufferUpdate told, if it told one, the copies that it began with, and the tiles that
    /// its other paints touched, each once, by their numbers, with their colours, one tile after the other.
    pub(crate) fn of_tiles(
        width: u64,
        height: u64,
        size: Option<Size>,
        copies: Vec<CopyRect>,
        numbers: Vec<u64>,
        colours: Vec<u32>,
    ) -> Self
        requires size { IsScreenSize width height }
        requires told { IsWithinScreen width height size }
        requires copies { AreCopies width height copies.items }
        requires tiles { AreTouchedTiles width height numbers.items colours.items }
        ensures { result ≡ record {
          width = width;
          height = height;
          update = Paints size (paints copies.items
              ++ tile_paints width height numbers.items colours.items);
        } }
    {
        Patch {
            width,
            height,
            change: Change::Tiles(size, copies, numbers, colours),
        }
    }

    /// The patch of a Bell (RFC 6143, 7.6.3): no tile changes.
    pub fn bell(width: u64, height: u64) -> Self
        requires { IsScreenSize width height }
        ensures { result ≡ record { width = width; height = height; update = Bell } }
    {
        Patch {
            width,
            height,
            change: Change::Bell,
        }
    }

    /// A text of the host's cut buffer, of at most 65,536 bytes.
    pub fn text(width: u64, height: u64, text: Vec<u8>) -> Self
        requires size { IsScreenSize width height }
        requires short { length text.items ≤ LONGEST_TEXT }
        ensures { result ≡ record { width = width; height = height; update = Cut text.items } }
    {
        Patch {
            width,
            height,
            change: Change::Text(text),
        }
    }

    /// An equal patch. It fails where memory is refused (`Memory`).
    pub fn copy(&self, alloc: Global) -> Result<Patch, Fault>
        ensures ok { IfOk result (λ copied. copied ≡ self.now) }
        ensures err { IfErr result (λ fault. fault ≡ Memory) }
    {
        match &self.change {
            Change::Tiles(size, copies, numbers, colours) => {
                let copies = copies.as_slice().to_vec(alloc)?;
                let numbers = numbers.as_slice().to_vec(alloc)?;
                let colours = colours.as_slice().to_vec(alloc)?;
                Ok(Patch::of_tiles(self.width, self.height, *size, copies, numbers, colours))
            }
            Change::Bell => Ok(Patch::bell(self.width, self.height)),
            Change::Text(text) => {
                let copied = text.as_slice().to_vec(alloc)?;
                Ok(Patch::text(self.width, self.height, copied))
            }
        }
    }

    /// The width and height of the screen that it is for.
    pub fn size(&self) -> (u64, u64)
        ensures { (result.0 ≡ self.now.width) × (result.1 ≡ self.now.height) }
    {
        (self.width, self.height)
    }

    /// The copies that it begins with, in order. A Bell or a text has none.
    pub fn copies(&self) -> &[CopyRect]
        ensures paints { paints result.now ≡ leading_copies (paints_of self.now.update) }
        ensures fit { AreCopies self.now.width self.now.height result.now }
    {
        match &self.change {
            Change::Tiles(_, copies, _, _) => copies.as_slice(),
            Change::Bell => &[],
            Change::Text(_) => &[],
        }
    }

    /// The numbers of the tiles that it paints behind its copies, rising, and their colours, one whole tile after the
    /// other, at most one for each position of the screen. A Bell or a text has none of either.
    pub fn tiles(&self) -> (&[u64], &[u32])
        ensures paints { tile_paints self.now.width self.now.height result.0.now result.1.now
            ≡ other_paints (paints_of self.now.update) }
        ensures tiles { AreTouchedTiles self.now.width self.now.height result.0.now result.1.now }
    {
        match &self.change {
            Change::Tiles(_, _, numbers, colours) => (numbers.as_slice(), colours.as_slice()),
            Change::Bell => (&[], &[]),
            Change::Text(_) => (&[], &[]),
        }
    }

    /// The size of the host's own screen after the update, where this one, or none, was told before it (RFC 6143,
    /// 7.8.2).
    pub fn size_after(&self, before: Option<Size>) -> Option<Size>
        ensures size { result ≡ size_after_update before self.now.update }
        ensures within { IsWithinScreen self.now.width self.now.height before
            → IsWithinScreen self.now.width self.now.height result }
    {
        match &self.change {
            Change::Tiles(Some(size), _, _, _) => Some(*size),
            Change::Tiles(None, _, _, _) => before,
            Change::Bell => before,
            Change::Text(_) => before,
        }
    }

    /// Whether the update is a Bell.
    pub(crate) fn is_bell(&self) -> bool
        ensures { result ≡ is_bell self.now.update }
    {
        matches!(&self.change, Change::Bell)
    }

    /// The text, where the update is one: at most 65,536 bytes.
    pub fn text_bytes(&self) -> Option<&[u8]>
        ensures text { option_copied result ≡ text_of self.now.update }
        ensures short { IfSome result (λ text. length text.now ≤ LONGEST_TEXT) }
    {
        match &self.change {
            Change::Tiles(_, _, _, _) => None,
            Change::Bell => None,
            Change::Text(text) => Some(text.as_slice()),
        }
    }

    /// Paints it on the colours of its screen, row after row: its copies first, and then its tiles. It always succeeds,
    /// and takes no memory.
    pub fn paint(&self, colours: &mut [u32])
        requires { length colours.old ≡ self.now.width * self.now.height }
        ensures { ShowsOver self.now colours.old colours.new }
    {
        let (numbers, tiles) = self.tiles();
        copy_rects(colours, self.width, self.height, self.copies());
        put_tiles(colours, self.width, self.height, numbers, tiles);
    }

    /// Notes on a grid that this patch, as update `n`, touched its tiles, and those that its copies meet. It always
    /// succeeds, and takes no memory.
    pub fn touch(&self, grid: &mut Grid, n: u64)
        ensures { IsTouched (λ t. touches (tile_rect grid.old.width grid.old.height t)
            self.now.update) n grid.old grid.new }
    {
        let (numbers, _) = self.tiles();
        touch_copies(grid, self.width, self.height, self.copies(), n);
        touch_tiles(grid, self.width, self.height, numbers, n);
    }

    /// Notes it in a log of its screen, as the next update: its copies, and the numbers of its tiles. It always
    /// succeeds, and takes no memory.
    pub(crate) fn note(&self, log: &mut CopyLog)
        requires screen { (log.old.width ≡ self.now.width) × (log.old.height ≡ self.now.height) }
        requires number { log.old.number < 2 ^ 62 }
        ensures size { IsSameLog log.old log.new }
        ensures number { log.new.number ≡ log.old.number + 1 }
        ensures stands { (us : List Update) → LogStands log.old us
            → LogStands log.new (us ++ self.now.update ∷ []) }
    {
        let (numbers, _) = self.tiles();
        log.note(self.copies(), numbers);
    }
}
