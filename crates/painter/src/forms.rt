//! The forms of a board's tiles, which are kept while their colours stay.

ghost use Rattle.std.specs.Prelude.{◌≡◌, ◌≢◌, ℕ, ◌*◌, ◌<◌, ◌≤◌, [], false, length, slice_index, slice_index_or, None, Some, IfOk, IfErr, IfNone, IfSome, IsTrue};
ghost use Rattle.fault.specs.declared.kinds.Fault.TheVariants.{Memory};
ghost use Rattle.hextile_codec.specs.Kept.{AreFormsOf, FormStands};
ghost use Rattle.painter.specs.Forms.{AreFormsBut, AreUncopiedForms, TookForms};
ghost use Rattle.painter.specs.Patch.{AreTiles, IsPainted, ShowsTiles};
ghost use Rattle.raster.specs.Screen.{Canvas, meets, part_of, tile_count, tile_rect, value_at};
ghost use Rattle.raster.specs.Size.{IsScreenSize};
ghost use Rattle.raster.specs.declared.tile.TheConstants.{TILE_SIDE};
ghost use Rattle.std.specs.List.{list_any};
ghost use Rattle.tiles.specs.Grid.{is_lacked};
ghost use Rattle.tiles.specs.Touched.{touches};

use crate::patch::Patch;
use copy_log::CopyRect;
use fault::Fault;
use hextile_codec::{TileForm, TileRoom, form_of_tile};
use raster::{Rect, tile_count, tile_rect};
use std::alloc::Global;
use tiles::{DueTiles, LackedSince};

/// For each tile of a screen, the form of its colours, where one is kept. The list is empty until forms are to be kept.
#[derive(Drop)]
pub(crate) struct Forms {
    pub list: Vec<Option<TileForm>>,
}

/// Whether one of the copies meets a rectangle.
fn is_met(copies: &[CopyRect], area: &Rect) -> bool
    ensures { result ≡ list_any (λ c. meets c.area area.now) copies.now }
{
    copies.iter().any(|copy| copy.area.meets(area))
}

/// The form of a tile of `w` by `h`, whose colours stand row after row; `None` as in `form_of_tile`.
fn form_of_colours(colours: &[u32], w: u64, h: u64, room: &mut TileRoom) -> Option<TileForm>
    requires count { length colours.now ≡ w * h }
    requires wide { (0 < w) × (w ≤ TILE_SIDE) }
    requires high { (0 < h) × (h ≤ TILE_SIDE) }
    ensures { IfSome result (λ form. FormStands form w h (value_at w colours.now)) }
{
    form_of_tile(colours, w as usize, &Rect { x: 0, y: 0, w, h }, room)
}

/// The form of a tile of a screen of `width` by `height`, whose colours stand row after row, if it `keeps` forms;
/// `None` as in `form_of_tile`.
fn form_on_screen(
    colours: &[u32],
    width: u64,
    height: u64,
    t: u64,
    keeps: bool,
    room: &mut TileRoom,
) -> Option<TileForm>
    requires size { IsScreenSize width height }
    requires rows { length colours.now ≡ width * height }
    requires there { t < tile_count width height }
    ensures { IfSome result (λ form.
        FormStands form (tile_rect width height t).w (tile_rect width height t).h
        (part_of (tile_rect width height t) (value_at width colours.now))) }
{
    if keeps {
        let area = tile_rect(width, height, t);
        form_of_tile(colours, width as usize, &area, room)
    } else {
        None
    }
}

/// Whether `t` is the number at this place.
fn is_next(numbers: &[u64], at: usize, t: u64) -> bool
    ensures { IsTrue result → (at < length numbers.now) × (slice_index numbers.now at ≡ t) }
{
    at < numbers.len() && numbers[at] == t
}

impl Forms {
    /// No forms, and room for one of each tile of a screen. The room isn't touched before forms are to be kept. It
    /// fails where memory is refused (`Memory`).
    pub fn new(alloc: Global, width: u64, height: u64) -> Result<Self, Fault>
        requires { IsScreenSize width height }
        ensures ok { IfOk result (λ forms. forms.list.items ≡ []) }
        ensures err { IfErr result (λ fault. fault ≡ Memory) }
    {
        Ok(Forms {
            list: Vec::with_capacity(alloc, tile_count(width, height) as usize)?,
        })
    }

    /// No forms, and no room for any: none are ever kept.
    pub fn none(alloc: Global) -> Self
        ensures { result.list.items ≡ [] }
    {
        Forms {
            list: Vec::new(alloc),
        }
    }

    /// Forgets all of them.
    pub fn clear(&mut self)
        ensures { self.new.list.items ≡ [] }
    {
        self.list.clear();
    }

    /// Whether a change of some tiles asks for nothing here: there are no forms, and none are to be kept.
    fn are_unused(&self, keeps: bool) -> bool
        ensures { IsTrue result → self.now.list.items ≡ [] }
    {
        !keeps && self.list.is_empty()
    }

    /// Makes a place for each tile of a screen, if there is room for so many.
    fn begin(&mut self, width: u64, height: u64)
        requires { IsScreenSize width height }
        ensures { (t : ℕ) → slice_index_or self.new.list.items t None
            ≡ slice_index_or self.old.list.items t None }
    {
        let count = tile_count(width, height) as usize;
        if self.list.is_empty() && count <= self.list.capacity() {
            for _ in 0..count {
                // Not refused: there is room.
                let _ = self.list.push(None);
            }
        }
    }

    /// The form of tile `t`, if one is kept.
    fn form(&self, t: usize) -> Option<&TileForm>
        ensures some { IfSome result (λ form.
            slice_index_or self.now.list.items t None ≡ Some form.now) }
        ensures none { IfNone result (slice_index_or self.now.list.items t None ≡ None) }
    {
        self.list.get(t)?.as_ref()
    }

    /// Gives tile `t` this form, or none, where there is a place for it.
    fn put(&mut self, t: usize, form: Option<TileForm>)
        ensures len { length self.new.list.items ≡ length self.old.list.items }
        ensures here { t < length self.new.list.items
            → slice_index_or self.new.list.items t None ≡ form }
        ensures others { (k : ℕ) → k ≢ t
            → slice_index_or self.new.list.items k None
            ≡ slice_index_or self.old.list.items k None }
    {
        if t < self.list.len() {
            self.list[t] = form;
        }
    }

    /// Gives tile `t` the form that a newer board keeps of it, or none, where there is a place for it. A form that is
    /// kept becomes the newer one where it lies, since a whole form is long.
    fn put_newer(&mut self, t: usize, newer: &Forms)
        ensures len { length self.new.list.items ≡ length self.old.list.items }
        ensures here { t < length self.new.list.items
            → slice_index_or self.new.list.items t None
            ≡ slice_index_or newer.now.list.items t None }
        ensures others { (k : ℕ) → k ≢ t
            → slice_index_or self.new.list.items k None
            ≡ slice_index_or self.old.list.items k None }
    {
        let Some(form) = newer.form(t) else {
            self.put(t, None);
            return;
        };
        if t < self.list.len() {
            let place = &mut self.list[t];
            if let Some(kept) = place {
                kept.copy_from(form);
                return;
            }
            self.list[t] = Some(form.again());
        }
    }

    /// Renews the forms of the tiles of these numbers, which have changed to these colours, one whole tile after the
    /// other. If it `keeps` forms, they are made of these; otherwise they are forgotten.
    fn renew_tiles(
        &mut self,
        width: u64,
        height: u64,
        numbers: &[u64],
        colours: &[u32],
        keeps: bool,
    )
        requires size { IsScreenSize width height }
        requires tiles { AreTiles width height numbers.now colours.now }
        ensures { (screen : Canvas) → ShowsTiles width height numbers.now colours.now screen
            → AreFormsBut numbers.now width height screen self.old.list.items
            → AreFormsOf width height screen self.new.list.items }
    {
        let mut room = TileRoom::new();
        let mut left = colours;
        for number in numbers {
            let area = tile_rect(width, height, *number);
            let (tile, behind) = left.split_at((area.w * area.h) as usize);
            let form = if keeps {
                form_of_colours(tile, area.w, area.h, &mut room)
            } else {
                None
            };
            self.put(*number as usize, form);
            left = behind;
        }
    }

    /// Renews the forms of the tiles that these copies meet, but for those of these rising numbers, by the screen's
    /// colours after the copies. If it `keeps` forms, they are made of these; otherwise they are forgotten.
    fn renew_copied(
        &mut self,
        width: u64,
        height: u64,
        copies: &[CopyRect],
        numbers: &[u64],
        colours: &[u32],
        keeps: bool,
    )
        requires size { IsScreenSize width height }
        requires rows { length colours.now ≡ width * height }
        ensures { AreUncopiedForms copies.now numbers.now width height
            (value_at width colours.now) self.old.list.items
            → AreFormsBut numbers.now width height
            (value_at width colours.now) self.new.list.items }
    {
        if copies.is_empty() {
            return;
        }
        let mut room = TileRoom::new();
        let mut next = 0;
        for t in 0..tile_count(width, height) {
            if is_next(numbers, next, t) {
                next += 1;
            } else if is_met(copies, &tile_rect(width, height, t)) {
                let form = form_on_screen(colours, width, height, t, keeps, &mut room);
                self.put(t as usize, form);
            }
        }
    }

    /// Renews the forms of a patch's tiles after it was painted, which left the screen these colours. Forms are kept as
    /// in `Board::apply`. Those of the tiles that it brings are made of its own colours, which lie together: a tile's
    /// rows lie far apart on a large screen. Those of other tiles that its copies meet are made of the screen's.
    pub fn renew(&mut self, patch: &Patch, colours: &[u32], keeps: bool)
        requires size { IsScreenSize patch.now.width patch.now.height }
        requires rows { length colours.now ≡ patch.now.width * patch.now.height }
        requires shown { IsPainted patch.now colours.now }
        requires others { (t : ℕ) → t < length self.old.list.items
            → t < tile_count patch.now.width patch.now.height
            → touches (tile_rect patch.now.width patch.now.height t) patch.now.update ≡ false
            → IfSome (slice_index_or self.old.list.items t None) (λ form.
            FormStands form (tile_rect patch.now.width patch.now.height t).w
            (tile_rect patch.now.width patch.now.height t).h
            (part_of (tile_rect patch.now.width patch.now.height t)
            (value_at patch.now.width colours.now))) }
        ensures { AreFormsOf patch.now.width patch.now.height
            (value_at patch.now.width colours.now) self.new.list.items }
    {
        if self.are_unused(keeps) {
            return;
        }
        let (width, height) = patch.size();
        let (numbers, tiles) = patch.tiles();
        self.begin(width, height);
        self.renew_copied(width, height, patch.copies(), numbers, colours, keeps);
        self.renew_tiles(width, height, numbers, tiles, keeps);
    }

    /// Gives the tiles that are lacked on a screen of `width` by `height` the forms that a newer board keeps of them.
    pub fn take_lacked(
        &mut self,
        newer: &Forms,
        lacked: &LackedSince,
        width: u64,
        height: u64,
        keeps: bool,
    )
        requires size { IsScreenSize width height }
        requires same { (lacked.now.newer.now.width ≡ width)
            × (lacked.now.newer.now.height ≡ height) }
        ensures { TookForms (tile_count width height)
            (is_lacked lacked.now.grid.now lacked.now.newer.now lacked.now.number)
            newer.now.list.items self.old.list.items self.new.list.items }
    {
        if self.are_unused(keeps) {
            return;
        }
        self.begin(width, height);
        for t in 0..tile_count(width, height) {
            if lacked.is_due(t) {
                self.put_newer(t as usize, newer);
            }
        }
    }
}
