//! The colours that a cut shows.

ghost use Rattle.std.specs.Prelude.{◌≡◌, ◌*◌, ◌<◌, ◌≤◌, ◌^◌, true, false, IfOk, IfErr, IfSome, length, vec_capacity};
ghost use Rattle.fault.specs.declared.kinds.Fault.TheVariants.{Memory};
ghost use Rattle.hextile_codec.specs.Kept.{AreFormsOf};
ghost use Rattle.painter.specs.Encoded.{IsHextileOf};
ghost use Rattle.raster.specs.Screen.{IsWithin, LooksLike, lay, part_of, value_at};
ghost use Rattle.raster.specs.Size.{IsScreenSize};
ghost use Rattle.shared_parts.specs.Parts.{ArePartsOf};

use fault::Fault;
use hextile_codec::TileForm;
use painter::{Board, Shown, copy_area};
use pixel_format::Format;
use raster::Rect;
use shared_parts::SharedParts;
use std::alloc::Global;
use std::marker::Model;
use std::sync::Arc;

/// From this many colours on, a black screen is too large for the allocator to keep once it was let go.
const LARGE: usize = 500_000;

/// For how many colours room is taken where that is to go back to the system once it is let go: the C library's
/// allocator maps each block of more than 32 MiB separately.
const GIVEN_BACK: usize = 8_400_000;

/// The colours of a screen, row after row: those of a board that is shared with others, or the picture's own. Room for
/// its own is taken when it is made. At first it is black. With the first board that it shares, the black screen is
/// given back, and room that isn't touched yet takes its place.
#[derive(Drop)]
pub struct Picture {
    shared: Option<Arc<Board, Global>>,
    own: Vec<u32>,
    room: Option<Vec<u32>>,
}

impl Model for Picture {
    ghost use Rattle.std.specs.Prelude.{is_some};
    ghost use Rattle.reflect_core.specs.Picture.{Colours, IsPicture, colours_of};

    ghost Value = { Colours };

    ghost view = { λ p.
        record { items = colours_of p.shared p.own.items; is_shared = is_some p.shared } };

    ghost invariant = { λ p. IsPicture p.shared p.own p.room };
}

/// For how many colours room is taken where a black screen has this many.
fn room_for_black(count: usize) -> usize
    ensures { count ≤ result }
{
    if count < LARGE {
        count
    } else {
        count.max(GIVEN_BACK)
    }
}

/// Makes as many values as there are colours. Where their number differed, they become these colours.
fn fill_up(own: &mut Vec<u32>, colours: &[u32])
    requires { length colours.now ≤ vec_capacity own.old }
    ensures len { length own.new.items ≡ length colours.now }
    ensures room { length colours.now ≤ vec_capacity own.new }
{
    if own.len() != colours.len() {
        own.clear();
        // This isn't refused, since there is room.
        let _ = own.extend_from_slice(colours);
    }
}

impl Picture {
    /// A black screen of `width` by `height` pixels. It fails where memory is refused (`Memory`).
    pub(crate) fn new(alloc: Global, width: u64, height: u64) -> Result<Self, Fault>
        requires { IsScreenSize width height }
        ensures ok { IfOk result (λ picture. length picture.items ≡ width * height) }
        ensures err { IfErr result (λ fault. fault ≡ Memory) }
    {
        let count = (width * height) as usize;
        let mut own = Vec::with_capacity(alloc, room_for_black(count))?;
        own.resize(count, 0)?;
        let room = Vec::with_capacity(alloc, count)?;
        Ok(Picture {
            shared: None,
            own,
            room: Some(room),
        })
    }

    /// Shows the colours of a board of its screen from now on, as one of its owners. Where the board isn't shared, or
    /// one more owner is refused, the picture has colours of its own, and nothing is promised of these. It takes no
    /// memory.
    pub(crate) fn show(&mut self, board: &Shown)
        requires { length board.now.colours ≡ length self.old.items }
        ensures len { length self.new.items ≡ length self.old.items }
        ensures shown { self.new.is_shared ≡ true → self.new.items ≡ board.now.colours }
    {
        // The picture gives back the board that it had first, so it never has two.
        self.shared = None;
        let owner = match board.owner() {
            Some(owner) => Arc::try_clone(owner).ok(),
            None => None,
        };
        match owner {
            Some(owner) => {
                self.shared = Some(owner);
                if let Some(room) = self.room.take() {
                    self.own = room;
                }
            }
            None => fill_up(&mut self.own, board.board().colours()),
        }
    }

    /// From now on the picture has colours of its own, as many as these.
    pub(crate) fn stand_alone(&mut self, colours: &[u32])
        requires { length colours.now ≡ length self.old.items }
        ensures len { length self.new.items ≡ length self.old.items }
        ensures alone { self.new.is_shared ≡ false }
    {
        self.shared = None;
        fill_up(&mut self.own, colours);
    }

    /// Lays the area's part of these colours over its own. A picture that shares a board shows them already.
    pub(crate) fn lay(&mut self, colours: &[u32], width: usize, height: usize, area: &Rect)
        requires colours { length colours.now ≡ width * height }
        requires all { length self.old.items ≡ width * height }
        requires small { width * height < 2 ^ 62 }
        requires within { IsWithin area.now width height }
        requires shown { self.old.is_shared ≡ true → self.old.items ≡ colours.now }
        ensures shows { LooksLike width height (value_at width self.new.items) (lay area.now
            (part_of area.now (value_at width colours.now)) (value_at width self.old.items)) }
        ensures len { length self.new.items ≡ length self.old.items }
        ensures shared { self.new.is_shared ≡ self.old.is_shared }
        ensures kept { self.old.is_shared ≡ true → self.new.items ≡ self.old.items }
    {
        if self.shared.is_none() {
            copy_area(colours, self.own.as_mut_slice(), width, height, area);
        }
    }

    /// The colours of the whole screen, row by row.
    pub fn as_slice(&self) -> &[u32]
        ensures value { result.now ≡ self.now.items }
        ensures len { length result.now ≡ length self.now.items }
    {
        match &self.shared {
            Some(board) => board.colours(),
            None => self.own.as_slice(),
        }
    }

    /// The forms of some tiles of a screen of this size, from the first tile on. There are none where the picture
    /// shares no board.
    pub fn forms(&self, width: u64, height: u64) -> &[Option<TileForm>]
        ensures { AreFormsOf width height (value_at width self.now.items) result.now }
    {
        match &self.shared {
            // A board of another size is never shared. Testing the size here spares the type an invariant.
            Some(board) if board.size() == (width, height) => board.forms(),
            _ => &[],
        }
    }

    /// The data of an area in Hextile of joined runs in a format, where the board that it shares has it encoded, on a
    /// screen of this size.
    pub fn encoded(&self, width: u64, height: u64, area: &Rect, format: &Format) -> Option<&[u8]>
        ensures { IfSome result (λ bytes.
            IsHextileOf format.now (value_at width self.now.items) area.now bytes.now) }
    {
        match &self.shared {
            Some(board) if board.size() == (width, height) => board.encoded(area, format),
            _ => None,
        }
    }

    /// The parts of ZRLE that viewers of the board share which it shares, on a screen of this size.
    pub fn parts(&self, width: u64, height: u64) -> Option<&SharedParts>
        ensures { IfSome result (λ parts. ArePartsOf width self.now.items parts.now) }
    {
        match &self.shared {
            Some(board) if board.size() == (width, height) => Some(board.parts()),
            _ => None,
        }
    }
}
