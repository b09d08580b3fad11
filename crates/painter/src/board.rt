//! A board: what a list of updates shows, kept from one update to the next.

ghost use Rattle.std.specs.Prelude.{◌≡◌, ℕ, ◌+◌, ◌*◌, ◌<◌, ◌≤◌, ◌^◌, List, [], ◌∷◌, ◌++◌, length, take, vec_capacity, IfOk, IfErr, IfSome};
ghost use Rattle.hextile_codec.specs.Kept.{AreFormsOf};
ghost use Rattle.painter.specs.Board.{BoardStands, IsSameScreen};
ghost use Rattle.painter.specs.Copies.{leading_copies};
ghost use Rattle.painter.specs.Encoded.{IsHextileOf};
ghost use Rattle.painter.specs.Patch.{is_bell};
ghost use Rattle.fault.specs.declared.kinds.Fault.TheVariants.{Memory};
ghost use Rattle.raster.specs.Screen.{value_at};
ghost use Rattle.raster.specs.Size.{IsScreenSize};
ghost use Rattle.raster.specs.Update.{Update, paints_of};
ghost use Rattle.shared_parts.specs.Parts.{ArePartsOf};
ghost use Rattle.std.specs.Int.{from_bool};

use crate::area_source::AreaSource;
use crate::colours::{paint_patch, take_lacked};
use crate::encoded::EncodedAreas;
use crate::forms::Forms;
use crate::patch::Patch;
use crate::text::LastText;
use crate::wanted::Wanted;
use copy_log::CopyLog;
use fault::Fault;
use hextile_codec::TileForm;
use pixel_format::Format;
use raster::{Rect, Size};
use shared_parts::SharedParts;
use std::alloc::Global;
use std::marker::Model;
use tiles::Grid;

/// What a list of updates shows: the number of the last update, the screen, the number of the last update that touched
/// each tile, how many Bells there were, the last text of the host's cut buffer, and a log of the copies that the last
/// updates began with. It may keep the form of each tile's colours, and parts of ZRLE that viewers share, too. All its
/// memory is taken when it is made, but that of parts.
#[derive(Drop)]
pub struct Board {
    width: u64,
    height: u64,
    number: u64,
    size: Option<Size>,
    colours: Vec<u32>,
    grid: Grid,
    bells: u64,
    text: LastText,
    log: CopyLog,
    pub(crate) forms: Forms,
    encoded: EncodedAreas,
    parts: SharedParts,
}

impl Model for Board {
    ghost use Rattle.std.specs.Prelude.{length};
    ghost use Rattle.hextile_codec.specs.Kept.{AreFormsOf};
    ghost use Rattle.painter.specs.Board.{IsBoard, Posted};
    ghost use Rattle.painter.specs.Encoded.{AreEncoded};
    ghost use Rattle.raster.specs.Screen.{value_at};
    ghost use Rattle.shared_parts.specs.Parts.{ArePartsOf};

    ghost Value = { Posted };

    ghost view = { λ b. record {
      width = b.width;
      height = b.height;
      number = b.number;
      size = b.size;
      colours = b.colours.items;
      grid = b.grid;
      bells = b.bells;
      text = b.text;
      log = b.log;
    } };

    ghost invariant = { λ b. IsBoard (record {
      width = b.width;
      height = b.height;
      number = b.number;
      size = b.size;
      colours = b.colours.items;
      grid = b.grid;
      bells = b.bells;
      text = b.text;
      log = b.log;
    }) × AreFormsOf b.width b.height (value_at b.width b.colours.items) b.forms.list.items
        × AreEncoded b.encoded.format (value_at b.width b.colours.items)
        (length b.encoded.bytes.items) b.encoded.bytes.items b.encoded.list.items
        × ArePartsOf b.width b.colours.items b.parts };
}

/// How many updates and how many Bells there are after a patch, given how many there were before it.
fn counted(number: u64, bells: u64, patch: &Patch) -> (u64, u64)
    requires few { bells ≤ number }
    requires number { number < 2 ^ 62 }
    ensures number { result.0 ≡ number + 1 }
    ensures bells { result.1 ≡ bells + from_bool (is_bell patch.now.update) }
    ensures few { result.1 ≤ result.0 }
{
    (number + 1, bells + u64::from(patch.is_bell()))
}

impl Board {
    /// A black screen of `width` by `height` pixels, to which no update was applied, and room for a text of 65,536
    /// bytes. It fails where memory is refused (`Memory`).
    pub fn new(alloc: Global, width: u64, height: u64) -> Result<Self, Fault>
        requires { IsScreenSize width height }
        ensures size { IfOk result (λ board. (board.width ≡ width) × (board.height ≡ height)) }
        ensures stands { IfOk result (λ board. BoardStands board []) }
        ensures err { IfErr result (λ fault. fault ≡ Memory) }
    {
        let text = LastText::new(alloc)?;
        let colours = vec![in alloc; 0u32; (width * height) as usize]?;
        let grid = Grid::new(alloc, width, height)?;
        let log = CopyLog::new(alloc, width, height)?;
        let forms = Forms::new(alloc, width, height)?;
        let encoded = EncodedAreas::new(alloc, width, height)?;
        let parts = SharedParts::new(alloc)?;
        Ok(Board {
            width,
            height,
            number: 0,
            size: None,
            colours,
            grid,
            bells: 0,
            text,
            log,
            forms,
            encoded,
            parts,
        })
    }

    /// The width and height of its screen in pixels.
    pub fn size(&self) -> (u64, u64)
        ensures { (result.0 ≡ self.now.width) × (result.1 ≡ self.now.height) }
    {
        (self.width, self.height)
    }

    /// The number of the last update, from 1; 0 before the first.
    pub fn number(&self) -> u64
        ensures { result ≡ self.now.number }
    {
        self.number
    }

    /// The last size of the host's own screen that an update told, if one told a size. It is at most that of the
    /// screen.
    pub fn last_size(&self) -> Option<Size>
        ensures { result ≡ self.now.size }
    {
        self.size
    }

    /// How many of the updates were Bells.
    pub fn bells(&self) -> u64
        ensures { result ≡ self.now.bells }
    {
        self.bells
    }

    /// The last text, with the number of the update that brought it.
    pub fn text(&self) -> &LastText
        ensures { result.now ≡ self.now.text }
    {
        &self.text
    }

    /// The colours, row after row, each row as long as the screen is wide.
    pub fn colours(&self) -> &[u32]
        ensures value { result.now ≡ self.now.colours }
        ensures rows { length result.now ≡ self.now.width * self.now.height }
    {
        self.colours.as_slice()
    }

    /// The number of the last update that touched each tile of its screen.
    pub fn grid(&self) -> &Grid
        ensures value { result.now ≡ self.now.grid }
        ensures size { (result.now.width ≡ self.now.width) × (result.now.height ≡ self.now.height) }
    {
        &self.grid
    }

    /// Of its last updates, the copies that each began with, and the tiles that its other paints touched.
    pub fn log(&self) -> &CopyLog
        ensures value { result.now ≡ self.now.log }
        ensures size { (result.now.width ≡ self.now.width) × (result.now.height ≡ self.now.height) }
    {
        &self.log
    }

    /// For each tile, in order, the form of its colours, where one is kept. The list may end before the last tile.
    pub fn forms(&self) -> &[Option<TileForm>]
        ensures { AreFormsOf self.now.width self.now.height
            (value_at self.now.width self.now.colours) result.now }
    {
        self.forms.list.as_slice()
    }

    /// The data of an area in Hextile of joined runs in a format (RFC 6143, 7.7.4), where the area was encoded.
    pub fn encoded(&self, area: &Rect, format: &Format) -> Option<&[u8]>
        ensures { IfSome result (λ bytes.
            IsHextileOf format.now (value_at self.now.width self.now.colours) area.now bytes.now) }
    {
        self.encoded.find(area, format)
    }

    /// The parts of ZRLE that viewers of it share, where parts were wanted of its last update.
    pub fn parts(&self) -> &SharedParts
        ensures { ArePartsOf self.now.width self.now.colours result.now }
    {
        &self.parts
    }

    /// Applies the next update. It always succeeds, and takes no memory. If a format is `wanted`, the forms of the
    /// tiles that change are made of their new colours, and the areas that change are encoded in that format; otherwise
    /// forms and encoded areas are forgotten. Its viewers share no parts.
    pub fn apply(&mut self, patch: &Patch, wanted: Option<Format>)
        requires size { (patch.now.width ≡ self.old.width) × (patch.now.height ≡ self.old.height) }
        requires number { self.old.number < 2 ^ 62 }
        ensures size { IsSameScreen self.old self.new }
        ensures number { self.new.number ≡ self.old.number + 1 }
        ensures stands { (us : List Update) → BoardStands self.old us
            → BoardStands self.new (us ++ patch.now.update ∷ []) }
    {
        let (number, bells) = counted(self.number, self.bells, patch);
        let keeps = wanted.is_some();
        paint_patch(patch, self.colours.as_mut_slice(), &mut self.forms, keeps);
        patch.touch(&mut self.grid, number);
        let source = AreaSource {
            width: self.width,
            height: self.height,
            colours: self.colours.as_slice(),
            forms: self.forms.list.as_slice(),
        };
        self.encoded.renew(&source, &self.grid, self.number, wanted);
        self.parts.clear();
        patch.note(&mut self.log);
        self.text.follow(patch.text_bytes(), number);
        self.number = number;
        self.size = patch.size_after(self.size);
        self.bells = bells;
    }

    /// Becomes the view of all updates of a newer board of its screen, where it is the view of the first of them. The
    /// tiles that were touched since are copied, and their forms with them as in `take_lacked`. It forgets encoded areas
    /// and parts.
    fn take_over(&mut self, newer: &Board, keeps: bool)
        requires { IsSameScreen self.old newer.now }
        ensures size { IsSameScreen self.old self.new }
        ensures number { self.new.number ≡ newer.now.number }
        ensures stands { (us : List Update) → BoardStands self.old (take self.old.number us)
            → BoardStands newer.now us → BoardStands self.new us }
    {
        let behind = self.number;
        let colours = self.colours.as_mut_slice();
        take_lacked(newer, behind, &self.grid, colours, &mut self.forms, keeps);
        self.encoded.list.clear();
        self.parts.clear();
        self.grid.copy_from(&newer.grid);
        self.text.catch_up(&newer.text, behind);
        self.log.catch_up(&newer.log);
        self.number = newer.number;
        self.size = newer.size;
        self.bells = newer.bells;
    }

    /// Takes over what a newer board of its screen shows but for the tiles that the patch brings, which has no copies,
    /// and then applies the patch, as in `catch_up`.
    fn catch_up_with_tiles(&mut self, newer: &Board, patch: &Patch, wanted: Wanted)
        requires same { IsSameScreen self.old newer.now }
        requires size { (patch.now.width ≡ self.old.width) × (patch.now.height ≡ self.old.height) }
        requires number { newer.now.number < 2 ^ 62 }
        requires tiles { leading_copies (paints_of patch.now.update) ≡ [] }
        ensures size { IsSameScreen self.old self.new }
        ensures number { self.new.number ≡ newer.now.number + 1 }
        ensures stands { (us : List Update) → BoardStands self.old (take self.old.number us)
            → BoardStands newer.now us
            → BoardStands self.new (us ++ patch.now.update ∷ []) }
    {
        let (number, bells) = counted(newer.number, newer.bells, patch);
        // A patch paints whole tiles, so nothing of what was there stays.
        let _ = patch.tiles();
        patch.touch(&mut self.grid, number);
        let keeps = wanted.forms.is_some();
        let colours = self.colours.as_mut_slice();
        take_lacked(
            newer,
            self.number,
            &self.grid,
            colours,
            &mut self.forms,
            keeps,
        );
        paint_patch(patch, colours, &mut self.forms, keeps);
        self.grid.catch_up(&newer.grid, self.number);
        let source = AreaSource {
            width: self.width,
            height: self.height,
            colours: self.colours.as_slice(),
            forms: self.forms.list.as_slice(),
        };
        self.encoded
            .renew(&source, &self.grid, newer.number, wanted.forms);
        self.parts.renew(self.width, &self.colours, wanted.parts);
        self.log.catch_up(&newer.log);
        patch.note(&mut self.log);
        self.text.catch_up(&newer.text, self.number);
        self.text.follow(patch.text_bytes(), number);
        self.number = number;
        self.size = patch.size_after(newer.size);
        self.bells = bells;
    }

    /// Takes over what a newer board of its screen shows, and then applies one update more. This board has to be the
    /// view of the newer one's first updates. The tiles that were touched since are copied with their forms: all of
    /// them where the patch has copies, whose sources may lie there, and otherwise all but those that the patch brings.
    /// It always succeeds, and takes no memory. Forms are kept, and areas encoded, as in `apply`. Where parts are
    /// wanted, its viewers share those of ZRLE.
    pub fn catch_up(&mut self, newer: &Board, patch: &Patch, wanted: Wanted)
        requires same { IsSameScreen self.old newer.now }
        requires size { (patch.now.width ≡ self.old.width) × (patch.now.height ≡ self.old.height) }
        requires number { newer.now.number < 2 ^ 62 }
        ensures size { IsSameScreen self.old self.new }
        ensures number { self.new.number ≡ newer.now.number + 1 }
        ensures stands { (us : List Update) → BoardStands self.old (take self.old.number us)
            → BoardStands newer.now us
            → BoardStands self.new (us ++ patch.now.update ∷ []) }
    {
        if patch.copies().is_empty() {
            self.catch_up_with_tiles(newer, patch, wanted);
        } else {
            let Wanted { forms, parts } = wanted;
            self.take_over(newer, forms.is_some());
            self.apply(patch, forms);
            self.parts.renew(self.width, &self.colours, parts);
        }
    }

    /// Becomes equal to another board of its screen, and forgets its forms, encoded areas and parts. It always
    /// succeeds, and takes no memory.
    pub fn copy_from(&mut self, other: &Board)
        requires { IsSameScreen self.old other.now }
        ensures { self.new ≡ other.now }
    {
        self.colours
            .as_mut_slice()
            .copy_from_slice(other.colours.as_slice());
        self.forms.clear();
        self.encoded.clear();
        self.parts.clear();
        self.grid.copy_from(&other.grid);
        self.text.copy_from(&other.text);
        self.log.copy_from(&other.log);
        self.number = other.number;
        self.size = other.size;
        self.bells = other.bells;
    }

    /// An equal board, made in the room that it is given, which never keeps forms or parts. It always succeeds, and
    /// takes no memory.
    pub(crate) fn copy_to(
        &self,
        alloc: Global,
        colours: Vec<u32>,
        grid: Grid,
        text: LastText,
        log: CopyLog,
    ) -> Board
        requires colours { (colours.items ≡ [])
            × (self.now.width * self.now.height ≤ vec_capacity colours) }
        requires grid { (grid.width ≡ self.now.width) × (grid.height ≡ self.now.height) }
        requires log { (log.width ≡ self.now.width) × (log.height ≡ self.now.height) }
        ensures { result ≡ self.now }
    {
        let mut colours = colours;
        let mut grid = grid;
        let mut text = text;
        let mut log = log;
        // Not refused: there is room.
        let _ = colours.extend_from_slice(self.colours.as_slice());
        grid.copy_from(&self.grid);
        text.copy_from(&self.text);
        log.copy_from(&self.log);
        Board {
            width: self.width,
            height: self.height,
            number: self.number,
            size: self.size,
            colours,
            grid,
            bells: self.bells,
            text,
            log,
            forms: Forms::none(alloc),
            encoded: EncodedAreas::none(alloc),
            parts: SharedParts::none(alloc),
        }
    }
}
