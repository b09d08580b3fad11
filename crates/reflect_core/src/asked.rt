//! What a viewer has asked for (RFC 6143, 7.5.3).

ghost use Rattle.std.specs.Prelude.{◌≡◌, ℕ, ◌+◌, ◌<◌, ◌≤◌, [], ◌∷◌, List, Bool, false, Some, None};
ghost use Rattle.raster.specs.declared.rect.Rect.{Rect};
ghost use Rattle.raster.specs.Screen.{IsWithin, is_empty};
ghost use Rattle.raster.specs.Size.{IsScreenSize};
ghost use Rattle.reflect_core.specs.Asked.{AskedStands, IsSameScreen, LiesOn};
ghost use Rattle.raster.specs.declared.size.Size.{Size};
ghost use Rattle.tiles.specs.Touched.{Event, Requested, NewFormat, NewSize, WasCut, Answered};

use raster::Rect;
use std::marker::Model;

/// The least rectangle that holds all pending requests, whether something was asked for since the last cut, the number
/// of that cut, and that of the last answer.
#[derive(Drop)]
pub struct Asked {
    width: u64,
    height: u64,
    area: Option<Rect>,
    asked: bool,
    last: Option<u64>,
    answered: Option<u64>,
}

impl Model for Asked {
    ghost use Rattle.raster.specs.Size.{IsScreenSize};
    ghost use Rattle.reflect_core.specs.Asked.{Wanted, LiesOn};

    ghost Value = { Wanted };

    ghost view = { λ a. record {
      width = a.width;
      height = a.height;
      area = a.area;
      asked = a.asked;
      last = a.last;
      answered = a.answered;
    } };

    ghost invariant = { λ a. IsScreenSize a.width a.height × LiesOn a.width a.height a.area };
}

impl Asked {
    /// A viewer that has asked for nothing yet, on a screen of `width` by `height` pixels.
    pub fn new(width: u64, height: u64) -> Self
        requires { IsScreenSize width height }
        ensures size { (result.width ≡ width) × (result.height ≡ height) }
        ensures last { result.last ≡ None }
        ensures stands { AskedStands result [] }
    {
        Asked {
            width,
            height,
            area: None,
            asked: false,
            last: None,
            answered: None,
        }
    }

    /// A request was taken, whether incremental or not, and was clipped to the screen. An empty one is forgotten.
    pub fn request(&mut self, clipped: &Rect)
        requires { is_empty clipped.now ≡ false
            → IsWithin clipped.now self.old.width self.old.height }
        ensures size { IsSameScreen self.old self.new }
        ensures last { self.new.last ≡ self.old.last }
        ensures stands { (incremental : Bool) (es : List Event) → AskedStands self.old es
            → AskedStands self.new (Requested incremental clipped.now ∷ es) }
    {
        if clipped.is_empty() {
            return;
        }
        let area = match self.area {
            None => *clipped,
            Some(before) => clipped.cover(&before),
        };
        self.area = Some(area);
        self.asked = true;
    }

    /// A pixel format was taken: what was answered before isn't held any longer (RFC 6143, 7.5.1).
    pub fn new_format(&mut self)
        ensures size { IsSameScreen self.old self.new }
        ensures last { self.new.last ≡ self.old.last }
        ensures stands { (es : List Event) → AskedStands self.old es
            → AskedStands self.new (NewFormat ∷ es) }
    {
        self.asked = true;
        self.answered = None;
    }

    /// The source was cut, at this number.
    pub fn was_cut(&mut self, number: u64)
        ensures size { IsSameScreen self.old self.new }
        ensures area { self.new.area ≡ self.old.area }
        ensures last { self.new.last ≡ Some number }
        ensures stands { (es : List Event) → AskedStands self.old es
            → AskedStands self.new (WasCut number ∷ es) }
    {
        self.asked = false;
        self.last = Some(number);
    }

    /// An answer was begun, cut at this number: nothing is pending any longer.
    pub fn answered(&mut self, number: u64)
        ensures size { IsSameScreen self.old self.new }
        ensures last { self.new.last ≡ self.old.last }
        ensures stands { (area : Rect) (es : List Event) → AskedStands self.old es
            → AskedStands self.new (Answered area number ∷ es) }
    {
        self.area = None;
        self.answered = Some(number);
    }

    /// A size is told: nothing is pending any longer, and what was answered before isn't held (RFC 6143, 7.8.2).
    pub fn resized(&mut self)
        ensures size { IsSameScreen self.old self.new }
        ensures last { self.new.last ≡ self.old.last }
        ensures stands { (size : Size) (es : List Event) → AskedStands self.old es
            → AskedStands self.new (NewSize size ∷ es) }
    {
        self.area = None;
        self.answered = None;
    }

    /// The pending area, which lies on the screen.
    pub fn area(&self) -> Option<Rect>
        ensures value { result ≡ self.now.area }
        ensures within { LiesOn self.now.width self.now.height result }
    {
        self.area
    }

    /// Whether a request or a pixel format was taken since the last cut.
    pub fn has_asked(&self) -> bool
        ensures { result ≡ self.now.asked }
    {
        self.asked
    }

    /// The number of the last answer, unless a pixel format was taken or a size was told since.
    pub fn last_answer(&self) -> Option<u64>
        ensures { result ≡ self.now.answered }
    {
        self.answered
    }

    /// The number of the last cut.
    pub fn last_cut(&self) -> Option<u64>
        ensures { result ≡ self.now.last }
    {
        self.last
    }
}
