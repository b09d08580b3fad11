//! Laws about what is written in either form: it is read back, and is made of the colours of its rectangle.

ghost use Rattle.std.specs.Prelude.{◌≡◌, ℕ, ◌≤◌, List, length, map};
ghost use Rattle.pixel_format.specs.PixelFormat.{PixelFormat, tint};
ghost use Rattle.raster.specs.declared.encoding.Encoding.{Encoding};
ghost use Rattle.raster.specs.Encoding.{form};
ghost use Rattle.raster.specs.Screen.{Canvas};
ghost use Rattle.joined_runs.specs.declared.rect_form.RectForm.{RectForm};
ghost use Rattle.joined_runs.specs.declared.rect_form.RectForm.TheVariants.{Joined};
ghost use Rattle.joined_runs.specs.Joined.{background_of, form_of, subrects_of};
ghost use Rattle.joined_runs.specs.Laws.{IsReadBack, FormDetermines};
ghost use Rattle.joined_runs.specs.Tinted.{ShowsApart, tinted_subrect};

/// In each encoding either form of a rectangle of pixel values spells these values.
pub fn form_is_read()
    ensures { (runs : RectForm) (encoding : Encoding) → IsReadBack runs encoding }
{}

/// No two rectangles of one size with different pixel values have the same form.
pub fn forms_differ()
    ensures { (runs : RectForm) → FormDetermines runs }
{}

/// The joined form never has more bytes than the form of the runs of rows.
pub fn joined_is_shorter()
    ensures { (encoding : Encoding) (format : PixelFormat) (w h : ℕ) (values : List ℕ)
        → length (form_of Joined encoding format w h values)
        ≤ length (form encoding format w h values) }
{}

/// In a format that keeps colours apart, either form of a tile's pixel values is the form of its colours with each
/// colour replaced by its pixel value: the background, and each subrectangle, in the same place.
pub fn form_is_tinted()
    ensures background { (runs : RectForm) (format : PixelFormat) (w h : ℕ) (colours shown : Canvas)
        → ShowsApart format w h colours shown
        → background_of runs w h shown ≡ tint format (background_of runs w h colours) }
    ensures subrects { (runs : RectForm) (format : PixelFormat) (w h : ℕ) (colours shown : Canvas)
        → ShowsApart format w h colours shown
        → subrects_of runs w h shown ≡ map (tinted_subrect format) (subrects_of runs w h colours) }
{}
