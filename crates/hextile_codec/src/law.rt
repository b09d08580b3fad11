//! What a tile has of the colours that it shows.

ghost use Rattle.std.specs.Prelude.{ℕ};
ghost use Rattle.pixel_format.specs.PixelFormat.{PixelFormat};
ghost use Rattle.raster.specs.Screen.{Canvas};
ghost use Rattle.joined_runs.specs.declared.rect_form.RectForm.{RectForm};
ghost use Rattle.joined_runs.specs.Tinted.{ShowsApart};
ghost use Rattle.hextile_codec.specs.Apart.{tinted_head};
ghost use Rattle.hextile_codec.specs.Heads.{IsHeadOf};
ghost use Rattle.hextile_codec.specs.declared.tile_kind.Head.{Head};

/// In a format that keeps colours apart, the head of a tile of pixel values is that of its colours, each as its pixel
/// value: the background, whether the tile is plain, of two colours or of more, and how many subrectangles it has.
pub fn head_is_tinted()
    ensures { (form : RectForm) (format : PixelFormat) (w h : ℕ)
        (colours shown : Canvas) (head : Head)
        → ShowsApart format w h colours shown
        → IsHeadOf form w h colours head
        → IsHeadOf form w h shown (tinted_head format head) }
{}
