//! Laws: what follows for lists of updates that come to the same.

ghost use Rattle.std.specs.Prelude.{◌≡◌, ℕ, ◌<◌, List, [], ◌++◌};
ghost use Rattle.painter.specs.Same.{AreSameUpdates};
ghost use Rattle.raster.specs.Screen.{Canvas, LooksLike, opening, tile_count, tile_rect};
ghost use Rattle.raster.specs.Update.{Update, after_updates, bells, last_size, last_text, screen};
ghost use Rattle.tiles.specs.Touched.{last_touch};

/// Two lists of updates that come to the same from the opening on show the same screen, the same count of Bells, the
/// same last text and the same last size, and in both the same update is the last to touch each tile.
pub fn same_updates_show_the_same()
    ensures screen { (w h : ℕ) (us vs : List Update) → AreSameUpdates w h opening us vs
        → LooksLike w h (screen us) (screen vs) }
    ensures touched { (w h t : ℕ) (us vs : List Update) → t < tile_count w h
        → AreSameUpdates w h opening us vs
        → last_touch (tile_rect w h t) us ≡ last_touch (tile_rect w h t) vs }
    ensures bells { (w h : ℕ) (us vs : List Update) → AreSameUpdates w h opening us vs
        → bells us ≡ bells vs }
    ensures text { (w h : ℕ) (us vs : List Update) → AreSameUpdates w h opening us vs
        → last_text us ≡ last_text vs }
    ensures size { (w h : ℕ) (us vs : List Update) → AreSameUpdates w h opening us vs
        → last_size us ≡ last_size vs }
{}

/// Two empty lists come to the same, and lists that come to the same may be put after others that do.
pub fn same_updates_are_put_together()
    ensures none { (w h : ℕ) (start : Canvas) → AreSameUpdates w h start [] [] }
    ensures behind { (w h : ℕ) (start : Canvas) (us vs more others : List Update)
        → AreSameUpdates w h start us vs
        → AreSameUpdates w h (after_updates start us) more others
        → AreSameUpdates w h start (us ++ more) (vs ++ others) }
{}
