//! The name of a history, which all its ends share.

use std::marker::Brand;

/// Says what it is for updates to be published.
pub trait Publicity {
    ghost use Rattle.std.specs.Prelude.{List};
    ghost use Rattle.raster.specs.Update.{Update};

    /// The fact that these updates are published. Each name decides what that means, so a body that is generic over the
    /// name has such a fact only where another call has told it.
    ghost published: { List Update → Type 0 };
}

impl Publicity for Brand {
    // Nothing rests on what this fact is here, since each body that needs it is generic.
    ghost published = { λ us. Unit {0} };
}

/// Names a history and the size of its screen. It is a type parameter of all ends, which are so known to belong to one
/// history. No value of it is ever made; a program picks it once.
pub trait Naming: Publicity {
    ghost use Rattle.std.specs.Prelude.{ℕ};
    ghost use Rattle.logbook.specs.Pages.{Book};

    /// The book in which the history of this name is kept.
    ghost book: { Book };

    /// The width of its screen in pixels.
    ghost width: { ℕ };

    /// The height of its screen in pixels.
    ghost height: { ℕ };
}

impl Naming for Brand {
    ghost book = { record { number = 0; log_name = 0; cells_name = 0 } };

    ghost width = { 0 };

    ghost height = { 0 };
}
