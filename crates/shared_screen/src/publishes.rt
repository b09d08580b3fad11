//! What makes updates known to be published.

ghost use Rattle.left_right.specs.Handles.{published};
ghost use Rattle.shared_screen.specs.History.{puts_of};

use crate::naming::{Naming, Publicity};
use crate::published::Published;
use crate::stamped::Stamped;
use left_right::WriteHandle;
use std::marker::Brand;
use std::sync::Wait;

/// A name of which it is known that what a pair's handle has published counts as published. A body that is generic over
/// the name learns this of no other updates, since only this call says it.
pub trait Publishes: Publicity {
    /// Does nothing. Its clause lets a proof count as published the updates that this handle has published.
    fn known_by<J: Naming, R: Wait + Drop>(handle: &WriteHandle<Published<J>, Stamped<J>, R>)
        ensures { Self.published (puts_of (published handle.now)) };
}

impl Publishes for Brand {
    fn known_by<J: Naming, R: Wait + Drop>(_handle: &WriteHandle<Published<J>, Stamped<J>, R>) {}
}
