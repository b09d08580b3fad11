//! A change of the history.

use painter::Patch;
use std::marker::Model;

/// What a change of the history does.
enum ChangeKind {
    /// The update of this patch is put.
    Put(Patch),
    /// The tally becomes this number of updates.
    Raise(u64),
}

/// An update is put, or the tally is raised. Only contracts speak of changes: no value of this type is ever made.
pub struct Change {
    kind: ChangeKind,
}

impl Model for Change {
    ghost use Rattle.shared_screen.specs.History as history;
    ghost use Rattle.shared_screen.specs.Named.{change_of};

    ghost Value = { history.Change };

    ghost view = { λ c. change_of c.kind };
}
