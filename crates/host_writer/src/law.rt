//! A law about all that a writer tells.

ghost use Rattle.std.specs.Prelude.{◌≡◌, ℕ, List, ◌++◌};
ghost use Rattle.roles.specs.Strokes.{Taken, sent_by, unbroken, IsPickedFrom};
ghost use Rattle.host_writer.specs.Writing.{Did, all_taken, told};

/// The inputs that pass, of all that were taken, are those that passed before this host and then those that this host
/// is told.
///
/// So of what a place sent, only some inputs pass, in the order in which the place sent them, and each at most once.
pub fn told_input_is_unbroken()
    ensures told { (before : List Taken) (did : List Did)
        → unbroken (all_taken before did) ≡ unbroken before ++ told before did }
    ensures picked { (place : ℕ) (before : List Taken) (did : List Did)
        → IsPickedFrom (sent_by place (unbroken before ++ told before did))
        (sent_by place (all_taken before did)) }
{}
