//! Laws about all that a viewer sends.

ghost use Rattle.std.specs.Prelude.{◌≡◌, ◌≢◌, ℕ, ◌-◌, min, Bool, List, ◌∷◌, ◌++◌, length, map, true, false};
ghost use Rattle.fault.specs.declared.limits.TheConstants.{LIMIT};
ghost use Rattle.rfb_wire.specs.ClientMessage.{ClientMessage};
ghost use Rattle.roles.specs.declared.role.Role.{Role};
ghost use Rattle.roles.specs.Allowed.{allowed};
ghost use Rattle.roles.specs.Held.{Kept, HeldStands, left_in};
ghost use Rattle.roles.specs.Strokes.{Taken, input_from, sent_by, has_down, unbroken, dropped, IsPickedFrom};

/// All that is allowed of a viewer that leaves is what passed of its messages, followed by what `Held::release` gives
/// then.
pub fn releases_are_allowed()
    ensures { (role : Role) (held : Kept) (messages : List ClientMessage)
        → HeldStands role held messages
        → allowed role messages true ≡ allowed role messages false ++ left_in held }
{}

/// What passes of the input of several places.
///
/// Of what a place sent, some inputs pass, in the order in which it sent them, each at most once. Where an input of a
/// place passes, no other place has a key or a button down: between a place's first press and the last release of its
/// keys and buttons nothing of another place passes. Where only one place sends, all that its viewer is allowed passes,
/// with the releases once it has left. Each input that doesn't pass is dropped, and counted for the place that sent it.
pub fn strokes_are_whole()
    ensures picked { (place : ℕ) (taken : List Taken)
        → IsPickedFrom (sent_by place (unbroken taken)) (sent_by place taken) }
    ensures whole { (taken before after : List Taken) (t : Taken)
        → unbroken taken ≡ before ++ t ∷ after
        → (place : ℕ) → place ≢ t.place
        → has_down place before ≡ false }
    ensures alone { (place : ℕ) (role : Role) (messages : List ClientMessage) (left : Bool)
        → unbroken (map (input_from place) (allowed role messages left))
        ≡ map (input_from place) (allowed role messages left) }
    ensures counted { (place : ℕ) (taken : List Taken) → dropped place taken
        ≡ min LIMIT (length (sent_by place taken) - length (sent_by place (unbroken taken))) }
{}
