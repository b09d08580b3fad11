//! A law about all that is done for a viewer.

ghost use Rattle.viewer_session.specs.Acts.{HandsOutAllowed, ReleasesAllowed};

/// After every list of acts, the inputs that `Session::take_input` handed out and then the one that waits are all that
/// is allowed of the messages taken, in order. Followed by what `Session::leave` then gives, they are all that is
/// allowed of a viewer that has left.
pub fn input_is_allowed()
    ensures stays { HandsOutAllowed }
    ensures leaves { ReleasesAllowed }
{}
