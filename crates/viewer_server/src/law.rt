//! A law about what a served viewer is shown.

ghost use Rattle.viewer_server.specs.Following.{HoldsAfterEachAnswer};

/// After each answer that `run_viewer` gives, a follower of all answers holds the area asked for, as the screen shows
/// it after some whole number of updates, in the viewer's pixel format. That number is at least every number that was
/// seen or cut at before.
pub fn viewer_holds_each_answer()
    ensures { HoldsAfterEachAnswer }
{}
