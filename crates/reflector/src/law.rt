//! Laws about the visits of a place.

ghost use Rattle.std.specs.Prelude.{◌≡◌, ◌≤◌, ◌+◌, ◌++◌, ◌∷◌, [], List, length};
ghost use Rattle.link.specs.Links.{LinkState};
ghost use Rattle.run_traits.specs.Trails.{KeepsTrail};
ghost use Rattle.raster.specs.Update.{Update, view};
ghost use Rattle.reflect_core.specs.Sequential.{Begins, Shared};
ghost use Rattle.reflect_core.specs.Sequential as step;
ghost use Rattle.shared_screen.specs.Reaches.{Reaches};
ghost use Rattle.viewer_server.specs.Serving.{IsShown};
ghost use Rattle.viewer_session.specs.Acts.{Act};
ghost use Rattle.reflector.specs.History.{IsOneHistory, LooksFollow, own_steps};
ghost use Rattle.roles.specs.declared.role.Role as roles;
ghost use Rattle.roles.specs.declared.role.Role.TheVariants.{View};
ghost use Rattle.viewer_session.specs.Viewer.{Setup};
ghost use Rattle.reflector.specs.Promise.{IsServedWhole, KeepsPromise};
ghost use Rattle.reflector.specs.Links.{AreReceivedOver};
ghost use Rattle.reflector.specs.Visits.{AllBegin, AreVisits, At, HasVisits, IsReceived};

use link::StopFlag;
use reflect_core::ScreenSource;
use roles::InputSink;
use run_traits::Door;

/// All visits of a place are of one list of updates: what the place's source knew before a visit begins what it knows
/// in the end.
pub fn visits_are_of_one_list<S: ScreenSource, K: InputSink, D: Door, F: StopFlag>()
    ensures { (stop : F) (s : Setup) (role : roles.Role)
        (old : At D S) (befores : List (At D S)) (last : At D S)
        → AreVisits D.lets_in D.sees_off (λ source_old source_new sent_old sent_new why left.
        IsReceived S.looks S.cuts S.may_end (F.was_set stop) K.may_refuse S.known
        s role source_old source_new sent_old sent_new why left) old befores last
        → AllBegin S.known befores last }
{}

/// The visits of a place keep the promise, over each list that begins with what the place's source knows in the end.
pub fn visits_keep_the_promise<S: ScreenSource, K: InputSink, D: Door, F: StopFlag>()
    ensures { (stop : F) (s : Setup) (role : roles.Role) (old new : At D S)
        → s.w ≤ 4096 → s.h ≤ 4096
        → HasVisits D.lets_in D.sees_off (λ source_old source_new sent_old sent_new why left.
        IsReceived S.looks S.cuts S.may_end (F.was_set stop) K.may_refuse
        S.known s role source_old source_new sent_old sent_new why left) old new
        → KeepsPromise D.lets_in D.sees_off S.known s role old new }
{}

/// Where the door of a place keeps a trail of its viewers' links, the place's visits are over the links of that trail.
/// When the door is given back, its trail has two links more for each visit: the link as it came, unused, and the link
/// as it was left. It is so of what was done for each viewer (`received`), and of the promise that was kept to it
/// (`whole`).
pub fn visits_are_over_the_links_of_the_trail<S: ScreenSource, K: InputSink, D: Door, F: StopFlag>()
    ensures received { (trail : D → List LinkState) (stop : F)
        (s : Setup) (role : roles.Role) (old new : At D S)
        → KeepsTrail D.lets_in D.sees_off trail
        → HasVisits D.lets_in D.sees_off (λ source_old source_new sent_old sent_new why left.
        IsReceived S.looks S.cuts S.may_end (F.was_set stop) K.may_refuse
        S.known s role source_old source_new sent_old sent_new why left) old new
        → (links : List LinkState) × (trail new.door ≡ trail old.door ++ links)
        × AreReceivedOver (λ source_old source_new sent_old sent_new why left.
        IsReceived S.looks S.cuts S.may_end (F.was_set stop) K.may_refuse S.known s role source_old
        source_new sent_old sent_new why left) old.source old.sent links new.source new.sent }
    ensures whole { (trail : D → List LinkState) (us : List Update)
        (s : Setup) (role : roles.Role) (old new : At D S)
        → KeepsTrail D.lets_in D.sees_off trail
        → HasVisits D.lets_in D.sees_off (λ source_old source_new sent_old sent_new why left.
        IsServedWhole us s role sent_old sent_new left) old new
        → (links : List LinkState) × (trail new.door ≡ trail old.door ++ links)
        × AreReceivedOver (λ source_old source_new sent_old sent_new why left. IsServedWhole us s
        role sent_old sent_new left) old.source old.sent links new.source new.sent }
{}

/// A place that keeps the promise to viewers that only look on sends nothing of their input, nor a release.
pub fn viewers_that_look_on_send_nothing<S: ScreenSource, D: Door>()
    ensures { (s : Setup) (old new : At D S)
        → KeepsPromise D.lets_in D.sees_off S.known s View old new
        → new.sent ≡ old.sent }
{}

/// The looks and cuts of each viewer that is served over a shared screen are steps of one history, in their order and
/// with their replies; and a look after a cut numbered k replies at least k - 1. The premise is a part of what a place
/// promises of each visit (`IsReceived`: `shown`).
pub fn looks_and_cuts_are_one_history()
    ensures { (us : List Update) (old : Shared) (acts : List Act) (new : Shared)
        → old.tally ≤ length old.updates
        → length old.updates ≤ old.tally + 1
        → IsShown (λ a n b. Reaches a (step.Look n ∷ []) b) (λ a n b.
        (n ≡ length b.updates) × Reaches a (step.Cut (view b.updates) ∷ []) b) old acts new
        → Begins new.updates us
        → IsOneHistory old (own_steps us acts) new × LooksFollow acts }
{}
