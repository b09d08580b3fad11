//! Joins a place, and says what is known then.

ghost use Rattle.std.specs.Prelude.{◌≡◌, ◌⊎◌, ⊤, [], ◌∷◌, length};
ghost use Rattle.fault.specs.declared.kinds.Fault.TheVariants.{NumbersOut, QueueFull};
ghost use Rattle.raster.specs.Update.{view};
ghost use Rattle.input_relay.specs.Ends.{inputs_of};
ghost use Rattle.roles.specs.declared.role.Role.TheVariants.{View};
ghost use Rattle.reflect_core.specs.Sequential.{Begins, Shared};
ghost use Rattle.reflect_core.specs.Sequential as step;
ghost use Rattle.reflector.specs.Promise.{IsServedWhole};
ghost use Rattle.reflector.specs.Senders.{IsSameSender};
ghost use Rattle.reflector.specs.Visits.{HasVisits, IsReceived, at, setup_of};
ghost use Rattle.shared_screen.specs.History.{puts_of};
ghost use Rattle.shared_screen.specs.Reaches.{Reaches};

use crate::place::{Place, PlaceHandle};
use run_traits::Door;
use shared_screen::{Naming, Publisher, Publishes, Watcher};
use std::sync::Wait;
use std::thread::Threads;

/// Waits for a place of a run to end, and lets its watcher meet the run's publisher.
///
/// The updates that the place's watcher knew before begin those that it knows then, and so do the publisher's; the
/// longer of these two lists is all that it knows. Over this list each viewer that the place's door let in was served
/// whole screens in the place's role, one viewer after another, and no more of its input was sent than the role allows
/// (`IsServedWhole`). Where the viewers only look on, the sender has sent nothing. Each look and each cut of these
/// visits is a step of the watcher's history (`IsReceived`).
pub fn join_place<J, D, R>(
    rt: &R,
    handle: PlaceHandle<Watcher<J>, D, R>,
    publisher: &Publisher<J, R>,
) -> Place<Watcher<J>, D, R>
where
    J: Naming + Publishes,
    D: Door,
    R: Threads + Wait + Drop,
    ensures sender { IsSameSender handle.promise.sender.value result.sender }
    ensures view { handle.promise.role ≡ View
        → inputs_of result.sender ≡ inputs_of handle.promise.sender.value }
    ensures list { Begins (puts_of publisher.now.changes) result.watcher.updates }
    ensures promise { (last : Shared) × Begins last.updates result.watcher.updates
        × ((result.watcher.updates ≡ last.updates)
        ⊎ (result.watcher.updates ≡ puts_of publisher.now.changes))
        × HasVisits D.lets_in D.sees_off (λ source_old source_new sent_old sent_new why left.
        IsServedWhole result.watcher.updates
        (setup_of handle.promise.width handle.promise.height handle.promise.name.value.items
        handle.promise.form handle.promise.host) handle.promise.role sent_old sent_new left)
        (at handle.promise.door.value handle.promise.watcher.value
        (inputs_of handle.promise.sender.value)) (at result.door last (inputs_of result.sender)) }
    ensures shown { (last : Shared) × Begins last.updates result.watcher.updates
        × HasVisits D.lets_in D.sees_off (λ source_old source_new sent_old sent_new why left.
        IsReceived (λ a n b. Reaches a (step.Look n ∷ []) b)
        (λ a n b. (n ≡ length b.updates) × Reaches a (step.Cut (view b.updates) ∷ []) b)
        (Unit {0}) ⊤ (λ fault. (fault ≡ QueueFull) ⊎ (fault ≡ NumbersOut)) (λ w. w.updates)
        (setup_of handle.promise.width handle.promise.height
        handle.promise.name.value.items handle.promise.form handle.promise.host)
        handle.promise.role source_old source_new sent_old sent_new why left)
        (at handle.promise.door.value handle.promise.watcher.value
        (inputs_of handle.promise.sender.value)) (at result.door last (inputs_of result.sender)) }
{
    let Place {
        door,
        mut watcher,
        sender,
    } = handle.join(rt);
    watcher.meet(publisher);
    Place {
        door,
        watcher,
        sender,
    }
}
