//! What the schedule of a world has come to.

ghost use Rattle.reflect_world.specs.Relay.{inputs_told, relayed_of, spelled};
ghost use Rattle.std.specs.Prelude.{◌≡◌, ℕ, ◌<◌, ◌≤◌, ◌-◌, ◌++◌, false, nat_lt, [], None, length, map, take, IfOk, IfErr, OnOk};
ghost use Rattle.std.specs.Option.{option_copied};
ghost use Rattle.fault.specs.declared.kinds.Fault.TheVariants.{Memory};
ghost use Rattle.raster.specs.Size.{IsScreenSize};
ghost use Rattle.roles.specs.Strokes.{dropped};
ghost use Rattle.viewer_session.specs.Viewer.{Setup};
ghost use Rattle.reflect_world.specs.Schedule.{Put, Raise, Join, HostBytes, Bytes, Look, Cut, Written, Send, Take, Leave, beginning, taken_from, Next};
ghost use Rattle.reflect_core.specs.Plain.{IsPutRefusal};
ghost use Rattle.reflect_world.specs.World.{waits_at, IsPlain, IsPut, IsReachable, IsRefusal, IsSeen, JoinsUnder, Leaves, Reached, ShowsStep, ShowsUnder, StaysSeen, TakesStep, left_by, place_at, step_of, step_with, IsUnread, StaysFor};

use crate::host::Host;
use crate::place::Place;
use crate::relay::Relay;
use crate::step::Step;
use fault::Fault;
use joined_runs::RectForm;
use painter::Patch;
use reflect_core::{PlainScreen, Puts, ScreenSource};
use roles::Role;
use std::alloc::{AllocError, Global};
use std::marker::Model;

/// Places are numbered below this. That of number 0 stays free.
pub(crate) const PLACES: u64 = 65;

/// The screen, the host, the fault that its bytes showed, the viewers by number, the room for inputs, and the inputs on
/// their way to the host.
#[derive(Drop)]
pub(crate) struct Scene {
    alloc: Global,
    screen: PlainScreen,
    host: Host,
    host_fault: Option<Fault>,
    places: Vec<Option<Place>>,
    room: u64,
    relay: Relay,
}

impl Model for Scene {
    ghost use Rattle.reflect_world.specs.World.{Standing};

    ghost Value = { Standing };

    ghost view = { λ s. record {
      screen = s.screen;
      host = s.host;
      host_fault = s.host_fault;
      places = s.places.items;
      room = s.room;
      relay = s.relay;
    } };
}

impl Scene {
    /// The scene before any step. It fails where memory is refused (`Memory`).
    pub(crate) fn new(alloc: Global, width: u64, height: u64, room: u64) -> Result<Self, Fault>
        requires { IsScreenSize width height }
        ensures ok { IfOk result (λ scene.
            (s : Setup) → s.w ≡ width → s.h ≡ height → s.room ≡ room → IsPlain s.form
            → Reached s scene beginning) }
        ensures err { IfErr result (λ fault. fault ≡ Memory) }
    {
        let Ok(places) = free_places(alloc) else {
            return Err(Fault::Memory);
        };
        let relay = Relay::new(alloc)?;
        Ok(Scene {
            alloc,
            screen: PlainScreen::new(alloc, width, height)?,
            host: Host::new(alloc, width, height)?,
            host_fault: None,
            places,
            room,
            relay,
        })
    }

    /// The fault that the host's bytes showed, if there is one.
    pub(crate) fn host_fault(&self) -> Option<Fault>
        ensures { result ≡ self.now.host_fault }
    {
        self.host_fault
    }

    /// How many updates were put.
    pub(crate) fn updates(&self) -> u64
        ensures { result ≡ length self.now.screen.updates }
    {
        self.screen.updates()
    }

    /// The viewer of this number, if it is there.
    pub(crate) fn place(&self, viewer: u64) -> Option<&Place>
        ensures { option_copied result ≡ place_at self.now.places viewer }
    {
        match self.places.get(viewer as usize) {
            Some(place) => place.as_ref(),
            None => None,
        }
    }

    /// A viewer joins and begins anew, over a screen with a name of 1 to 255 bytes. It is answered in this form. Where
    /// memory is refused (`Memory`) nothing has changed.
    pub(crate) fn join(
        &mut self,
        viewer: u64,
        role: Role,
        name: &[u8],
        runs: RectForm,
        greet: bool,
    ) -> Result<(), Fault>
        requires there { viewer < 65 }
        requires name { (1 ≤ length name.now) × (length name.now ≤ 255) }
        requires seen { IsSeen self.old }
        ensures ok { OnOk result
            (JoinsUnder name.now runs (Join viewer role greet) self.old self.new) }
        ensures shows { OnOk result
            (ShowsUnder name.now runs (Join viewer role greet) self.old self.new) }
        ensures err { IfErr result (λ fault. (fault ≡ Memory) × (self.new ≡ self.old)) }
    {
        let (width, height) = self.screen.size();
        let place = Place::new(self.alloc, width, height, name, role, runs, greet)?;
        self.places[viewer as usize] = Some(place);
        Ok(())
    }

    /// A viewer leaves, if it is there: its waiting input and the releases of what it holds down go into the queue, as
    /// far as there is room. Where memory is refused (`Memory`) nothing has changed.
    pub(crate) fn leave(&mut self, viewer: u64) -> Result<(), Fault>
        requires seen { IsSeen self.old }
        ensures ok { OnOk result (TakesStep (Leave viewer) self.old self.new) }
        ensures shows { OnOk result (ShowsStep (Leave viewer) self.old self.new) }
        ensures err { IfErr result (λ fault. (fault ≡ Memory) × (self.new ≡ self.old)) }
    {
        if viewer >= PLACES {
            return Ok(());
        }
        let slot = &mut self.places[viewer as usize];
        let Some(place) = slot else {
            return Ok(());
        };
        self.relay.reserve(place.inputs_left())?;
        relay_left(viewer, place, self.room, &mut self.relay);
        self.places[viewer as usize] = None;
        Ok(())
    }

    /// Whether an input of a viewer waits.
    pub(crate) fn is_waiting(&self, viewer: u64) -> bool
        ensures { result ≡ waits_at (place_at self.now.places viewer) }
    {
        match self.place(viewer) {
            Some(place) => place.is_waiting(),
            None => false,
        }
    }

    /// Whether there is room for a further input in the queue to the host.
    pub(crate) fn has_room(&self) -> bool
        ensures { result ≡ nat_lt (length self.now.relay.queue) self.now.room }
    {
        self.relay.len() < self.room
    }

    /// How many inputs are in the queue to the host.
    pub(crate) fn queued(&self) -> u64
        ensures { result ≡ length self.now.relay.queue }
    {
        self.relay.len()
    }

    /// All that the host was sent of the viewers' input.
    pub(crate) fn host_sent(&self) -> &[u8]
        ensures { result.now ≡ spelled (inputs_told self.now.relay.taken) }
    {
        self.relay.sent()
    }

    /// How many inputs of a viewer were dropped on their way to the host.
    pub(crate) fn dropped(&self, viewer: u64) -> u64
        requires { viewer < 65 }
        ensures { result ≡ dropped viewer (map taken_from self.now.relay.taken) }
    {
        self.relay.dropped(viewer)
    }

    /// Takes a step. For each text of a viewer that the step completes `lost` gets a mark: whether that text found no
    /// memory. Where memory is refused (`Memory`), or there are no more numbers of updates (`NumbersOut`), the step
    /// isn't taken: what is seen is what the steps before have come to, and after `NumbersOut` further steps may be
    /// taken. `Raise`, `Look` and `Cut` are always taken.
    pub(crate) fn take(&mut self, step: &Step, lost: &mut Vec<bool>) -> Result<(), Fault>
        requires reachable { IsReachable self.old }
        requires unmarked { lost.old.items ≡ [] }
        ensures ok { OnOk result (TakesStep (step_with step.now lost.new.items) self.old self.new) }
        ensures err { IfErr result (λ fault.
            IsRefusal (step_of step.now) self.old fault × Leaves self.old self.new fault) }
    {
        match step {
            Step::HostBytes(bytes) => self.host_bytes(bytes.as_slice()),
            Step::Put => self.put_next(),
            Step::Raise => {
                self.raise();
                Ok(())
            }
            Step::Next => self.next_host(),
            Step::Bytes(viewer, bytes) => self.feed(*viewer, bytes.as_slice(), lost),
            Step::Look(viewer) => {
                self.look(*viewer);
                Ok(())
            }
            Step::Cut(viewer) => {
                self.cut(*viewer);
                Ok(())
            }
            Step::Written(viewer, count) => self.write(*viewer, *count),
            Step::Send(viewer) => self.send(*viewer),
            Step::Take => self.relay.take(),
        }
    }

    /// Bytes of the host come, and are kept.
    fn host_bytes(&mut self, bytes: &[u8]) -> Result<(), Fault>
        ensures ok { OnOk result (TakesStep (HostBytes bytes.now) self.old self.new) }
        ensures err { IfErr result (λ fault. (fault ≡ Memory) × (self.new ≡ self.old)) }
    {
        self.host.add(bytes)
    }

    /// The next update in the host's bytes is put. Where there is none left, the fault at which they stand is noted.
    fn put_next(&mut self) -> Result<(), Fault>
        requires { IsReachable self.old }
        ensures ok { OnOk result (TakesStep Put self.old self.new) }
        ensures err { IfErr result (λ fault.
            IsRefusal Put self.old fault × StaysFor self.old self.new) }
    {
        match self.host.next_patch() {
            Ok(Some(patch)) => self.put(patch),
            Ok(None) => {
                self.host_fault = None;
                Ok(())
            }
            Err(fault) => match fault {
                Fault::Memory => Err(Fault::Memory),
                fault => {
                    self.host_fault = Some(fault);
                    Ok(())
                }
            },
        }
    }

    /// The next host begins, where no update of this one is left to be put, and its bytes are at no fault.
    fn next_host(&mut self) -> Result<(), Fault>
        requires { IsReachable self.old }
        ensures ok { OnOk result (TakesStep Next self.old self.new) }
        ensures err { IfErr result (λ fault. (fault ≡ Memory) × StaysFor self.old self.new) }
    {
        match self.host.next_patch() {
            Ok(Some(patch)) => {
                self.host.keep(patch);
                Ok(())
            }
            Ok(None) => self.host.next_host(),
            Err(fault) => match fault {
                Fault::Memory => Err(Fault::Memory),
                _ => Ok(()),
            },
        }
    }

    /// Puts an update. One that is refused waits for the next step that puts.
    fn put(&mut self, patch: Patch) -> Result<(), Fault>
        requires none { self.old.host.waiting ≡ None }
        requires size { (patch.width ≡ self.old.screen.width)
            × (patch.height ≡ self.old.screen.height) }
        requires host_size { (patch.width ≡ self.old.host.decoder.width)
            × (patch.height ≡ self.old.host.decoder.height) }
        ensures ok { OnOk result (IsPut self.old self.new patch.update) }
        ensures err { IfErr result (λ fault. IsPutRefusal (length self.old.screen.updates) fault
            × IsUnread self.old self.new patch.update) }
    {
        match self.screen.put(patch) {
            Ok(_) => Ok(()),
            Err((fault, refused)) => {
                self.host.keep(refused);
                Err(fault)
            }
        }
    }

    /// The tally becomes the number of updates.
    fn raise(&mut self)
        ensures { TakesStep Raise self.old self.new }
    {
        self.screen.raise();
    }

    /// Bytes of a viewer are read, if it is there.
    fn feed(&mut self, viewer: u64, bytes: &[u8], lost: &mut Vec<bool>) -> Result<(), Fault>
        requires reachable { IsReachable self.old }
        requires unmarked { lost.old.items ≡ [] }
        ensures ok { OnOk result
            (TakesStep (Bytes viewer bytes.now lost.new.items) self.old self.new) }
        ensures err { IfErr result (λ fault. (fault ≡ Memory) × StaysSeen self.old self.new) }
    {
        if viewer < PLACES {
            let slot = &mut self.places[viewer as usize];
            if let Some(place) = slot {
                return place.feed(bytes, lost);
            }
        }
        Ok(())
    }

    /// A viewer's waiting input goes into the queue, if it is there and there is room.
    fn send(&mut self, viewer: u64) -> Result<(), Fault>
        requires { IsReachable self.old }
        ensures ok { OnOk result (TakesStep (Send viewer) self.old self.new) }
        ensures err { IfErr result (λ fault. (fault ≡ Memory) × StaysSeen self.old self.new) }
    {
        let has_room = self.has_room();
        if viewer >= PLACES {
            return Ok(());
        }
        let slot = &mut self.places[viewer as usize];
        let Some(place) = slot else {
            return Ok(());
        };
        if !has_room {
            place.forget_look();
            return Ok(());
        }
        self.relay.reserve(1)?;
        if let Some(input) = place.send() {
            self.relay.push(viewer, input);
        }
        Ok(())
    }

    /// A viewer looks at the tally, if it is there and may look.
    fn look(&mut self, viewer: u64)
        requires { IsReachable self.old }
        ensures { TakesStep (Look viewer) self.old self.new }
    {
        if viewer < PLACES {
            let tally = self.screen.look();
            let slot = &mut self.places[viewer as usize];
            if let Some(place) = slot {
                place.look(tally);
            }
        }
    }

    /// A viewer that has just looked cuts and answers, where there is reason for it.
    fn cut(&mut self, viewer: u64)
        requires { IsReachable self.old }
        ensures { TakesStep (Cut viewer) self.old self.new }
    {
        if viewer < PLACES {
            let slot = &mut self.places[viewer as usize];
            if let Some(place) = slot {
                place.cut(&mut self.screen);
            }
        }
    }

    /// This many of a viewer's unsent bytes are written, if it is there. Where memory is refused, what was written
    /// before is still seen.
    fn write(&mut self, viewer: u64, count: u64) -> Result<(), Fault>
        requires { IsReachable self.old }
        ensures ok { OnOk result (TakesStep (Written viewer count) self.old self.new) }
        ensures err { IfErr result (λ fault. (fault ≡ Memory) × StaysSeen self.old self.new) }
    {
        if viewer < PLACES {
            let slot = &mut self.places[viewer as usize];
            if let Some(place) = slot {
                return place.write(count);
            }
        }
        Ok(())
    }
}

/// Puts what goes to the host of a viewer that leaves at the end of the queue, as far as there is room. Memory for it
/// has to be taken before.
fn relay_left(viewer: u64, place: &mut Place, room: u64, relay: &mut Relay)
    requires { length (left_by place.old) ≤ relay.old.spare }
    ensures queue { relay.new.queue ≡ relay.old.queue
        ++ take (room - length relay.old.queue) (relayed_of viewer (left_by place.old)) }
    ensures taken { relay.new.taken ≡ relay.old.taken }
{
    while relay.len() < room {
        let Some(input) = place.leave() else {
            return;
        };
        relay.push(viewer, input);
    }
}

/// A place for each number of a viewer, with no viewer in any. It fails where memory is refused.
fn free_places(alloc: Global) -> Result<Vec<Option<Place>>, AllocError>
    ensures count { IfOk result (λ places. length places.items ≡ 65) }
    ensures free { IfOk result (λ places. (v : ℕ) → place_at places.items v ≡ None) }
{
    let mut places = Vec::with_capacity(alloc, PLACES as usize)?;
    while places.len() < PLACES as usize {
        places.push(None)?;
    }
    Ok(places)
}
