//! A reflector on one thread, step by step.

ghost use Rattle.std.specs.Prelude.{◌≡◌, ℕ, ◌<◌, ◌≤◌, ◌^◌, ◌↔◌, [], ◌∷◌, ◌++◌, false, nat_lt, length, map, take, IfOk, IfErr, OnOk, OnErr, IsTrue, IsSome};
ghost use Rattle.fault.specs.declared.kinds.Fault.TheVariants.{Memory};
ghost use Rattle.raster.specs.Size.{IsScreenSize};
ghost use Rattle.reflect_world.specs.Relay.{spelled};
ghost use Rattle.reflect_world.specs.Schedule as played;
ghost use Rattle.reflect_world.specs.Schedule.{Join, Leave, dropped_of, fault_at, host_sent, written_of};
ghost use Rattle.reflect_world.specs.World.{HasPlayed, HasStopped, IsFaithful, StopsAt, has_waiting, setup_of, step_of, unmarked, with_steps, world_of};

use crate::scene::Scene;
use crate::step::{ScheduleEntry, Step};
use fault::Fault;
use joined_runs::RectForm;
use roles::Role;
use std::alloc::Global;
use std::marker::Model;

/// A reflector with its host, its screen and its viewers, and the schedule of all its steps, which it keeps.
#[derive(Drop)]
pub struct World {
    alloc: Global,
    width: u64,
    height: u64,
    name: Vec<u8>,
    room: u64,
    runs: RectForm,
    schedule: Vec<ScheduleEntry>,
    is_refused: bool,
    scene: Scene,
}

impl Model for World {
    ghost use Rattle.std.specs.Prelude.{map};
    ghost use Rattle.reflect_world.specs.World.{Kept, entry_of, IsKept};

    ghost Value = { Kept };

    ghost view = { λ w. record {
      width = w.width;
      height = w.height;
      name = w.name.items;
      room = w.room;
      runs = w.runs;
      steps = map entry_of w.schedule.items;
      is_refused = w.is_refused;
    } };

    ghost invariant = { λ w. IsKept (record {
      width = w.width;
      height = w.height;
      name = w.name.items;
      room = w.room;
      runs = w.runs;
      steps = map entry_of w.schedule.items;
      is_refused = w.is_refused;
    }) w.scene };
}

impl World {
    /// A world of a black screen of `width` by `height` pixels, with a name of 1 to 255 bytes and room for this many
    /// inputs on their way to the host, whose viewers are answered in one of the two forms (`joined_runs`). It fails
    /// where memory is refused (`Memory`).
    pub fn new(
        alloc: Global,
        width: u64,
        height: u64,
        name: &[u8],
        room: u64,
        runs: RectForm,
    ) -> Result<World, Fault>
        requires size { IsScreenSize width height }
        requires name { (1 ≤ length name.now) × (length name.now ≤ 255) }
        requires room { room ≤ 2 ^ 62 }
        ensures ok { IfOk result (λ world. world ≡ record {
          width = width;
          height = height;
          name = name.now;
          room = room;
          runs = runs;
          steps = [];
          is_refused = false;
        }) }
        ensures err { IfErr result (λ fault. fault ≡ Memory) }
    {
        let Ok(name) = Vec::from_slice(alloc, name) else {
            return Err(Fault::Memory);
        };
        Ok(World {
            alloc,
            width,
            height,
            name,
            room,
            runs,
            schedule: Vec::new(alloc),
            is_refused: false,
            scene: Scene::new(alloc, width, height, room)?,
        })
    }

    /// A viewer of this number, from 1 to 64, joins and begins anew: with its hello where `greet` says so, otherwise as
    /// one whose hello is done. Where memory is refused (`Memory`) nothing has changed.
    pub fn join(&mut self, viewer: u64, role: Role, greet: bool) -> Result<(), Fault>
        requires viewer { (1 ≤ viewer) × (viewer ≤ 64) }
        ensures ok { OnOk result (self.new ≡ with_steps self.old (Join viewer role greet ∷ [])) }
        ensures err { IfErr result (λ fault. (fault ≡ Memory) × (self.new ≡ self.old)) }
    {
        let Ok(()) = self
            .schedule
            .push(ScheduleEntry::Joined(viewer, role, greet))
        else {
            return Err(Fault::Memory);
        };
        match self
            .scene
            .join(viewer, role, self.name.as_slice(), self.runs, greet)
        {
            Ok(()) => Ok(()),
            Err(fault) => {
                // The entry that was just pushed, and is known.
                let _ = self.schedule.pop();
                Err(fault)
            }
        }
    }

    /// A viewer leaves, if it is there: the input of it that waits, and the releases of the keys and buttons that it
    /// holds down, go into the queue to the host, as far as there is room, and its record ends. Where memory is refused
    /// (`Memory`) nothing has changed.
    pub fn leave(&mut self, viewer: u64) -> Result<(), Fault>
        ensures ok { OnOk result (self.new ≡ with_steps self.old (Leave viewer ∷ [])) }
        ensures err { IfErr result (λ fault. (fault ≡ Memory) × (self.new ≡ self.old)) }
    {
        let Ok(()) = self.schedule.push(ScheduleEntry::Left(viewer)) else {
            return Err(Fault::Memory);
        };
        match self.scene.leave(viewer) {
            Ok(()) => Ok(()),
            Err(fault) => {
                // The entry that was just pushed, and is known.
                let _ = self.schedule.pop();
                Err(fault)
            }
        }
    }

    /// The bytes that were written to a viewer, from its `join` on.
    pub fn written(&self, viewer: u64) -> &[u8]
        ensures { result.now ≡ written_of (setup_of self.now) ((world_of self.now).viewers viewer) }
    {
        match self.scene.place(viewer) {
            Some(place) => place.written(),
            None => &[],
        }
    }

    /// Whether a viewer of this number has joined.
    pub fn is_joined(&self, viewer: u64) -> bool
        ensures { IsTrue result ↔ IsSome ((world_of self.now).viewers viewer) }
    {
        self.scene.place(viewer).is_some()
    }

    /// The fault of a viewer's bytes, if there is one.
    pub fn fault(&self, viewer: u64) -> Option<Fault>
        ensures { result ≡ fault_at ((world_of self.now).viewers viewer) }
    {
        match self.scene.place(viewer) {
            Some(place) => place.fault(),
            None => None,
        }
    }

    /// The fault of the host's bytes, from the first `Put` on that finds no update left before it.
    pub fn host_fault(&self) -> Option<Fault>
        ensures { result ≡ (world_of self.now).host_fault }
    {
        self.scene.host_fault()
    }

    /// How many updates were put.
    pub fn updates(&self) -> u64
        ensures { result ≡ length (world_of self.now).shared.updates }
    {
        self.scene.updates()
    }

    /// All that the host was sent of the viewers' input: the spelling of each input taken that passes, in order
    /// (RFC 6143, 7.5.4 to 7.5.6).
    pub fn host_sent(&self) -> &[u8]
        ensures { result.now ≡ spelled (host_sent (world_of self.now)) }
    {
        self.scene.host_sent()
    }

    /// How many inputs of a viewer were dropped on their way to the host, in all stays under this number. A count at
    /// 2^62 stays there.
    pub fn dropped(&self, viewer: u64) -> u64
        requires { viewer ≤ 64 }
        ensures { result ≡ dropped_of (world_of self.now) viewer }
    {
        self.scene.dropped(viewer)
    }

    /// Whether an input of a viewer waits for `Send`. Where a step was refused for want of memory this says nothing.
    pub fn is_waiting(&self, viewer: u64) -> bool
        ensures { self.now.is_refused ≡ false
            → result ≡ has_waiting ((world_of self.now).viewers viewer) }
    {
        self.scene.is_waiting(viewer)
    }

    /// Whether there is room for a further input in the queue to the host. Where a step was refused for want of memory
    /// this says nothing.
    pub fn has_room(&self) -> bool
        ensures { self.now.is_refused ≡ false
            → result ≡ nat_lt (length (world_of self.now).queue) self.now.room }
    {
        self.scene.has_room()
    }

    /// How many inputs are in the queue to the host. Where a step was refused for want of memory this says nothing.
    pub fn queued(&self) -> u64
        ensures { self.now.is_refused ≡ false → result ≡ length (world_of self.now).queue }
    {
        self.scene.queued()
    }

    /// Takes one step. Room for its entry and its marks is made first.
    fn step(&mut self, step: &Step) -> Result<(), Fault>
        requires { self.old.is_refused ≡ false }
        ensures ok { OnOk result ((e : played.Step) × (unmarked e ≡ step_of step.now)
            × (self.new ≡ with_steps self.old (e ∷ []))) }
        ensures err { IfErr result (StopsAt self.old self.new (step_of step.now)) }
    {
        let Ok(copy) = step.copy(self.alloc) else {
            self.is_refused = true;
            return Err(Fault::Memory);
        };
        if self.schedule.reserve(1).is_err() {
            self.is_refused = true;
            return Err(Fault::Memory);
        }
        let mut lost = Vec::new(self.alloc);
        match self.scene.take(step, &mut lost) {
            Ok(()) => {
                let Ok(()) = self.schedule.push(ScheduleEntry::Played(copy, lost)) else {
                    unreachable!()
                };
                Ok(())
            }
            Err(fault) => {
                self.is_refused = matches!(&fault, Fault::Memory);
                Err(fault)
            }
        }
    }
}

/// Plays steps. Where it fails, the number beside the fault says how many were played, and the world is as after these.
/// It fails with `Memory`, and then every later call plays nothing and fails with `Memory` again; or with `NumbersOut`,
/// at a `Put` for which there is no number left.
///
/// Whatever was played, the world is faithful to its schedule: after each answer a viewer that follows its answers
/// holds the area asked for, of the screen after some whole number of updates; the puts, raises, looks and cuts are one
/// legal history; the updates are those of the host's bytes; and what is written to each viewer is a beginning of the
/// stream of its answers, from which a viewer reads exactly these answers.
pub fn play(world: &mut World, steps: &[Step]) -> Result<(), (usize, Fault)>
    ensures ok { OnOk result (HasPlayed world.old world.new (map step_of steps.now)) }
    ensures err { IfErr result (λ stop.
        HasStopped world.old world.new (map step_of steps.now) stop.0 stop.1) }
    ensures faithful { IsFaithful world.new }
{
    if world.is_refused {
        return Err((0, Fault::Memory));
    }
    for (played, step) in steps.iter().enumerate() {
        match world.step(step) {
            Ok(()) => {}
            Err(fault) => return Err((played, fault)),
        }
    }
    Ok(())
}
