//! Worlds, step by step: only a part of what is due is written, and a viewer is named that isn't there.

ghost use Rattle.raster.specs.Size.{IsScreenSize};

use crate::act::Act;
use crate::updates::{push_rows, push_tiles};
use joined_runs::RectForm;
use reflect_world::{Step, World, play};
use roles::Role;
use std::alloc::Global;
use std::slice;

/// What a line of a world is read with.
#[derive(Drop)]
struct WorldPlayer {
    alloc: Global,
    // All bytes that the viewer was told by now.
    told: Vec<u8>,
    // Where a viewer's bytes that come in two pieces are cut.
    cut: usize,
}

/// Plays the lines over a new world, with bytes cut at this place, and answers the first line that comes out otherwise.
pub fn play_world<'a>(
    alloc: Global,
    width: u64,
    height: u64,
    lines: &'a str,
    cut: usize,
) -> Option<&'a str>
    requires { IsScreenSize width height }
{
    let Ok(mut world) = World::new(alloc, width, height, b"T", 8, RectForm::OfRows) else {
        return Some("no world");
    };
    let mut player = WorldPlayer {
        alloc,
        told: Vec::new(alloc),
        cut,
    };
    player.otherwise(&mut world, lines)
}

/// Plays one step.
fn play_one(world: &mut World, step: Step) -> bool {
    play(world, slice::from_ref(&step)).is_ok()
}

impl WorldPlayer {
    /// Plays the lines, and answers the first line that comes out otherwise.
    fn otherwise<'a>(&mut self, world: &mut World, lines: &'a str) -> Option<&'a str> {
        for line in lines.lines() {
            let holds = match Act::read(line) {
                Some(act) => self.holds(world, &act),
                None => false,
            };
            if !holds {
                return Some(line);
            }
        }
        None
    }

    /// Plays a line, and answers whether all is as it says.
    fn holds(&mut self, world: &mut World, act: &Act<'_>) -> bool {
        match act.word {
            "join" => comes(world, act.number, false),
            "greet" => comes(world, act.number, true),
            "leave" => world.leave(act.number).is_ok(),
            "gets" => self.awaits(act) && world.written(act.number) == self.told.as_slice(),
            "singly" => self.awaits(act) && self.gets_singly(world, act.number),
            "rows" => self.awaits_rows(act.number),
            "tiles" => self.paints_tiles(world),
            "put" | "take" => self.plays_often(world, act),
            "host" | "raise" | "bytes" | "before" | "behind" | "look" | "cut" | "send" | "write" =>
                self.plays_once(world, act),
            _ => self.shows(world, act),
        }
    }

    /// Notes that the viewer has to be told these bytes, too.
    fn awaits(&mut self, act: &Act<'_>) -> bool {
        match act.bytes(self.alloc) {
            Some(bytes) => self.told.extend_from_slice(bytes.as_slice()).is_ok(),
            None => false,
        }
    }

    /// Notes that the viewer has to be told black rows of this width.
    fn awaits_rows(&mut self, width: u64) -> bool {
        match u16::try_from(width) {
            Ok(width) => push_rows(&mut self.told, width).is_some(),
            Err(_) => false,
        }
    }

    /// The host sends every second tile, and the viewer has to be told these.
    fn paints_tiles(&mut self, world: &mut World) -> bool {
        let mut tiles = Vec::new(self.alloc);
        push_tiles(&mut self.told).is_some()
            && push_tiles(&mut tiles).is_some()
            && play_one(world, Step::HostBytes(tiles))
    }

    /// The viewer's bytes are written one by one. All that it has to be told is written only after the last byte, and
    /// writing one more adds nothing.
    fn gets_singly(&self, world: &mut World, viewer: u64) -> bool {
        let left = self.told.len().saturating_sub(world.written(viewer).len());
        for _ in 0..left {
            if world.written(viewer) == self.told.as_slice()
                || !play_one(world, Step::Written(viewer, 1))
            {
                return false;
            }
        }
        world.written(viewer) == self.told.as_slice()
            && play_one(world, Step::Written(viewer, 1))
            && world.written(viewer) == self.told.as_slice()
    }

    /// The step that a line says.
    fn step(&self, act: &Act<'_>) -> Option<Step> {
        match act.word {
            "host" => Some(Step::HostBytes(act.bytes(self.alloc)?)),
            "put" => Some(Step::Put),
            "take" => Some(Step::Take),
            "raise" => Some(Step::Raise),
            "bytes" => Some(Step::Bytes(act.number, act.bytes(self.alloc)?)),
            "before" | "behind" => Some(Step::Bytes(act.number, self.piece(act)?)),
            "look" => Some(Step::Look(act.number)),
            "cut" => Some(Step::Cut(act.number)),
            "send" => Some(Step::Send(act.number)),
            "write" => Some(Step::Written(act.number, act.second()?)),
            _ => None,
        }
    }

    /// The bytes before the cut, or those after it.
    fn piece(&self, act: &Act<'_>) -> Option<Vec<u8>> {
        let bytes = act.bytes(self.alloc)?;
        let (before, behind) = bytes.as_slice().split_at(self.cut.min(bytes.len()));
        let piece = if act.word == "before" { before } else { behind };
        Vec::from_slice(self.alloc, piece).ok()
    }

    /// Plays the step that a line says.
    fn plays_once(&self, world: &mut World, act: &Act<'_>) -> bool {
        match self.step(act) {
            Some(step) => play_one(world, step),
            None => false,
        }
    }

    /// Plays it as often as its number says.
    fn plays_often(&self, world: &mut World, act: &Act<'_>) -> bool {
        for _ in 0..act.number {
            if !self.plays_once(world, act) {
                return false;
            }
        }
        true
    }

    /// Whether the world shows what a line says.
    fn shows(&self, world: &World, act: &Act<'_>) -> bool {
        match act.word {
            "joined" => world.is_joined(act.number),
            "gone" => !world.is_joined(act.number),
            "empty" => world.written(act.number).is_empty(),
            "well" => world.fault(act.number).is_none(),
            "host_is_well" => world.host_fault().is_none(),
            "updates" => world.updates() == act.number,
            "fault" => match world.fault(1) {
                Some(fault) => act.names(fault),
                None => false,
            },
            "sent" => match act.bytes(self.alloc) {
                Some(bytes) => world.host_sent() == bytes.as_slice(),
                None => false,
            },
            _ => false,
        }
    }
}

/// A viewer joins, with its hello or after it.
fn comes(world: &mut World, viewer: u64, greet: bool) -> bool {
    1 <= viewer && viewer <= 64 && world.join(viewer, Role::Full, greet).is_ok()
}
