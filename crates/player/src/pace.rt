//! The pace of a player.

use crate::player::Player;
use playback::Pace;
use std::alloc::Global;
use std::sync::{Arc, Wait};
use std::time::Clock;

/// The pace of a recording that is played by a clock, as an operator has it rest and go on.
#[derive(Drop)]
pub struct PlayerPace<R: Wait + Clock + Drop> {
    rt: R,
    player: Arc<Player, Global>,
}

impl<R: Wait + Clock + Drop> PlayerPace<R> {
    /// The pace of this player.
    pub fn new(rt: R, player: Arc<Player, Global>) -> PlayerPace<R> {
        PlayerPace { rt, player }
    }
}

impl<R: Wait + Clock + Drop> Pace for PlayerPace<R> {
    // What a clock says is in no clause.
    ghost has_come = { λ _. Unit {0} };

    fn time(&self) -> u64 {
        self.player.time(&self.rt)
    }

    fn wait(&self, until: u64) {
        self.player.wait(&self.rt, until);
    }
}
