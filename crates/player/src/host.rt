//! The link to a recording that is played as a host.

use crate::pace::PlayerPace;
use crate::player::Player;
use fault::LIMIT;
use link::{Gave, Link, Record, Took};
use playback::{BadPlayback, PlayedLink, Recorded};
use run_traits::HostCount;
use show::RecordingFile;
use std::alloc::Global;
use std::fs::File;
use std::marker::Model;
use std::sync::{Arc, Wait};
use std::time::Clock;

/// The link to a recording that is played as a host until its player leaves it. From then on it says that the host has
/// ended. At the recording's end it says so once it doesn't rest. Once it is closed it has neither the file nor its
/// memory any more, and fails.
#[derive(Drop)]
pub struct PlayedHost<R: Wait + Clock + Drop, F: Recorded> {
    rt: R,
    // The link below, until it is closed.
    link: Option<PlayedLink<F, PlayerPace<R>>>,
    player: Arc<Player, Global>,
    /// Where it is noted that bytes came, if anywhere.
    count: Option<Arc<HostCount, Global>>,
    failures: u64,
    ends: u64,
    taken: Record,
    given: Record,
}

/// The link to a recording in a file.
pub type PlayedFile<R> = PlayedHost<R, RecordingFile<File>>;

impl<R: Wait + Clock + Drop, F: Recorded> Model for PlayedHost<R, F> {
    ghost use Rattle.player.specs.Played.{IsOfBelow, UntilLeft};

    ghost Value = { UntilLeft };

    ghost view = { λ h. record {
      below = h.link;
      own = record {
        taken = h.taken.bytes;
        given = h.given.bytes;
        failed = h.failures;
        ended = h.ends;
      };
    } };

    ghost invariant = { λ h. IsOfBelow h.link (record {
      taken = h.taken.bytes;
      given = h.given.bytes;
      failed = h.failures;
      ended = h.ends;
    }) };
}

impl<R: Wait + Clock + Drop, F: Recorded> PlayedHost<R, F> {
    ghost use Rattle.std.specs.Prelude.{◌≡◌, Some, None, option_and_then};
    ghost use Rattle.link.specs.Links.{with_end, with_failure};
    ghost use Rattle.playback.specs.Playing.{state_of};
    ghost use Rattle.run_traits.specs.Unused.{unused};
    ghost use Rattle.player.specs.Played.{PlaysOn};

    /// This link, over which nothing was taken or given, until the player leaves it.
    pub fn new(
        rt: R,
        link: PlayedLink<F, PlayerPace<R>>,
        player: Arc<Player, Global>,
    ) -> PlayedHost<R, F>
        requires { state_of link ≡ unused }
        ensures { result ≡ record { below = Some link; own = unused } }
    {
        PlayedHost {
            rt,
            link: Some(link),
            player,
            count: None,
            failures: 0,
            ends: 0,
            taken: Record::new(),
            given: Record::new(),
        }
    }

    /// From now on this count is told when bytes come.
    pub fn count_by(&mut self, count: Arc<HostCount, Global>)
        ensures { self.new ≡ self.old }
    {
        self.count = Some(count);
    }

    /// It does nothing. Its clause says that, at every moment until it is closed, what was taken is a beginning of what
    /// is heard of the recording.
    pub fn plays(&self)
        ensures { PlaysOn self.now }
    {
        if let Some(link) = &self.link {
            link.plays();
        }
    }

    /// Why the recording can't be played on, if it can't: from then on the link fails. A link that is closed doesn't
    /// say.
    pub fn why(&self) -> Option<BadPlayback>
        ensures { result ≡ option_and_then (λ played. played.why) self.now.below }
    {
        match &self.link {
            Some(link) => link.why(),
            None => None,
        }
    }

    /// Closes the file, and gives its memory back.
    pub fn close(&mut self)
        ensures { self.new ≡ record self.old { below = None } }
    {
        self.link = None;
    }

    fn note_end(&mut self)
        ensures { self.new ≡ record self.old { own = with_end self.old.own } }
    {
        self.ends = LIMIT.min(self.ends.saturating_add(1));
    }

    fn note_failure(&mut self)
        ensures { self.new ≡ record self.old { own = with_failure self.old.own } }
    {
        self.failures = LIMIT.min(self.failures.saturating_add(1));
    }

    fn hear(&self) {
        if let Some(count) = &self.count {
            count.hear(&self.rt);
        }
    }
}

impl<R: Wait + Clock + Drop, F: Recorded> Link for PlayedHost<R, F> {
    ghost use Rattle.std.specs.Prelude.{◌≡◌, ◌<◌, length};
    ghost use Rattle.link.specs.Links.{GivesAs};
    ghost use Rattle.link.specs.declared.link.Gave.TheVariants as Gave;

    ghost state = { λ h. h.own };

    fn take(&mut self, into: &mut [u8]) -> Took {
        let Some(link) = &mut self.link else {
            self.note_failure();
            return Took::Failed;
        };
        if self.player.is_left(&self.rt) {
            self.note_end();
            return Took::End;
        }
        let took = link.take(into);
        match took {
            Took::Bytes(count) => {
                let (front, _) = into.split_at(count);
                self.taken.note(front);
                self.hear();
            }
            // One that rests stays, though all of it was heard.
            Took::End if self.player.awaits_play(&self.rt) => return Took::Nothing,
            Took::End => self.note_end(),
            Took::Failed => self.note_failure(),
            Took::Nothing => {}
        }
        took
    }

    fn give(&mut self, bytes: &[u8]) -> Gave
        requires { 0 < length bytes.now }
        ensures gives { GivesAs result self.old.own self.new.own bytes.now }
        ensures all { result ≡ Gave.Bytes (length bytes.now) }
    {
        self.given.note(bytes);
        Gave::Bytes(bytes.len())
    }

    fn failures(&self) -> u64 {
        self.failures
    }
}
