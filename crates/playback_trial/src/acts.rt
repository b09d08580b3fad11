//! The acts of a line.

use crate::clock::{Clock, Hands};
use crate::file::PlayedFile;
use crate::words::{bytes_of, parted, print_bytes};
use link::{Gave, Link, Took};
use playback::PlayedLink;
use std::test::Fail;

/// The most bytes that are taken at once.
const MOST_TAKEN: usize = 4096;

/// How many calls an act makes at most.
const MOST_CALLS: u64 = 10_000_000;

/// A link to a recording, and the hands of its pace.
#[derive(Drop)]
pub(crate) struct Acts<'a, 'b> {
    pub(crate) link: PlayedLink<PlayedFile<'a>, Clock<'b>>,
    pub(crate) hands: &'b Hands,
}

impl Acts<'_, '_> {
    /// Takes once, at most so many bytes, and keeps them. It answers whether no more come for now, and prints why.
    fn take(&mut self, rt: &HostRuntime, room: usize, all: &mut Vec<u8>) -> Result<bool, Fail> {
        let mut into = [0u8; MOST_TAKEN];
        let (front, _) = into.split_at_mut(room.clamp(1, MOST_TAKEN));
        match self.link.take(front) {
            Took::Bytes(count) => {
                let (taken, _) = front.split_at(count);
                all.extend_from_slice(taken)?;
                Ok(false)
            }
            Took::Nothing => Ok(self.hands.wanted.get().is_some()),
            Took::End | Took::Failed => Ok(true),
        }
    }

    /// Prints how a link stands that gives no more for now.
    fn print_end(&mut self, rt: &HostRuntime) -> Result<(), Fail> {
        let mut byte = [0u8; 1];
        if let Some(time) = self.hands.wanted.replace(None) {
            print!(rt; " waits {time}")?;
            return Ok(());
        }
        match self.link.take(&mut byte) {
            Took::End => print!(rt; " end")?,
            Took::Failed => print!(rt; " failed")?,
            Took::Bytes(_) | Took::Nothing => print!(rt; " goes on")?,
        }
        Ok(())
    }

    /// Takes at most so many bytes at once, until no more come for now, and prints all.
    fn take_all(&mut self, rt: &HostRuntime, word: &str) -> Result<(), Fail> {
        let room = word.parse::<usize>()?;
        let mut all = Vec::new(rt.alloc());
        for _ in 0..MOST_CALLS {
            if self.take(rt, room, &mut all)? {
                break;
            }
        }
        print!(rt; " ")?;
        print_bytes(rt, all.as_slice())?;
        self.print_end(rt)
    }

    /// Gives the bytes of a word once.
    fn give(&mut self, rt: &HostRuntime, word: &str) -> Result<(), Fail> {
        let bytes = bytes_of(rt.alloc(), word)?;
        if bytes.is_empty() {
            return Err(Fail::new("there is nothing to give"));
        }
        match self.link.give(bytes.as_slice()) {
            Gave::Bytes(count) => print!(rt; " +{count}")?,
            Gave::Nothing | Gave::End | Gave::Failed => print!(rt; " not given")?,
        }
        Ok(())
    }

    /// Prints why the recording can't be played on.
    fn print_why(&self, rt: &HostRuntime) -> Result<(), Fail> {
        match self.link.why() {
            None => print!(rt; " fine")?,
            Some(why) => print!(rt; " {} {why}", why.number())?,
        }
        Ok(())
    }

    /// Plays one act.
    fn play(&mut self, rt: &HostRuntime, act: &str) -> Result<(), Fail> {
        let (kind, word) = parted(act, ':');
        match kind {
            "a" => self.take_all(rt, word),
            "p" => Ok(self.hands.time.set(word.parse::<u64>()?)),
            "g" => self.give(rt, word),
            "m" => Ok(print!(rt; " {}", self.link.time())?),
            "w" => self.print_why(rt),
            "n" => Ok(print!(rt; " {}", self.link.failures())?),
            _ => Err(Fail::new("no such act")),
        }
    }
}

/// Plays all acts.
pub(crate) fn play_acts(rt: &HostRuntime, acts: Acts<'_, '_>, all: &str) -> Result<(), Fail> {
    let mut acts = acts;
    for act in all.split(' ') {
        acts.play(rt, act)?;
    }
    Ok(())
}
