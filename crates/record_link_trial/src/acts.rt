//! The acts of a line.

use crate::clock::Clock;
use crate::file::PlayedFile;
use crate::words::{bytes_of, parted, print_bytes};
use link::{Gave, Link, Took};
use record_link::RecordLink;
use std::test::Fail;

/// The most bytes that are taken at once.
const MOST_TAKEN: usize = 64;

/// A link to a recorder, and what is done with it.
#[derive(Drop)]
pub(crate) struct Acts<'a> {
    pub(crate) link: RecordLink<PlayedFile<'a>, Clock<'a>>,
    pub(crate) acts: &'a str,
}

impl Acts<'_> {
    /// Gives the bytes of a word once.
    fn give(&mut self, rt: &HostRuntime, word: &str) -> Result<(), Fail> {
        let bytes = bytes_of(rt.alloc(), word)?;
        if bytes.is_empty() {
            return Err(Fail::new("there is nothing to give"));
        }
        match self.link.give(bytes.as_slice()) {
            Gave::Bytes(count) => print!(rt; " +{count}")?,
            Gave::Nothing => print!(rt; " nothing")?,
            Gave::End => print!(rt; " end")?,
            Gave::Failed => print!(rt; " failed")?,
        }
        Ok(())
    }

    /// Takes once, at most so many bytes.
    fn take(&mut self, rt: &HostRuntime, word: &str) -> Result<(), Fail> {
        let mut into = [0u8; MOST_TAKEN];
        let room = word.parse::<usize>()?.clamp(1, MOST_TAKEN);
        let (front, _) = into.split_at_mut(room);
        match self.link.take(front) {
            Took::Bytes(count) => {
                print!(rt; " ")?;
                let (taken, _) = front.split_at(count);
                print_bytes(rt, taken)?;
            }
            Took::Nothing => print!(rt; " silent")?,
            Took::End => print!(rt; " end")?,
            Took::Failed => print!(rt; " failed")?,
        }
        Ok(())
    }

    /// Plays one act.
    fn play(&mut self, rt: &HostRuntime, act: &str) -> Result<(), Fail> {
        let (kind, word) = parted(act, ':');
        match kind {
            "g" => self.give(rt, word),
            "t" => self.take(rt, word),
            "f" => {
                self.link.flush();
                Ok(())
            }
            "n" => Ok(print!(rt; " {}", self.link.failures())?),
            _ => Err(Fail::new("no such act")),
        }
    }
}

/// Plays all acts, and hands back the link.
pub(crate) fn play_acts<'a>(
    rt: &HostRuntime,
    acts: Acts<'a>,
) -> Result<RecordLink<PlayedFile<'a>, Clock<'a>>, Fail> {
    let mut acts = acts;
    let all = acts.acts;
    for act in all.split(' ') {
        acts.play(rt, act)?;
    }
    let Acts { link, acts: _ } = acts;
    Ok(link)
}
