//! Seeks the key moments of a session, block after block.

ghost use Rattle.std.specs.Prelude.{◌≡◌, ℕ, List, [], ◌∷◌, ◌++◌, true, IfOk, IfErr, IfSome, OnOk};
ghost use Rattle.recording.specs.Recording.{Block};
ghost use Rattle.recording_index.specs.KeyMoments.{moment_before};
ghost use Rattle.rebuilt_index.specs.Anew.{AreKeyMoments, IsKey};
ghost use Rattle.rebuilt_index.specs.Failing.{StopsSeeking, StopsSession};
ghost use Rattle.rebuilt_index.specs.Following.{Shows};
ghost use Rattle.rebuilt_index.specs.Seeking.{IsOpened, Seeks};
ghost use Rattle.rebuilt_index.specs.declared.bad.BadRebuild.TheVariants.{Recording};
ghost use Rattle.recording.specs.declared.bad.BadRecording.TheVariants as recording;
ghost use Rattle.fault.specs.declared.kinds.Fault.TheVariants.{Memory};

use crate::bad::BadRebuild;
use crate::follower::Follower;
use fault::Fault;
use recording_index::KeyMoment;
use rfb_wire::Joined;
use std::alloc::Global;

/// How many milliseconds lie between two key moments, at least.
const LEAST_APART: u32 = 1_000;

/// A follower from a block on that may be a key moment.
#[derive(Drop)]
pub(crate) struct Candidate {
    pub(crate) moment: KeyMoment,
    pub(crate) follower: Follower,
}

/// Whether both show the same.
fn look_alike(one: &Follower, other: &Follower) -> bool
    ensures { result ≡ true → Shows one.now.painter other.now.painter }
{
    let (width, height) = one.painter.size();
    if other.painter.size() != (width, height) {
        return false;
    }
    for y in 0..height {
        if one.painter.row(y) != other.painter.row(y) {
            return false;
        }
    }
    true
}

/// The block that was looked at, unless a whole update has come after which the screens differ.
fn still_tried(candidate: Candidate) -> Option<Candidate>
    ensures { IfSome result (λ left. left ≡ candidate) }
{
    if candidate.follower.is_between && candidate.follower.is_painted {
        return None;
    }
    Some(candidate)
}

/// Follows a session from its beginning on, and has the key moments that were found so far.
#[derive(Drop)]
pub(crate) struct Seeker {
    alloc: Global,
    main: Follower,
    /// The block that may be a key moment, if one is looked at.
    candidate: Option<Candidate>,
    moments: Vec<KeyMoment>,
    /// The last of them, or the beginning of the recording.
    last: KeyMoment,
}

/// How many bytes of an update tell where its first rectangle begins, and how wide it is (RFC 6143, 7.6.1).
const WIDTH_END: usize = 10;

/// Whether an update that begins so may bring all of the screen: it begins at the top left, and is as wide as the
/// screen. A Bell and a text may come before one (7.6.3, 7.6.4). No clause rests on it: it saves time.
fn may_be_whole(width: u64, said: &[u8]) -> bool {
    if said.len() < WIDTH_END {
        return true;
    }
    let corner = [said[4], said[5], said[6], said[7]];
    let first = u64::from(said[8]) * 256 + u64::from(said[9]);
    said[0] != 0 || (corner == [0; 4] && first == width)
}

impl Seeker {
    /// One who has seen nothing of a session but its handshake. It fails where memory is refused (`Memory`).
    pub(crate) fn new(alloc: Global, joined: &Joined) -> Result<Seeker, Fault>
        ensures ok { (blocks : List Block) (hello rest : List ℕ)
            → IsOpened blocks hello joined.now rest
            → IfOk result (λ seeker. Seeks rest seeker blocks) }
        ensures err { (blocks : List Block) (hello rest : List ℕ)
            → IsOpened blocks hello joined.now rest
            → IfErr result (λ fault. fault ≡ Memory) }
    {
        let main = Follower::new(alloc, joined.w, joined.h)?;
        Ok(Seeker {
            alloc,
            main,
            candidate: None,
            moments: Vec::new(alloc),
            last: KeyMoment { time: 0, place: 0 },
        })
    }

    /// Whether a key moment at this time is far enough from the last one.
    fn is_due(&self, time: u32) -> bool {
        self.last.place == 0 || time.saturating_sub(self.last.time) >= LEAST_APART
    }

    /// Whether the block that comes next, at this time, is to be looked at: it begins between two messages.
    fn may_begin(&self, time: u32) -> bool
        ensures { result ≡ true → self.now.main.is_between ≡ true }
    {
        self.candidate.is_none() && self.main.is_between && self.is_due(time)
    }

    /// Begins to look at the block that comes next, where it may be a key moment.
    fn begin(&mut self, moment: KeyMoment, said: &[u8]) -> Result<(), Fault>
        ensures ok { (blocks : List Block) (block : Block) → Seeks [] self.old blocks
            → moment ≡ moment_before blocks block → block.said ≡ said.now
            → OnOk result (Seeks said.now self.new (blocks ++ block ∷ [])) }
        ensures err { (blocks : List Block) → Seeks [] self.old blocks
            → IfErr result (λ fault. fault ≡ Memory) }
    {
        let (width, height) = self.main.decoder.size();
        if !self.may_begin(moment.time) || !may_be_whole(width, said) {
            return Ok(());
        }
        let follower = Follower::new(self.alloc, width, height)?;
        self.candidate = Some(Candidate { moment, follower });
        Ok(())
    }

    /// Follows what is said in the block.
    pub(crate) fn follow(&mut self, said: &[u8]) -> Result<(), Fault>
        ensures ok { (blocks : List Block) → Seeks said.now self.old blocks
            → OnOk result (Seeks [] self.new blocks) }
        ensures err { (blocks : List Block) → Seeks said.now self.old blocks
            → IfErr result (λ fault. StopsSession fault blocks) }
    {
        self.main.feed(said)?;
        let Some(mut candidate) = self.candidate.take() else {
            return Ok(());
        };
        candidate.follower.feed(said)?;
        self.candidate = Some(candidate);
        Ok(())
    }

    /// Whether both who follow stand between two messages, and show the same.
    fn is_key(&self, candidate: &Candidate) -> bool
        ensures main { result ≡ true → self.now.main.is_between ≡ true }
        ensures candidate { result ≡ true → candidate.now.follower.is_between ≡ true }
        ensures same { result ≡ true
            → Shows candidate.now.follower.painter self.now.main.painter }
    {
        let are_between = self.main.is_between && candidate.follower.is_between;
        are_between && look_alike(&candidate.follower, &self.main)
    }

    /// Notes a key moment, unless it is before the last one.
    fn note(&mut self, moment: KeyMoment) -> Result<(), BadRebuild>
        ensures ok { (blocks : List Block) → Seeks [] self.old blocks → IsKey blocks moment
            → OnOk result (Seeks [] self.new blocks) }
        ensures err { IfErr result (λ bad. bad ≡ Recording recording.Memory) }
    {
        if moment.time < self.last.time || moment.place < self.last.place {
            return Ok(());
        }
        self.moments.push(moment)?;
        self.last = moment;
        Ok(())
    }

    /// Decides on the block that is looked at. It is a key moment where both followers stand between two messages and
    /// show the same. It is given up where an update has come and they don't.
    fn judge(&mut self) -> Result<(), BadRebuild>
        ensures ok { (blocks : List Block) → Seeks [] self.old blocks
            → OnOk result (Seeks [] self.new blocks) }
        ensures err { IfErr result (λ bad. bad ≡ Recording recording.Memory) }
    {
        let Some(candidate) = self.candidate.take() else {
            return Ok(());
        };
        if self.is_key(&candidate) {
            return self.note(candidate.moment);
        }
        self.candidate = still_tried(candidate);
        Ok(())
    }

    /// Sees the next block of the recording.
    pub(crate) fn see(&mut self, moment: KeyMoment, said: &[u8]) -> Result<(), BadRebuild>
        ensures ok { (blocks : List Block) (block : Block) → Seeks [] self.old blocks
            → moment ≡ moment_before blocks block → block.said ≡ said.now
            → OnOk result (Seeks [] self.new (blocks ++ block ∷ [])) }
        ensures err { (blocks : List Block) (block : Block) → Seeks [] self.old blocks
            → moment ≡ moment_before blocks block → block.said ≡ said.now
            → IfErr result (λ bad. StopsSeeking bad (blocks ++ block ∷ [])) }
    {
        self.begin(moment, said)?;
        self.follow(said)?;
        self.judge()
    }

    /// The key moments that were found.
    pub(crate) fn into_moments(self) -> Vec<KeyMoment>
        ensures { (blocks : List Block) → Seeks [] self blocks → AreKeyMoments result.items blocks }
    {
        let Seeker {
            alloc: _,
            main: _,
            candidate: _,
            moments,
            last: _,
        } = self;
        moments
    }
}
