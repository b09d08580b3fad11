//! From the file of a recording to its key moments.

ghost use Rattle.std.specs.Prelude.{◌≡◌, ◌<◌, ◌≤◌, ◌^◌, ◌∷◌, ◌++◌, ℕ, List, [], None, length, take, IfOk, IfErr, OnOk};
ghost use Rattle.recording.specs.BlockReading.{blocks_in};
ghost use Rattle.recording.specs.Recording.{Block};
ghost use Rattle.recording_index.specs.KeyMoments.{moment_before};
ghost use Rattle.rebuilt_index.specs.Anew.{AreKeyMoments};
ghost use Rattle.rebuilt_index.specs.Failing.{HasNoIndex, StopsSeeking};
ghost use Rattle.rebuilt_index.specs.Seeking.{HasRebuilt, HasSeen};

use crate::bad::BadRebuild;
use crate::place::{behind, check_count};
use crate::seeker::Seeker;
use playback::Recorded;
use recording::{FIRST_LINE, RecordingReader};
use recording_index::KeyMoment;
use rfb_wire::HostHello;
use std::alloc::Global;
use std::io::ErrorKind;
use std::sync::Wait;

/// How many bytes of the file are read at once, at most.
const PIECE_LEN: usize = 65_536;

/// What was seen of a session: its handshake, and then its key moments.
#[derive(Drop)]
pub(crate) struct Session {
    alloc: Global,
    hello: HostHello,
    /// Who seeks key moments, once the handshake is whole.
    seeker: Option<Seeker>,
}

impl Session {
    /// A session of which nothing was seen.
    fn new(alloc: Global) -> Session
        ensures { HasSeen result [] }
    {
        Session {
            alloc,
            hello: HostHello::new(None),
            seeker: None,
        }
    }

    /// Hears a block while the handshake goes on.
    fn hear(&mut self, said: &[u8]) -> Result<(), BadRebuild>
        requires { self.old.seeker ≡ None }
        ensures ok { (blocks : List Block) (block : Block) → HasSeen self.old blocks
            → block.said ≡ said.now
            → OnOk result (HasSeen self.new (blocks ++ block ∷ [])) }
        ensures err { (blocks : List Block) (block : Block) → HasSeen self.old blocks
            → block.said ≡ said.now
            → IfErr result (λ bad. StopsSeeking bad (blocks ++ block ∷ [])) }
    {
        let used = self.hello.feed(said)?;
        let Some(joined) = self.hello.done() else {
            return Ok(());
        };
        let mut seeker = Seeker::new(self.alloc, &joined)?;
        let (_, rest) = said.split_at(used);
        seeker.follow(rest)?;
        self.seeker = Some(seeker);
        Ok(())
    }

    /// Sees the next block of the recording.
    fn see(&mut self, moment: KeyMoment, said: &[u8]) -> Result<(), BadRebuild>
        ensures ok { (blocks : List Block) (block : Block) → HasSeen self.old blocks
            → moment ≡ moment_before blocks block → block.said ≡ said.now
            → OnOk result (HasSeen self.new (blocks ++ block ∷ [])) }
        ensures err { (blocks : List Block) (block : Block) → HasSeen self.old blocks
            → moment ≡ moment_before blocks block → block.said ≡ said.now
            → IfErr result (λ bad. StopsSeeking bad (blocks ++ block ∷ [])) }
    {
        let Some(mut seeker) = self.seeker.take() else {
            return self.hear(said);
        };
        seeker.see(moment, said)?;
        self.seeker = Some(seeker);
        Ok(())
    }

    /// The key moments that were found.
    fn into_moments(self) -> Vec<KeyMoment>
        ensures { (blocks : List Block) → HasSeen self blocks → AreKeyMoments result.items blocks }
    {
        let Session {
            alloc,
            hello: _,
            seeker,
        } = self;
        match seeker {
            Some(seeker) => seeker.into_moments(),
            None => Vec::new(alloc),
        }
    }
}

/// What was read of the file of a recording.
#[derive(Drop)]
pub(crate) struct Rebuilder {
    reader: RecordingReader,
    session: Session,
    /// How many bytes of the recording stand before the next block.
    place: u64,
}

impl Rebuilder {
    /// One who has read nothing.
    fn new(alloc: Global) -> Rebuilder
        ensures { HasRebuilt result [] }
    {
        Rebuilder {
            reader: RecordingReader::new(alloc),
            session: Session::new(alloc),
            place: FIRST_LINE.len() as u64,
        }
    }

    /// Reads on in a piece of the file, up to the end of a block, and answers how many bytes that are: at least one. It
    /// sees the block that is whole, if there is one.
    fn read(&mut self, piece: &[u8]) -> Result<usize, BadRebuild>
        ensures within { IfOk result (λ used. used ≤ length piece.now) }
        ensures rebuilt { (fed : List ℕ) → HasRebuilt self.old fed → 0 < length piece.now
            → IfOk result (λ used. (0 < used) × HasRebuilt self.new (fed ++ take used piece.now)) }
        ensures err { (fed : List ℕ) → HasRebuilt self.old fed
            → IfErr result (λ bad. HasNoIndex ⊥ bad (fed ++ piece.now)) }
    {
        let used = self.reader.feed(piece)?;
        let Some(found) = self.reader.found() else {
            return Ok(used);
        };
        let block = found?;
        let moment = KeyMoment {
            time: block.time,
            place: self.place,
        };
        self.session.see(moment, block.said)?;
        self.place = behind(self.place, block)?;
        self.reader.go_on();
        Ok(used)
    }

    /// Reads on in a piece of the file, to its end.
    fn feed(&mut self, piece: &[u8]) -> Result<(), BadRebuild>
        requires { length piece.now ≤ 2 ^ 62 }
        ensures ok { (fed : List ℕ) → HasRebuilt self.old fed
            → OnOk result (HasRebuilt self.new (fed ++ piece.now)) }
        ensures err { (fed : List ℕ) → HasRebuilt self.old fed
            → IfErr result (λ bad. HasNoIndex ⊥ bad (fed ++ piece.now)) }
    {
        check_count(piece.len())?;
        let mut used = 0;
        for start in 0..piece.len() {
            // Each block ends behind where it begins, so nothing is left out.
            if start >= used {
                let (_, left) = piece.split_at(start);
                used = start + self.read(left)?;
            }
        }
        Ok(())
    }
}

/// Makes the index of a recording anew. It reads the recording's file, which is at its beginning, to the end, and
/// answers its key moments: blocks at which all of the screen is brought anew, at least a second apart. Where a file
/// ends within a block, that block counts for nothing.
///
/// It fails where the file does; where the file isn't a recording, or can't be read on; where the recorded session
/// doesn't open as one of version 3.8 with security type None, as each opens that was recorded here; where the session
/// says what no host may say; and where memory is refused.
pub fn rebuild_index<F: Recorded, R: Wait>(
    rt: &R,
    alloc: Global,
    file: &mut F,
) -> Result<Vec<KeyMoment>, BadRebuild>
    requires start { F.start file.old ≡ 0 }
    requires none { F.so_far file.old ≡ [] }
    ensures ok { IfOk result (λ moments.
        AreKeyMoments moments.items (blocks_in (F.so_far file.new))) }
    ensures all { OnOk result (F.is_all 0 (F.so_far file.new)) }
    ensures err { IfErr result (λ bad. HasNoIndex F.has_failed bad (F.so_far file.new)) }
{
    let mut piece = vec![in alloc; 0u8; PIECE_LEN]?;
    let mut rebuilder = Rebuilder::new(alloc);
    for _ in rt.forever() {
        match file.read(piece.as_mut_slice()) {
            Ok(0) => return Ok(rebuilder.session.into_moments()),
            Ok(count) => rebuilder.feed(&piece.as_slice()[..count])?,
            Err(error) if error.kind() == ErrorKind::Interrupted => {}
            Err(_) => return Err(BadRebuild::File),
        }
    }
    unreachable!()
}
