//! Laws about what is heard of a recording.

ghost use Rattle.std.specs.Prelude.{◌≡◌, ℕ, List, ◌∷◌, ◌++◌, ◌≤◌, Option, None, true, length, drop};
ghost use Rattle.rfb_wire.specs.Handshake.{said_to_viewer};
ghost use Rattle.recording.specs.Recording.{Block, AreBlocks, recording_bytes, said_in};
ghost use Rattle.recording_index.specs.KeyMoments.{IsAt};
ghost use Rattle.recording_index.specs.declared.moment.KeyMoment.{KeyMoment};
ghost use Rattle.playback.specs.Opening.{IsOpening};
ghost use Rattle.playback.specs.Heard.{bytes_of, greeting, heard_in, heard_of, handshake_in, said_by};
ghost use Rattle.playback.specs.Playing.{IsPlayed, IsPlayedOut, IsReadOf, Played};

use crate::pace::Pace;
use crate::recorded::Recorded;

/// A session that opens by version 3.3, 3.5, 3.7 or 3.8 with security type None is heard as one of version 3.8: what
/// follows its opening is heard as it was said. Where it is a session of version 3.8 that offers nothing but None, as
/// each that was recorded here is, all of it is heard as it was said; and of a beginning of it, wherever that ends, a
/// beginning is heard.
pub fn openings_are_heard()
    ensures heard { (said : List (ℕ × ℕ)) (opening later : List ℕ) → IsOpening opening
        → bytes_of said ≡ opening ++ later → bytes_of (heard_in said) ≡ greeting ++ later }
    ensures same { (said : List (ℕ × ℕ)) (later : List ℕ) → bytes_of said ≡ greeting ++ later
        → bytes_of (heard_in said) ≡ bytes_of said }
    ensures begins { (said : List (ℕ × ℕ)) (more later : List ℕ)
        → bytes_of said ++ more ≡ greeting ++ later
        → (left : List ℕ) × (bytes_of said ≡ bytes_of (heard_in said) ++ left) }
{}

/// What is heard of the beginning of a file is a beginning of what is heard of the file.
pub fn beginnings_are_heard()
    ensures { (until : Option ℕ) (front back : List ℕ) → (later : List (ℕ × ℕ))
        × (heard_in (said_by until (front ++ back)) ≡ heard_in (said_by until front) ++ later) }
{}

/// From its beginning on, all of a recording is heard that was said in its blocks. From a key moment on, the
/// recording's handshake is heard, and then what was said in the key moment's block and in all later ones. The
/// handshake of a session of our own is what its viewer was told in it.
pub fn recordings_are_heard()
    ensures all { (blocks : List Block) → AreBlocks blocks
        → heard_in (said_by None (recording_bytes blocks)) ≡ heard_in (said_in blocks) }
    ensures key { (blocks : List Block) (m : KeyMoment) → AreBlocks blocks → (at : IsAt blocks m)
        → heard_of None true (recording_bytes blocks) (drop m.place (recording_bytes blocks))
        ≡ handshake_in (heard_in (said_in blocks)) ++ said_in (at.block ∷ at.later) }
    ensures handshake { (heard : List (ℕ × ℕ)) (w h : ℕ) (name later : List ℕ)
        → 1 ≤ w → w ≤ 4096 → 1 ≤ h → h ≤ 4096 → length name ≤ 255
        → bytes_of heard ≡ said_to_viewer w h name 14 ++ later
        → bytes_of (handshake_in heard) ≡ said_to_viewer w h name 14 }
{}

/// Once a link has ended that plays a recording from its beginning on, all was taken of it that is heard of what its
/// blocks say up to the time up to which it is played: neither less nor more.
pub fn endings_are_heard<F: Recorded, P: Pace>()
    ensures { (p : Played) (file : List ℕ) → IsPlayed P.has_come p → IsPlayedOut F.is_all p
        → IsReadOf F.is_all p file → p.taken ≡ bytes_of (heard_in (said_by p.until file)) }
{}
