//! A law about key moments.

ghost use Rattle.std.specs.Prelude.{◌≡◌, ◌++◌, ℕ, List};
ghost use Rattle.host_decoder.specs.Decoder.{host_message};
ghost use Rattle.host_decoder.specs.Updates.{updates};
ghost use Rattle.byte_reading.specs.Reading.{rest};
ghost use Rattle.raster.specs.Screen.{LooksLike};
ghost use Rattle.raster.specs.Update.{screen};
ghost use Rattle.recording.specs.Recording.{Block};
ghost use Rattle.recording_index.specs.IndexBytes.{AreMoments};
ghost use Rattle.recording_index.specs.KeyMoments.{IsAt, IsIndexOf};
ghost use Rattle.recording_index.specs.declared.moment.KeyMoment.{KeyMoment};
ghost use Rattle.rebuilt_index.specs.Anew.{AreKeyMoments, IsKey, IsShownAnew};

/// A player that begins at a key moment shows, from where all of the screen is shown anew, the same as one that began
/// at the recording's beginning, whatever comes; and both stand at the same place in a message. The key moments that
/// were found are an index of the recording.
pub fn players_may_begin()
    ensures shows { (w h : ℕ) (before more later : List ℕ) → IsShownAnew w h before more
        → LooksLike w h
        (screen (updates w h (more ++ later))) (screen (updates w h ((before ++ more) ++ later))) }
    ensures stands { (w h : ℕ) (before more later : List ℕ) → IsShownAnew w h before more
        → rest (host_message w h) (more ++ later)
        ≡ rest (host_message w h) ((before ++ more) ++ later) }
    ensures index { (moments : List KeyMoment) (blocks : List Block) → AreKeyMoments moments blocks
        → IsIndexOf moments blocks }
{}
