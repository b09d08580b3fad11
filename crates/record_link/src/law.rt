//! Laws about recordings that grow.

ghost use Rattle.std.specs.Prelude.{◌≡◌, ◌++◌, List, drop};
ghost use Rattle.recording.specs.Recording.{Block, AreBlocks, line, recording_bytes, said_in};
ghost use Rattle.recording.specs.BlockReading.{blocks_in};
ghost use Rattle.recording_index.specs.KeyMoments.{IsAt};
ghost use Rattle.recording_index.specs.declared.moment.KeyMoment.{KeyMoment};
ghost use Rattle.record_link.specs.Growing.{Growing, IsKept, IsWhole, recorded_in, said_before};

/// Where all that was recorded is in whole blocks of the file, who reads the file reads all of it, in order, each byte
/// with its time.
pub fn whole_recordings_are_read()
    ensures { (g : Growing) → IsKept g → IsWhole g
        → said_in (blocks_in g.tape.stored) ≡ recorded_in g }
{}

/// Whoever reads the line of a recording and goes on at the place of a key moment reads all that was recorded from the
/// key moment on. What is left out is as many bytes as were recorded before it.
pub fn key_moments_lead_on()
    ensures { (blocks : List Block) (m : KeyMoment) → AreBlocks blocks → IsAt blocks m
        → said_in (blocks_in (line ++ drop m.place (recording_bytes blocks)))
        ≡ drop (said_before (recording_bytes blocks) m) (said_in blocks) }
{}
