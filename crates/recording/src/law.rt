//! Laws about recordings.

ghost use Rattle.std.specs.Prelude.{◌≡◌, ◌≤◌, ◌<◌, ◌+◌, ◌%◌, ◌^◌, ℕ, List, [], ◌++◌, length, take};
ghost use Rattle.recording.specs.Recording.{Block, AreBlocks, blocks_bytes, recording_bytes, last_time, line};
ghost use Rattle.recording.specs.declared.form.TheConstants.{FIRST_LINE};
ghost use Rattle.byte_reading.specs.Reading.{Reading};
ghost use Rattle.recording.specs.BlockReading.{Found, blocks_in, blocks_from, rest_of, rest_from, first_block, next_block, found, going_on};
ghost use Rattle.recording.specs.Progress.{HasRead, Uses};
ghost use Rattle.recording.specs.Waiting.{IsRecorded, room, with_more, as_blocks, stamp};

/// What is written is read: the same data with the same times. The whole file is read, up to its last byte, so that a
/// further block may follow. `FIRST_LINE` is the line of the definition.
pub fn recordings_are_read()
    ensures line { FIRST_LINE ≡ line }
    ensures blocks { (blocks : List Block) → AreBlocks blocks
        → blocks_in (recording_bytes blocks) ≡ blocks }
    ensures whole { (blocks : List Block) → AreBlocks blocks
        → rest_of (recording_bytes blocks) ≡ next_block (last_time 0 blocks) }
{}

/// The bytes of a recording decide its blocks.
pub fn one_recording()
    ensures { (some others : List Block) → AreBlocks some → AreBlocks others
        → recording_bytes some ≡ recording_bytes others
        → some ≡ others }
{}

/// A recording that is cut off anywhere is read as a beginning of its blocks.
pub fn beginnings_are_read()
    ensures { (blocks : List Block) (front back : List ℕ) → AreBlocks blocks
        → recording_bytes blocks ≡ front ++ back
        → (later : List Block) × (blocks ≡ blocks_in front ++ later) }
{}

/// However a file is cut into pieces, its blocks are those that its pieces give, where the reading of each piece goes
/// on from the rest of the pieces before it.
pub fn recordings_in_pieces()
    ensures blocks { (front back : List ℕ)
        → blocks_in (front ++ back) ≡ blocks_in front ++ blocks_from (rest_of front) back }
    ensures rest { (front back : List ℕ)
        → rest_of (front ++ back) ≡ rest_from (rest_of front) back }
{}

/// All that a `RecordingWriter` keeps is in the blocks that it spelled and in the one that waits, each byte with its
/// time, in order. `with_more` is what `keep` does, and `as_blocks` what `flush` spells.
pub fn all_is_recorded()
    ensures begins { IsRecorded [] (record { said = []; time = 0 }) [] }
    ensures keeps { (blocks : List Block) (waiting : Block)
        (given : List (ℕ × ℕ)) (time : ℕ) (bytes : List ℕ)
        → IsRecorded blocks waiting given
        → waiting.time ≤ time → time < 2 ^ 32
        → length bytes ≤ room waiting time
        → IsRecorded blocks (with_more waiting time bytes) (given ++ stamp time bytes) }
    ensures flushes { (blocks : List Block) (waiting : Block) (given : List (ℕ × ℕ))
        → IsRecorded blocks waiting given
        → IsRecorded (blocks ++ as_blocks waiting)
        (record { said = []; time = waiting.time }) given }
    ensures spells { (blocks : List Block) (waiting : Block)
        → recording_bytes (blocks ++ as_blocks waiting)
        ≡ recording_bytes blocks ++ blocks_bytes (as_blocks waiting) }
{}

/// All that a `RecordingReader` is fed is in the blocks that it gave, in the one that waits to be taken, and in what
/// has come of the next one. `Uses` is what `feed` does, `found` what `found` answers, `going_on` what `go_on` does.
pub fn all_is_read()
    ensures begins { HasRead [] [] first_block }
    ensures feeds { (fed : List ℕ) (given : List Block)
        (old new : Reading Found) (piece : List ℕ) (n : ℕ)
        → HasRead fed given old → Uses old new piece n
        → HasRead (fed ++ take n piece) given new }
    ensures goes_on { (fed : List ℕ) (given : List Block) (now : Reading Found)
        → HasRead fed given now
        → HasRead fed (given ++ found now) (going_on now) }
{}
