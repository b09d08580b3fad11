//! Laws about indexes.

ghost use Rattle.std.specs.Prelude.{◌≡◌, ◌≤◌, ◌<◌, ◌/◌, ◌%◌, ◌^◌, ℕ, List, [], ◌∷◌, ◌++◌, length, take, drop, None, All};
ghost use Rattle.recording.specs.Recording.{Block, AreBlocks, recording_bytes, line as recording_line};
ghost use Rattle.recording.specs.BlockReading.{blocks_in};
ghost use Rattle.recording_index.specs.IndexBytes.{line, index_bytes, AreMoments};
ghost use Rattle.recording_index.specs.IndexReading.{fault_in, moments_in};
ghost use Rattle.recording_index.specs.KeyMoments.{IsAt, IsIndexOf, moment_before};
ghost use Rattle.recording_index.specs.declared.form.TheConstants.{INDEX_LINE};
ghost use Rattle.recording_index.specs.declared.moment.KeyMoment.{KeyMoment};

/// What is written is read: the same key moments, and no fault. `INDEX_LINE` is the line of the definition.
pub fn indexes_are_read()
    ensures line { INDEX_LINE ≡ line }
    ensures moments { (moments : List KeyMoment) → AreMoments moments
        → moments_in (index_bytes moments) ≡ moments }
    ensures fine { (moments : List KeyMoment) → AreMoments moments
        → fault_in (index_bytes moments) ≡ None }
{}

/// An index has one spelling: bytes without a fault, that weren't cut off, are those of the key moments that are read
/// from them.
pub fn one_spelling()
    ensures in_order { (bytes : List ℕ) → All (λ b. b < 256) bytes → fault_in bytes ≡ None
        → AreMoments (moments_in bytes) }
    ensures spells { (bytes : List ℕ) → All (λ b. b < 256) bytes
        → fault_in bytes ≡ None → 12 ≤ length bytes → length bytes % 12 ≡ 0
        → index_bytes (moments_in bytes) ≡ bytes }
{}

/// An index that is cut off anywhere has no fault, and is right up to its last whole entry.
pub fn beginnings_of_an_index()
    ensures fine { (moments : List KeyMoment) (front back : List ℕ) → AreMoments moments
        → index_bytes moments ≡ front ++ back
        → fault_in front ≡ None }
    ensures moments { (moments : List KeyMoment) (front back : List ℕ) → AreMoments moments
        → index_bytes moments ≡ front ++ back
        → moments_in front ≡ take (length (drop 12 front) / 12) moments }
{}

/// A key moment leads to a block of its time: whoever reads the recording's line, and then goes on at the key moment's
/// place, reads this block and all later ones.
pub fn key_moments_lead_to_blocks()
    ensures time { (blocks : List Block) (m : KeyMoment) → (at : IsAt blocks m)
        → at.block.time ≡ m.time }
    ensures read { (blocks : List Block) (m : KeyMoment) → AreBlocks blocks → (at : IsAt blocks m)
        → blocks_in (recording_line ++ drop m.place (recording_bytes blocks))
        ≡ at.block ∷ at.later }
{}

/// How an index is made. It begins with no key moment. Where blocks are added to a recording, the index still belongs
/// to it. Where a next block is added, the key moment at which that block begins may be added behind the others.
pub fn key_moments_are_added()
    ensures begins { (blocks : List Block) → IsIndexOf [] blocks }
    ensures stays { (moments : List KeyMoment) (blocks more : List Block) → IsIndexOf moments blocks
        → IsIndexOf moments (blocks ++ more) }
    ensures adds { (moments : List KeyMoment) (blocks : List Block) (block : Block)
        → AreBlocks (blocks ++ block ∷ [])
        → length (recording_bytes blocks) < 2 ^ 64
        → IsIndexOf moments blocks
        → IsIndexOf (moments ++ moment_before blocks block ∷ []) (blocks ++ block ∷ []) }
{}
