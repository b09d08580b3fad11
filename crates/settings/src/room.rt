//! The room of a run.

ghost use Rattle.std.specs.Prelude.{◌≡◌, ◌≢◌, ◌≤◌, ℕ, IfNone, IfSome, nat_le, slice_index};
ghost use Rattle.std.specs.Fmt.{decimal};
ghost use Rattle.raster.specs.Size.{IsScreenSize};

/// The most pixels that a room has each way.
const MOST: u64 = 4096;

/// The size of a room in pixels, from 1 to 4096 each way. It is what viewers are told of the screen.
#[derive(Clone, Copy, Debug, PartialEq, Eq, Drop)]
pub struct Room {
    pub width: u64,
    pub height: u64,
    pub ghost size: { IsScreenSize width height },
}

impl Room {
    ghost use Rattle.std.specs.Prelude.{◌≡◌, ◌≢◌, ℕ, IfNone, IfSome};
    ghost use Rattle.raster.specs.Size.{IsScreenSize};
    ghost use Rattle.settings.specs.Rooms.{room_text};

    /// Reads a text like `1920x1080`: the width and the height in decimal digits, without signs and leading zeros. It
    /// answers `None` where the text is of no room.
    pub fn read(text: &str) -> Option<Room>
        ensures says { IfSome result (λ room. text.now ≡ room_text room.width room.height) }
        ensures none { IfNone result
            ((width height : ℕ) → IsScreenSize width height → text.now ≢ room_text width height) }
    {
        let (width, height) = text.split_once('x')?;
        let width = pixels(width)?;
        let height = pixels(height)?;
        Some(Room { width, height })
    }
}

/// Whether a text begins with the digit 0 or a byte below it, as no number but 0 does. `parse` would take a plus, too,
/// and leading zeros.
fn begins_low(text: &[u8]) -> bool
    ensures { result ≡ nat_le (slice_index text.now 0) 48 }
{
    text.is_empty() || text[0] <= b'0'
}

/// A number of pixels from 1 to 4096, in decimal digits without a sign and without leading zeros.
fn pixels(text: &str) -> Option<u64>
    ensures found { IfSome result (λ n. (1 ≤ n) × (n ≤ 4096) × (text.now ≡ decimal n)) }
    ensures none { IfNone result ((n : ℕ) → 1 ≤ n → n ≤ 4096 → text.now ≢ decimal n) }
{
    if begins_low(text.as_bytes()) {
        return None;
    }
    let number = text.parse::<u64>().ok()?;
    if number > MOST {
        return None;
    }
    Some(number)
}
