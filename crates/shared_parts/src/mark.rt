//! The marks of parts, by which they are found.

ghost use Rattle.std.specs.Prelude.{◌≡◌, ◌%◌};

use pixel_format::Format;
use raster::Rect;

/// The first value of a hash, and what each step multiplies it by (the hash FNV-1a, of 32 bits).
const BASIS: u32 = 0x811c_9dc5;

const PRIME: u32 = 0x0100_0193;

/// A step of the hash.
fn mixed(hash: u32, number: u64) -> u32 {
    (hash ^ (number % 0x1_0000_0000) as u32).wrapping_mul(PRIME)
}

/// The mark of an area's part in a format: the high half of a place's word. Parts of two names may have one mark, so
/// whoever finds a part compares its name.
pub(crate) fn mark_of(format: &Format, area: &Rect) -> u64
    ensures { result % 4294967296 ≡ 0 }
{
    let mut fields = [0; 16];
    format.write(&mut fields);
    let hash = fields
        .iter()
        .fold(BASIS, |hash, field| mixed(hash, u64::from(*field)));
    let hash = [area.x, area.y, area.w, area.h]
        .iter()
        .fold(hash, |hash, number| mixed(hash, *number));
    u64::from(hash) * 0x1_0000_0000
}
