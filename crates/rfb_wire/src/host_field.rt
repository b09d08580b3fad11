//! The fields of a host's handshake: how long they are, and what their bytes say.

ghost use Rattle.std.specs.Prelude.{◌≡◌, ◌+◌, ◌≤◌, ◌&&◌, ◌||◌, ◌==◌, nat_lt, nat_le, [], ◌∷◌, slice_index, length};
ghost use Rattle.std.specs.Int.{w16, w32, from_be_bytes};
ghost use Rattle.rfb_wire.specs.declared.host_field.TheConstants.{COUNT_LEN, MOST_KEPT, NUMBER_LEN};
ghost use Rattle.rfb_wire.specs.declared.version.TheConstants.{VERSION_LEN};
ghost use Rattle.rfb_wire.specs.Handshake.{is_host_version, number_at, has_number_at, is_size};

use arrayvec::ArrayVec;

/// How many bytes the number of security types has (RFC 6143, 7.1.2).
pub(crate) const COUNT_LEN: usize = 1;

/// How many bytes a SecurityResult has, and each length of a reason or a name (RFC 6143, 7.1.2, 7.1.3 and 7.3.2).
pub(crate) const NUMBER_LEN: usize = 4;

/// How many bytes the size of a screen has: a width and a height of two each (RFC 6143, 7.3.2).
pub(crate) const SIZE_LEN: usize = 4;

/// How many bytes a pixel format has (RFC 6143, 7.4).
pub(crate) const FORMAT_LEN: usize = 16;

/// The most bytes that are kept of a reason or a name, whose length may be any. A list of security types never has more
/// bytes, since its length is told in one byte (RFC 6143, 7.1.2).
pub(crate) const MOST_KEPT: usize = 255;

/// The number that the three digits from byte `i` on spell.
fn number_at(version: &[u8], i: usize) -> u32
    requires { i + 3 ≤ length version.now }
    ensures { result ≡ number_at version.now i }
{
    u32::from(version[i].saturating_sub(b'0')) * 100
        + u32::from(version[i + 1].saturating_sub(b'0')) * 10
        + u32::from(version[i + 2].saturating_sub(b'0'))
}

/// Whether three digits stand from byte `i` on.
fn has_number_at(version: &[u8], i: usize) -> bool
    requires { i + 3 ≤ length version.now }
    ensures { result ≡ has_number_at version.now i }
{
    version[i].is_ascii_digit()
        && version[i + 1].is_ascii_digit()
        && version[i + 2].is_ascii_digit()
}

/// Whether a version with these two numbers is 3.8 or later.
fn is_from_3_8(major: u32, minor: u32) -> bool
    ensures { result ≡ (nat_lt 3 major || ((major == 3) && nat_le 8 minor)) }
{
    major > 3 || major == 3 && minor >= 8
}

/// Whether these bytes are a version from 3.8 on (RFC 6143, 7.1.1).
pub(crate) fn is_accepted(version: &[u8]) -> bool
    requires { length version.now ≡ VERSION_LEN }
    ensures { result ≡ is_host_version version.now }
{
    version.starts_with(b"RFB ")
        && has_number_at(version, 4)
        && version[7] == b'.'
        && has_number_at(version, 8)
        && version[11] == b'\n'
        && is_from_3_8(number_at(version, 4), number_at(version, 8))
}

/// The number in the one byte of a field.
pub(crate) fn count_in(field: &[u8]) -> u8
    requires { length field.now ≡ COUNT_LEN }
    ensures { result ≡ slice_index field.now 0 }
{
    field[0]
}

/// The number in the four bytes of a field.
pub(crate) fn number_in(field: &[u8]) -> u32
    requires { length field.now ≡ NUMBER_LEN }
    ensures { result ≡ from_be_bytes w32 field.now }
{
    u32::from_be_bytes([field[0], field[1], field[2], field[3]])
}

/// A width or a height, in the two bytes of a field from byte `i` on.
pub(crate) fn size_at(field: &[u8], i: usize) -> u16
    requires { i + 2 ≤ length field.now }
    ensures { result
        ≡ from_be_bytes w16 (slice_index field.now i ∷ slice_index field.now (i + 1) ∷ []) }
{
    u16::from_be_bytes([field[i], field[i + 1]])
}

/// Whether a screen may be this wide or this high: 1 to 4096 pixels.
pub(crate) fn is_size(n: u16) -> bool
    ensures { result ≡ is_size n }
{
    1 <= n && n <= 4096
}

/// The bytes as a vector of at most `MOST_KEPT`.
pub(crate) fn kept(bytes: &[u8]) -> ArrayVec<u8, MOST_KEPT>
    requires { length bytes.now ≤ MOST_KEPT }
    ensures { result.items ≡ bytes.now }
{
    let mut kept = ArrayVec::new();
    // There is room for all bytes that are kept.
    let _ = kept.try_extend_from_slice(bytes);
    kept
}
