//! The front of an answer: its header, and the copies of the host that are passed on.

ghost use Rattle.std.specs.Prelude.{◌+◌, ◌≤◌, ◌^◌, length};
ghost use Rattle.std.specs.List.{All};
ghost use Rattle.copy_log.specs.Notes.{IsOnScreen, paints};
ghost use Rattle.update_encoder.specs.Coming.{front_bytes};
ghost use Rattle.update_encoder.specs.Written.{IsFront};

use crate::rectangle::write_copy;
use copy_log::CopyRect;
use rfb_wire::write_update_head;

/// How many bytes the header of an update has (RFC 6143, 7.6.1).
const UPDATE_HEAD_LEN: usize = 4;

/// The most bytes of a front: a header, and 64 copies of 16 bytes (RFC 6143, 7.6.1 and 7.7.2).
pub const LONGEST_FRONT: usize = 1028;

/// Writes the header of an update, which counts these copies and `count` rectangles, and then the copies, to the front
/// of `out`, which has `LONGEST_FRONT` bytes at least. Answers how many bytes that are (RFC 6143, 7.6.1 and 7.7.2).
pub fn write_front(copies: &[CopyRect], count: u64, out: &mut [u8]) -> usize
    requires few { length copies.now ≤ 64 }
    requires on { All (IsOnScreen 4096 4096) copies.now }
    requires count { count ≤ 2 ^ 15 }
    requires room { 1028 ≤ length out.old }
    ensures written { IsFront (front_bytes (paints copies.now) count) out.new result }
    ensures some { 4 ≤ result }
    ensures room { result ≤ 1028 }
{
    write_update_head(copies.len() as u16 + count as u16, out);
    let mut len = UPDATE_HEAD_LEN;
    for copy in copies {
        len += write_copy(&copy.area, &copy.source(), &mut out[len..]);
    }
    len
}
