//! Runs of one value in a row.

ghost use Rattle.std.specs.Prelude.{◌≡◌, ℕ, ◌+◌, ◌<◌, ◌≤◌, ◌^◌, ◌++◌, ◌==◌, true, false, length, slice_index, take, take_while};
ghost use Rattle.pixel_format.specs.PixelFormat.{pixel_len};
ghost use Rattle.raster.specs.Encoding.{rre_subrect_bytes};
ghost use Rattle.joined_runs.specs.Found.{subrect_as_high};

use joined_runs::RowRun;
use pixel_format::Format;
use raster::{RECT_LEN, Rect};
use std::simd::cmp::SimdPartialEq;
use std::simd::u32x16;

/// How many bytes the number of subrectangles has.
pub const COUNT_LEN: usize = 4;

/// How many values are compared at once.
const LANES: usize = 16;

/// How many of the next sixteen values equal this one, before another value comes.
fn same_from(values: &[u32], from: usize, value: u32) -> usize
    requires { from + LANES ≤ length values.now }
    ensures few { result ≤ LANES }
    ensures same { (k : ℕ) → from ≤ k → k < from + result
        → slice_index values.now k == value ≡ true }
    ensures stops { result < LANES → slice_index values.now (from + result) == value ≡ false }
{
    let next = u32x16::from_slice(&values[from..]);
    let others = next.simd_ne(u32x16::splat(value)).to_bitmask();
    if others == 0 {
        LANES
    } else {
        others.trailing_zeros() as usize
    }
}

/// How many values at the front equal this one, counted one by one.
fn run_len_by_one(values: &[u32], value: u32) -> usize
    ensures { result ≡ length (take_while (λ v. v == value) values.now) }
{
    values.iter().take_while(|v| **v == value).count()
}

/// How many values at the front are this one.
pub fn run_len(values: &[u32], value: u32) -> usize
    ensures { result ≡ length (take_while (λ v. v == value) values.now) }
{
    let mut len = 0;
    while len + LANES <= values.len() {
        let same = same_from(values, len, value);
        len += same;
        if same < LANES {
            return len;
        }
    }
    len + run_len_by_one(&values[len..], value)
}

/// Writes a run as a subrectangle that is `high` pixels high, from index `used` of `out` on: its pixel, and then its
/// place.
pub fn put_run(format: &Format, run: &RowRun, high: usize, out: &mut [u8], used: usize)
    requires x { run.now.x < 2 ^ 16 }
    requires y { run.now.y < 2 ^ 16 }
    requires len { run.now.len < 2 ^ 16 }
    requires high { high < 2 ^ 16 }
    requires room { used + pixel_len format.now + RECT_LEN ≤ length out.old }
    ensures { take (used + pixel_len format.now + RECT_LEN) out.new
        ≡ take used out.old ++ rre_subrect_bytes format.now (subrect_as_high run.now high) }
{
    let place = Rect {
        x: run.x as u64,
        y: run.y as u64,
        w: run.len as u64,
        h: high as u64,
    };
    format.put_pixel(run.value, &mut out[used..]);
    let at = used + format.bytes();
    out[at..at + RECT_LEN].copy_from_slice(&place.write());
}
