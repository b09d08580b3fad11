//! From which positions an end is reached over none that is broken.

ghost use Rattle.std.specs.Prelude.{◌≡◌, ℕ, ◌+◌, ◌<◌, ◌≤◌};
ghost use Rattle.std.specs.Int.{bit_at};
ghost use Rattle.hextile_codec.specs.Reach.{Covers, Reaches};

/// Of some positions from each one on: whether none of them is broken, and whether one is an end, with none broken up to
/// it.
#[derive(Clone, Copy)]
pub struct Reach {
    pub clear: u64,
    pub reached: u64,
}

impl Reach {
    /// The same of twice as many positions as these `n`.
    #[inline]
    fn twice(&self, n: u32) -> Reach
        requires some { 0 < n }
        requires few { n < 64 }
        ensures { (clean ends : ℕ) → Covers clean ends n self.now
            → Covers clean ends (n + n) result }
    {
        Reach {
            clear: self.clear & self.clear >> n,
            reached: self.reached | self.clear & self.reached >> n,
        }
    }
}

/// A bit for each position from which an end is among the next 16, itself with them, and none up to that is broken.
#[inline]
pub fn reaching(broken: u64, ends: u64) -> u64
    ensures reached { (p : ℕ) → Reaches broken ends p → bit_at result p ≡ 1 }
    ensures only { (p : ℕ) → bit_at result p ≡ 1 → Reaches broken ends p }
{
    let clear = !broken;
    let one = Reach {
        clear,
        reached: clear & ends,
    };
    one.twice(1).twice(2).twice(4).twice(8).reached
}
