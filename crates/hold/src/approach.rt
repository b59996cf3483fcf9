// The approach point of a block, found from that of the block before it.
ghost use Rattle.std.specs.Prelude.{◌≡◌, ℕ, suc, ◌+◌, ◌-◌, ◌*◌, ◌≤◌, ◌<◌, leb, length};
ghost use Rattle.rules.specs.Count.{entry};
ghost use Rattle.rules.specs.Hold.{approach_point};

use values::SquaredSpeed;

// Whether a squared speed can be braked off over the points left.
fn brakes_within(speed: SquaredSpeed, loss: u64, left: usize) -> bool
    requires { (loss ≤ 15552000) × (left ≤ 4096) }
    ensures { result ≡ leb speed.0 (loss * left) }
{
    u64::from(speed.0) <= loss * left as u64
}

// The approach point of a block from b, where `from` is one for an earlier block or 0.
pub(crate) fn approach_point(speeds: &[u32], loss: u64, from: usize, b: usize) -> usize
    requires loss_bound { (loss ≤ 15552000) × (b ≤ 4096) × (b < length speeds.now) × (from ≤ b) }
    requires from_bound { 0 < from → entry speeds.now from ≤ loss * (b - from) }
    requires by_index { (k : ℕ) → k < b → entry speeds.now k ≤ entry speeds.now (suc k) + loss }
    ensures { (result ≡ approach_point speeds.now loss b) × (from ≤ result) }
{
    for i in from..b {
        if !brakes_within(SquaredSpeed(speeds[i + 1]), loss, b - (i + 1)) {
            return i;
        }
    }
    b
}
