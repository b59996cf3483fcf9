// The free times after an addition.
ghost use Rattle.std.specs.Prelude.{◌≡◌, ℕ, ◌+◌, ◌*◌, ◌^◌, ◌≤◌, ◌<◌, length};
ghost use Rattle.rules.specs.Count.{entry};

// Each block's free time becomes start plus end.
pub(crate) fn release(free: &mut [u64], ends: &[u64], start: u64)
    requires of_both { length free.old ≡ length ends.now }
    requires start_bound { start ≤ 64 * 2 ^ 44 }
    requires ends_bound { (b : ℕ) → b < length ends.now → entry ends.now b ≤ 2 ^ 44 }
    ensures { (b : ℕ) → b < length free.old → entry free.new b ≡ start + entry ends.now b }
{
    // By the index: of a zip over `iter_mut` a proof knows no entry.
    for (b, free) in free.iter_mut().enumerate() {
        *free = start + ends[b];
    }
}
