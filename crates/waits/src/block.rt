// The block named for a start.
ghost use Rattle.std.specs.Prelude.{◌≡◌, [], ℕ, ◌+◌, ◌<◌, ◌≢◌, min, eqb, length, MatchOption};
ghost use Rattle.rules.specs.Count.{entry};
ghost use Rattle.rules.specs.Sheet.{block_named};
ghost use Rattle.waits.specs.Fields.{sheet_from, hold_from};

// Start plus beginning equals the free time. No sum is formed, since it may not fit.
fn binds(start: u64, begin: u64, free: u64) -> bool
    ensures { result ≡ eqb (start + begin) free }
{
    free.checked_sub(start) == Some(begin)
}

// The last block that binds, among the blocks of both.
fn last_binding(free: &[u64], begins: &[u64], start: u64) -> Option<usize>
    ensures { let count = min (length free.now) (length begins.now) in
        MatchOption result ((k : ℕ) → k < count → start + entry begins.now k ≢ entry free.now k)
        (λ b. (b < count) × (start + entry begins.now b ≡ entry free.now b)
        × ((k : ℕ) → b < k → k < count → start + entry begins.now k ≢ entry free.now k)) }
{
    let count = free.len().min(begins.len());
    (0..count)
        .rev()
        .find(|b| binds(start, begins[*b], free[*b]))
}

// The block named, among the blocks of both.
pub fn block_named(free: &[u64], begins: &[u64], start: u64) -> u64
    ensures { result
        ≡ block_named (sheet_from (min (length free.now) (length begins.now)) 0 free.now []) (hold_from 0 begins.now []) start }
{
    if start == 0 {
        return 0;
    }
    last_binding(free, begins, start).map_or(0, |b| b as u64 + 1)
}
