// How long a train waits: its least start, and the period of the first train.
ghost use Rattle.std.specs.Prelude.{◌≡◌, ◌-◌, min, max, length};
ghost use Rattle.rules.specs.Count.{entry, greatest_below};

// The later of a start and the least one at which a block is free.
pub fn later(start: u64, free: u64, begin: u64) -> u64
    ensures { result ≡ max start (free - begin) }
{
    start.max(free.saturating_sub(begin))
}

// The greatest, over the blocks of both, of free time less beginning.
pub fn longest_wait(free: &[u64], begins: &[u64]) -> u64
    ensures { result ≡ greatest_below (min (length free.now) (length begins.now)) (λ b. entry free.now b - entry begins.now b) }
{
    let mut longest = 0;
    for (free_time, begin) in free.iter().zip(begins) {
        longest = later(longest, *free_time, *begin);
    }
    longest
}
