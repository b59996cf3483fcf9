// What a buffer holds, in one number.
ghost use Rattle.std.specs.Prelude.{◌≡◌, ◌≤◌, ◌+◌, ℕ, length, map, fold, slice_get, Some, true, false};
ghost use Rattle.cases.specs.Sums.{taken_in};

// The sum with all the numbers taken in, in their order.
pub fn summed<T: Copy + Into<u64>>(sum: u64, numbers: &[T]) -> u64
    ensures { (to : T → ℕ) → ((x : T) (n : ℕ) → T.converts x n → n ≡ to x) → result ≡ fold taken_in sum (map to numbers.now) }
{
    numbers.iter().fold(sum, |sum, n| {
        sum.rotate_left(7).wrapping_add((*n).into())
    })
}

// How many entries stand before those at the end that are as they came.
pub fn written<T: Copy + PartialEq>(entries: &[T], untouched: T) -> usize
    ensures within { result ≤ length entries.now }
    ensures behind { (k : ℕ) (x : T) → result ≤ k → slice_get entries.now k ≡ Some x → T.eq x untouched ≡ true }
    ensures last { (k : ℕ) (x : T) → result ≡ k + 1 → slice_get entries.now k ≡ Some x → T.eq x untouched ≡ false }
{
    entries
        .iter()
        .rposition(|entry| *entry != untouched)
        .map_or(0, |last| last + 1)
}
