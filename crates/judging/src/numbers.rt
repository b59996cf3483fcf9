// Tests of numbers.
ghost use Rattle.std.specs.Prelude.{◌≡◌, ◌+◌, length, min};
ghost use Rattle.rules.specs.Count.{entry, within, all_within, below_by, rises_by};

pub(crate) fn is_within(x: usize, low: usize, high: usize) -> bool
    ensures { result ≡ within low high x }
{
    low <= x && x <= high
}

// Whether each number lies from `low` to `high`.
pub(crate) fn all_within(numbers: &[u16], low: u16, high: u16) -> bool
    ensures { result ≡ all_within low high (length numbers.now) (entry numbers.now) }
{
    numbers
        .iter()
        .all(|number| low <= *number && *number <= high)
}

// Whether each number, with `gap` added, is at most the one beside it.
pub(crate) fn below_by(gap: u16, numbers: &[u16], others: &[u16]) -> bool
    ensures { result
        ≡ below_by gap (min (length numbers.now) (length others.now)) (entry numbers.now) (entry others.now) }
{
    numbers.iter().zip(others).all(|(number, other)| u32::from(*number) + u32::from(gap)
        <= u32::from(*other))
}

// Whether each number is at least `gap` more than the one before it.
pub(crate) fn rises_by(gap: u16, numbers: &[u16]) -> bool
    ensures { result ≡ rises_by gap (length numbers.now) (entry numbers.now) }
{
    match numbers.split_first() {
        Some((_, later)) => below_by(gap, numbers, later),
        None => true,
    }
}
