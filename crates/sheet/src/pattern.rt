// The hour pattern: the percentage of an hour that a period is.
ghost use Rattle.std.specs.Prelude.{◌≡◌, ◌*◌, ◌^◌, ◌≤◌};
ghost use Rattle.rules.specs.Period as periods;

// 3,600 seconds in microseconds.
const HOUR: u64 = 3600000000;

// Rounded to the nearest, halves up.
pub(crate) fn percentage(period: u64) -> u64
    requires { period ≤ 64 * 2 ^ 44 }
    ensures { result ≡ periods.percentage period }
{
    (2 * (100 * period) + HOUR) / (2 * HOUR)
}
