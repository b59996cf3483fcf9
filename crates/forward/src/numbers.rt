// Squared speeds made of speeds.
ghost use Rattle.std.specs.Prelude.{◌≡◌, ◌≤◌};
ghost use Rattle.rules.specs.Run.{squared};

use values::SquaredSpeed;

// The square of 100 times a speed in km/h.
pub(crate) fn squared_of(v: u32) -> SquaredSpeed
    requires { v ≤ 300 }
    ensures { result.0 ≡ squared v }
{
    let hundredths = 100 * v;
    SquaredSpeed(hundredths * hundredths)
}
