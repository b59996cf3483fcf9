// Speed and squared speed are two quantities; only the root turns one into the other.
ghost use Rattle.std.specs.Prelude.{◌≡◌, min};

// In hundredths of a km/h.
#[derive(Clone, Copy)]
pub struct Speed(pub u32);

// The square of a speed in hundredths of a km/h.
#[derive(Clone, Copy)]
pub struct SquaredSpeed(pub u32);

impl SquaredSpeed {
    // The squared speed lowered to `most` where it is greater.
    pub fn at_most(self, most: SquaredSpeed) -> SquaredSpeed
        ensures { result.0 ≡ min self.0 most.0 }
    {
        SquaredSpeed(self.0.min(most.0))
    }
}
