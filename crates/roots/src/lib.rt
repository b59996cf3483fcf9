// The root: the only step from a squared speed to a speed, and the dot that marks a whole one.
#![tactic(auto)]

ghost use Rattle.std.specs.Prelude.{◌≡◌, ◌≤◌, ◌==◌};
ghost use Rattle.rules.specs.Diagram.{dot as dot_of};
ghost use Rattle.rules.specs.Time.{root as root_of};
ghost use Rattle.roots.specs.Root.{as_root};

use values::{Speed, SquaredSpeed};

// The speed, and what is left of the squared speed after its square.
#[derive(Clone, Copy)]
pub struct RootAnswer {
    pub speed: Speed,
    pub left: u32,
}

impl RootAnswer {
    // 1 for a full dot where the speed is whole, 0 for an open one where it was rounded down.
    pub fn dot(self) -> u8
        ensures { result ≡ dot_of (as_root self) }
    {
        u8::from(self.left == 0)
    }
}

// Digit by digit: each trial bit stays where the square keeps within w. The count of leading zeros gives the first. `left` is what is left
// of w after the square of the digits found; `r` is their root, shifted so that a trial is one sum. The loop counts no index: it goes from
// bit to bit. `u32::isqrt` takes sixteen rounds for each root, and leaves out what is left.
pub fn root(w: SquaredSpeed) -> RootAnswer
    ensures { (as_root result ≡ root_of w.0) × (result.speed.0 ≤ 65535) }
{
    let digits = (33 - w.0.leading_zeros()) / 2;
    // 4^(digits - 1), or 0 where w is 0. 4^digits needs up to 33 bits.
    let mut bit = ((1u64 << (2 * digits)) / 4) as u32;
    let mut r: u32 = 0;
    let mut left = w.0;
    while 0 < bit {
        let trial = r + bit;
        r /= 2;
        if trial <= left {
            left -= trial;
            r += bit;
        }
        bit /= 4;
    }
    RootAnswer {
        speed: Speed(r),
        left,
    }
}

// Whether the guess is the number of the root of w. A square above w leaves, modulo 2^32, more than twice any guess.
pub fn is_root(guess: u16, w: SquaredSpeed) -> bool
    ensures { result ≡ (guess == (root_of w.0).number) }
{
    let r = u32::from(guess);
    w.0.wrapping_sub(r * r) <= 2 * r
}

// The root of w, whatever the guess.
pub fn root_from(guess: u16, w: SquaredSpeed) -> RootAnswer
    ensures { (as_root result ≡ root_of w.0) × (result.speed.0 ≤ 65535) }
{
    if is_root(guess, w) {
        let number = u32::from(guess);
        return RootAnswer {
            speed: Speed(number),
            left: w.0 - number * number,
        };
    }
    root(w)
}
