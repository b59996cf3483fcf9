// The bands of a train, decoded once for a sweep, and the traction step by them.
ghost use Rattle.std.specs.Prelude.{true, ◌≡◌, ℕ, ◌+◌, ◌≤◌, ◌<◌, length, min};
ghost use Rattle.rules.specs.Count.{entry, greatest_below};
ghost use Rattle.rules.specs.Run.{last_top};
ghost use Rattle.values.specs.Values.{as_line, as_train};
ghost use Rattle.forward.specs.Traction.{Falls, IsBands, BandBounds};

use crate::numbers::squared_of;
use judging::OnLine;
use values::{SquaredSpeed, Train, change_over};
use widths::narrow;

// Of each band the squared speed gained over one step, and the square of 100 times its top; and whether the gains fall from band to band. Nothing
// is allocated, so the arrays have a fixed size.
#[derive(Clone, Copy)]
pub struct Bands {
    pub count: usize,
    pub gains: [u32; 8],
    pub squares: [u32; 8],
    pub falling: bool,
    ghost bounded: { BandBounds count gains squares },
    ghost falls: { falling ≡ true → Falls count gains },
}

// The last band's top, in km/h.
pub(crate) fn last_top(train: Train) -> u32
    requires { (1 ≤ train.band_count) × (train.band_count ≤ 64) }
    ensures { result ≡ last_top (as_train train) }
{
    let last = train.band_count - 1;
    u32::from(train.tops[last])
}

// No band gains more than the one before it.
fn gains_fall(gains: &[u32]) -> bool
    ensures { result ≡ true → Falls (length gains.now) gains.now }
{
    gains
        .iter()
        .zip(gains.iter().skip(1))
        .all(|(before, gain)| *gain <= *before)
}

pub(crate) fn bands_of(on: &OnLine) -> Bands
    ensures { IsBands (as_line on.now.line) (as_train on.now.train) result.count result.gains result.squares }
{
    let count = on.train.band_count;
    let mut gains = [0; 8];
    let mut squares = [0; 8];
    for k in 0..count {
        gains[k] = narrow(change_over(on.train.rates[k], on.line.step));
        let square = squared_of(u32::from(on.train.tops[k]));
        squares[k] = square.0;
    }
    let falling = gains_fall(&gains[..count]);
    Bands {
        count,
        gains,
        squares,
        falling,
    }
}

impl Bands {
    // The greatest of the bands' parts, each the lesser of w with the gain and the square of the top. By numbers: in a chain over the gains and
    // the squares the bound of the sum was not proved.
    fn greatest_part(&self, w: SquaredSpeed) -> SquaredSpeed
        requires { w.0 ≤ 900000000 }
        ensures { result.0 ≡ greatest_below self.now.count (λ k. min (w.0 + entry self.now.gains k) (entry self.now.squares k)) }
    {
        let mut best = SquaredSpeed(0);
        for k in 0..self.count {
            let drawn = SquaredSpeed(w.0 + self.gains[k]);
            let part = drawn.at_most(SquaredSpeed(self.squares[k]));
            best = SquaredSpeed(best.0.max(part.0));
        }
        best
    }

    // Where the search of a band begins: with the guess, if the top before it is not above w, else with the first. Any guess will do.
    fn first_tried(&self, guess: usize, w: SquaredSpeed) -> usize
        ensures { (result ≤ self.now.count) × ((k : ℕ) → k < result → entry self.now.squares k ≤ w.0) }
    {
        if 0 < guess && guess < self.count && self.squares[guess - 1] <= w.0 {
            guess
        } else {
            0
        }
    }

    // The first band whose top is above w, or the count where there is none.
    pub(crate) fn above(&self, guess: usize, w: SquaredSpeed) -> usize
        ensures { (result ≤ self.now.count) × ((k : ℕ) → k < result → entry self.now.squares k ≤ w.0) }
    {
        for k in self.first_tried(guess, w)..self.count {
            if w.0 < self.squares[k] {
                return k;
            }
        }
        self.count
    }

    // The traction step. Where the gains fall, the first band with its top above w gives it, as long as it does not pass this top.
    pub(crate) fn traction_step(&self, band: usize, w: SquaredSpeed) -> SquaredSpeed
        requires w_bound { w.0 ≤ 900000000 }
        requires by_index { (k : ℕ) → k < band → entry self.now.squares k ≤ w.0 }
        ensures { result.0 ≡ greatest_below self.now.count (λ k. min (w.0 + entry self.now.gains k) (entry self.now.squares k)) }
    {
        if self.falling && band < self.count {
            let drawn = w.0 + self.gains[band];
            if drawn <= self.squares[band] {
                return SquaredSpeed(drawn);
            }
        }
        self.greatest_part(w)
    }
}
