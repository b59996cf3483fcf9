// A stretch of the forward sweep: points at which the lowest limit covered is the same.
ghost use Rattle.std.specs.Prelude.{cond, ◌≡◌, ℕ, ◌+◌, ◌-◌, ◌≤◌, ◌<◌, min, length};
ghost use Rattle.rules.specs.Count.{entry, greatest_below};
ghost use Rattle.rules.specs.Run.{squared};
ghost use Rattle.stops.specs.Stops.{Apart, Behind};
ghost use Rattle.forward.specs.Stretch.{SweptTo};

use crate::bands::Bands;
use crate::numbers::squared_of;
use stops::{Stop, point_of, stop_ahead};
use values::SquaredSpeed;

// The cap of a speed in km/h: 0 at a stop.
fn cap_of(stopped: bool, v: u32) -> SquaredSpeed
    requires { v ≤ 300 }
    ensures { result.0 ≡ cond stopped 0 (squared v) }
{
    if stopped {
        SquaredSpeed(0)
    } else {
        squared_of(v)
    }
}

// A squared speed under way, and the band by which the last step was drawn: the search for the next begins with it.
#[derive(Clone, Copy)]
pub struct Drawn {
    pub w: SquaredSpeed,
    pub band: usize,
}

// The lesser of the cap and the traction step from w. A cap at most w and the square of the last top is at most the step.
fn capped_step(bands: &Bands, before: Drawn, cap: SquaredSpeed) -> Drawn
    requires w_bound { before.w.0 ≤ 900000000 }
    requires le_count { (1 ≤ bands.now.count) × (cap.0 ≤ entry bands.now.squares (bands.now.count - 1)) }
    ensures { result.w.0 ≡
        min cap.0 (greatest_below bands.now.count (λ k. min (before.w.0 + entry bands.now.gains k) (entry bands.now.squares k))) }
{
    if cap.0 <= before.w.0 {
        return Drawn {
            w: cap,
            band: before.band,
        };
    }
    let band = bands.above(before.band, before.w);
    let step = bands.traction_step(band, before.w);
    Drawn {
        w: step.at_most(cap),
        band,
    }
}

// What a sweep carries from point to point: the squared speed of the point before, and the next stop.
#[derive(Clone, Copy)]
pub struct Swept {
    pub drawn: Drawn,
    pub stop: Option<Stop>,
}

// Before point 0. The step from the greatest squared speed is at least any cap, so point 0 gets its cap.
pub(crate) fn swept_from(stop: Option<Stop>) -> Swept
    ensures { (result.drawn.w.0 ≡ 900000000) × (result.stop ≡ stop) }
{
    Swept {
        drawn: Drawn {
            w: SquaredSpeed(900000000),
            band: 0,
        },
        stop,
    }
}

// Sweeps over the points from `from` up to `end`, at which the lowest limit is the same.
pub(crate) fn write_stretch(
    bands: &Bands,
    stops: &[u16],
    lowest: u32,
    from: usize,
    end: usize,
    speeds: &mut [u32],
    before: Swept,
) -> Swept
    requires le_count { (1 ≤ bands.now.count) × (squared lowest ≤ entry bands.now.squares (bands.now.count - 1)) × (lowest ≤ 300) }
    requires w_bound { before.drawn.w.0 ≤ 900000000 }
    requires apart { Apart stops.now }
    requires behind { Behind stops.now before.stop from }
    requires from_le_end { (from ≤ end) × (end ≤ length speeds.old) }
    ensures carried { Behind stops.now result.stop end × (result.drawn.w.0 ≤ 900000000) }
    ensures speeds { SweptTo bands.now stops.now lowest from end end before.drawn.w.0
        result.drawn.w.0 speeds.old speeds.new }
{
    let mut drawn = before.drawn;
    let mut stop = before.stop;
    let mut stop_point = point_of(stop, end);
    for i in from..end {
        if stop_point < i {
            stop = stop_ahead(stops, stop, i);
            stop_point = point_of(stop, end);
        }
        let cap = cap_of(stop_point == i, lowest);
        drawn = capped_step(bands, drawn, cap);
        speeds[i] = drawn.w.0;
    }
    Swept { drawn, stop }
}

// Where a stretch from point i on ends: before `until`, but after i, and with the sweep.
pub(crate) fn stretch_end(until: usize, i: usize, end: usize) -> usize
    requires { i < end }
    ensures { (i < result) × (result ≤ end) × ((j : ℕ) → i < j → j < result → j < until) }
{
    if until <= i { i + 1 } else { until.min(end) }
}
