// Rule 15, of the balises of a decoded line, whatever it holds.
#![tactic(auto)]

ghost use Rattle.std.specs.Prelude.{◌≡◌, ◌-◌, ◌*◌};
ghost use Rattle.rules.specs.Refusal.{balises_rule};
ghost use Rattle.values.specs.Values.{as_line};

use values::{Line, place_of};

// The place of the last of so many points, in m from point 0; 0 where there is none.
fn last_place(points: u16, step: u16) -> u32
    ensures { result ≡ (points - 1) * step }
{
    place_of(points.saturating_sub(1), 0, step)
}

// Whether balises strictly rise in place, metres are below the step and no place lies beyond the last point. Entries past the array count
// as 0, so more balises than it holds do not rise.
pub fn balises_kept(line: Line) -> bool
    ensures { result ≡ balises_rule (as_line line) }
{
    let n = line.balise_count;
    if 64 < n {
        return false;
    }
    let last = last_place(line.points, line.step);
    // The least place that the next balise may have.
    let mut least = 0;
    // Copied before they are lent: to lend a field of the line has the compiler copy most of it.
    let points = line.balise_points;
    let metres_past = line.balise_metres;
    for (point, metres) in points[..n].iter().zip(&metres_past[..n]) {
        let place = place_of(*point, *metres, line.step);
        if line.step <= *metres || place < least || last < place {
            return false;
        }
        least = place + 1;
    }
    true
}
