// The running times: cell times and dwells added up from point to point.
ghost use Rattle.std.specs.Prelude.{◌≡◌, ℕ, ◌+◌, ◌*◌, ◌<◌, ◌≤◌, length};
ghost use Rattle.rules.specs.Calls.{written};
ghost use Rattle.rules.specs.Count.{entry, ceil_div};
ghost use Rattle.rules.specs.Run.{run_row};
ghost use Rattle.rules.specs.Time.{cell_time, run_times};
ghost use Rattle.values.specs.Values.{as_line, as_train};

use crate::kept::{KeptRoots, Rooted};
use judging::OnLine;
use stops::{dwell_at, first_stop, point_of, stop_ahead};
use values::{Speed, SquaredSpeed};

// A cell's time in microseconds, and the sum of its two roots that gives it.
#[derive(Clone, Copy)]
struct CellTime {
    sum: u32,
    time: u64,
}

// The time of a cell with this sum of roots, over a step in m. `div_ceil` tests what is left of each division, and was measured to be slower.
fn cell_time(step: u16, sum: u32) -> u64
    requires { 0 < sum }
    ensures { result ≡ ceil_div (720000000 * step) sum }
{
    let sum = u64::from(sum);
    (720000000 * u64::from(step) + (sum - 1)) / sum
}

// The cells of a line, of a step in m. The last one is kept, since many cells have the sum of the one before.
#[derive(Drop)]
struct Cells {
    step: u16,
    last: CellTime,
    ghost timed: { last.time ≡ ceil_div (720000000 * step) last.sum },
}

impl Cells {
    // Begins with a cell of sum 1, whose time needs no division.
    fn of(step: u16) -> Cells
        ensures { result.step ≡ step }
    {
        Cells {
            step,
            last: CellTime {
                sum: 1,
                time: 720000000 * u64::from(step),
            },
        }
    }

    // The time of the cell between roots p and q.
    fn time_between(&mut self, p: Speed, q: Speed) -> u64
        requires { (p.0 ≤ 65535) × (q.0 ≤ 65535) × (0 < p.0 + q.0) }
        ensures time { result ≡ cell_time self.old.step p.0 q.0 }
        ensures step { self.new.step ≡ self.old.step }
    {
        let sum = p.0 + q.0;
        if sum == self.last.sum {
            return self.last.time;
        }
        let time = cell_time(self.step, sum);
        self.last = CellTime { sum, time };
        time
    }
}

// Fills `times` with the arrivals of the run that `speeds` holds.
pub(crate) fn write_times(on: OnLine, speeds: &[u32], times: &mut [u64])
    requires points_in_bounds { (on.line.points ≤ length speeds.now) × (on.line.points ≤ length times.old) }
    requires by_index { (k : ℕ) → k < on.line.points → entry speeds.now k ≡ entry (run_row (as_line on.line) (as_train on.train)) k }
    ensures { times.new ≡ written times.old 0 (run_times (as_line on.line) (as_train on.train)) }
{
    // Copied before they are lent: to lend a field of the train has the compiler copy most of it.
    let stops = on.train.stops;
    let dwells = on.train.dwells;
    let stops = &stops[..on.train.stop_count];
    let dwells = &dwells[..on.train.stop_count];
    let last = usize::from(on.line.points) - 1;
    let mut stop = first_stop(stops);
    let mut stop_point = point_of(stop, last);
    let mut stop_dwell = dwell_at(dwells, stop, stop_point);
    let mut time = 0;
    let mut cells = Cells::of(on.line.step);
    let mut kept = KeptRoots::none();
    let mut here = Rooted::of(SquaredSpeed(speeds[0]));
    // By number: a zip of the arrivals and the pairs of speeds would need the point's number for the stops all the same.
    for i in 0..last {
        times[i] = time;
        if stop_point < i {
            stop = stop_ahead(stops, stop, i);
            stop_point = point_of(stop, last);
            stop_dwell = dwell_at(dwells, stop, stop_point);
        }
        let there = kept.root_after(here, SquaredSpeed(speeds[i + 1]));
        let dwell = if stop_point == i { stop_dwell } else { 0 };
        let cell = cells.time_between(here.root.speed, there.root.speed);
        time += dwell + cell;
        here = there;
    }
    times[last] = time;
}
