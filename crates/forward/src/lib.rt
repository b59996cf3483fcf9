// The forward sweep of a run: caps and traction steps in one pass over the points, with no row of caps.
#![tactic(auto)]

mod bands;
mod numbers;
mod stretch;

ghost use Rattle.std.specs.Prelude.{◌≡◌, ◌≤◌, ◌<◌, OnOk, length, take};
ghost use Rattle.refusals.specs.Number.{refused_by};
ghost use Rattle.rules.specs.Calls.{written};
ghost use Rattle.rules.specs.Count.{row};
ghost use Rattle.rules.specs.Refusal.{refusal, rules_on};
ghost use Rattle.rules.specs.Run.{IsForward, forward};
ghost use Rattle.values.specs.Values.{as_line, as_train};
ghost use Rattle.forward.specs.Calls.{entries_to, swept_on};

use bands::{bands_of, last_top};
use caps::{Course, Covered, balise_places, limit_places};
use judging::OnLine;
use refusals::Refusal;
use stops::first_stop;
use stretch::{stretch_end, swept_from, write_stretch};
use values::{Line, Train};

// A point of the line as the file counts it.
fn narrow_point(i: usize) -> u16
    requires { i < 65536 }
    ensures { result ≡ i }
{
    i as u16
}

// Sweeps over the points before `end`, one stretch after the other: the loop counts no index, but goes from the start of a stretch to the next.
// The stops that it reads are copied first: to lend a field of the train has the compiler copy most of it.
// The two come by value: of a train behind a reference the length of its arrays was not proved.
fn write_forward(on: OnLine, end: usize, speeds: &mut [u32])
    requires { (end ≤ on.line.points) × (end ≤ length speeds.old) }
    ensures { speeds.new ≡ written speeds.old 0 (row (forward (as_line on.line) (as_train on.train)) end) }
{
    let stop_points = on.train.stops;
    let stops = &stop_points[..on.train.stop_count];
    let limits_at = limit_places(on.line);
    let limits = on.line.limits;
    let balises_at = balise_places(on.line);
    let course = Course {
        limits_at,
        limits,
        balises_at,
        step: on.line.step,
        length: on.train.length,
        top: last_top(on.train),
    };
    let bands = bands_of(&on);
    let mut covered = Covered::START;
    let mut swept = swept_from(first_stop(stops));
    let mut i = 0;
    while i < end {
        covered = course.covered_at(narrow_point(i), covered);
        let next = stretch_end(covered.until, i, end);
        swept = write_stretch(&bands, stops, covered.lowest, i, next, speeds, swept);
        i = next;
    }
}

// How many entries a sweep up to and including a point writes: those of the points that there are on the line and in the buffer.
fn entries_to(point: u16, points: u16, room: usize) -> usize
    ensures { result ≡ entries_to point points room }
{
    (usize::from(point) + 1).min(usize::from(points).min(room))
}

// The sweep up to and including a point, whatever line and train hold, or the refusal by the file's rules from 3 on. The entries up to there
// are then the greatest row that keeps to their caps and traction steps, braking left out. Later entries keep their values, and on a refusal
// all do. Points that the line does not have, or the buffer has no room for, are left out.
pub fn sweep_to(line: Line, train: Train, point: u16, speeds: &mut [u32]) -> Result<(), Refusal>
    ensures number { refused_by result ≡ refusal (rules_on (as_line line) (as_train train)) }
    ensures speeds { speeds.new ≡ swept_on (as_line line) (as_train train) point speeds.old }
    ensures greatest { OnOk result
        (IsForward (as_line line) (as_train train) (entries_to point line.points (length speeds.old))
        (take (entries_to point line.points (length speeds.old)) speeds.new)) }
{
    let on = judging::admit(line, train)?;
    let end = entries_to(point, line.points, speeds.len());
    write_forward(on, end, speeds);
    Ok(())
}
