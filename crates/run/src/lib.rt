// The run of a train: its squared speeds and its arrivals.
#![tactic(auto)]

mod backward;
mod kept;
mod times;

ghost use Rattle.std.specs.Prelude.{◌≡◌, ℕ, ◌≤◌, ◌<◌, length, take};
ghost use Rattle.refusals.specs.Number.{refused_by};
ghost use Rattle.rules.specs.Calls.{written, run_refusal, speeds_after, times_after};
ghost use Rattle.rules.specs.Count.{entry};
ghost use Rattle.rules.specs.File.{point_count};
ghost use Rattle.rules.specs.Line.{line_of, train_of};
ghost use Rattle.rules.specs.Run.{forward, run_row};
ghost use Rattle.rules.specs.Time.{run_times, FastestRun};
ghost use Rattle.values.specs.Values.{as_line, as_train};
ghost use Rattle.run.specs.Calls.{run_refusal_on, speeds_on, times_on};

use backward::write_backward;
use judging::OnLine;
use refusals::Refusal;
use times::write_times;
use values::{Line, Train};
use widths::narrow;

// Makes the run of the forward row that `speeds` begins with, and writes its arrivals.
fn write_run(on: OnLine, speeds: &mut [u32], times: &mut [u64])
    requires points_in_bounds { (on.line.points ≤ length speeds.old) × (on.line.points ≤ length times.old) }
    requires by_index { (k : ℕ) → k < on.line.points → entry speeds.old k ≡ forward (as_line on.line) (as_train on.train) k }
    ensures { (speeds.new ≡ written speeds.old 0 (run_row (as_line on.line) (as_train on.train)))
        × (times.new ≡ written times.old 0 (run_times (as_line on.line) (as_train on.train))) }
{
    let loss = narrow(values::braking_loss(on.line, on.train));
    write_backward(usize::from(on.line.points), loss, speeds);
    write_times(on, speeds, times);
}

// The run of a decoded train on a decoded line: the file's rules from 3 on and 11, whatever the two hold. A refusal leaves both buffers as they came.
// Speeds and times stand one by one, here and in the calls above, as the C interface lends them.
pub fn run_train(
    line: Line,
    train: Train,
    speeds: &mut [u32],
    times: &mut [u64],
) -> Result<(), Refusal>
    ensures refusal { refused_by result ≡ run_refusal_on (as_line line) (as_train train) (length speeds.old) (length times.old) }
    ensures speeds { speeds.new ≡ speeds_on (as_line line) (as_train train) speeds.old times.old }
    ensures times { times.new ≡ times_on (as_line line) (as_train train) speeds.old times.old }
    ensures fastest { refused_by result ≡ 0 →
        FastestRun (as_line line) (as_train train) (take line.points speeds.new) (take line.points times.new) }
{
    if speeds.len().min(times.len()) < usize::from(line.points) {
        judging::check_on(line, train)?;
        return Err(Refusal::TooLittleRoom);
    }
    // The point behind the last: the sweep takes in the whole line.
    forward::sweep_to(line, train, line.points, speeds)?;
    write_run(OnLine { line, train }, speeds, times);
    Ok(())
}

// The run call: the file's rules, 10 and 11 for train k of a file. Of an accepted call the first P entries of `speeds` are the run, those of `times` its
// arrivals; no permitted rival reaches a point before. A refusal leaves both buffers as they came.
pub fn run(file: &[u8], k: u64, speeds: &mut [u32], times: &mut [u64]) -> Result<(), Refusal>
    ensures refusal { refused_by result ≡ run_refusal file.now k (length speeds.old) (length times.old) }
    ensures speeds { speeds.new ≡ speeds_after file.now k speeds.old times.old }
    ensures times { times.new ≡ times_after file.now k speeds.old times.old }
    ensures fastest { refused_by result ≡ 0 →
        FastestRun (line_of file.now) (train_of file.now k) (take (point_count file.now) speeds.new)
        (take (point_count file.now) times.new) }
{
    let opened = line::open_train(file, k)?;
    run_train(opened.line, opened.train, speeds, times)
}
