// The hold of a train: for each block when its hold begins and ends.
#![tactic(auto)]

mod approach;

ghost use Rattle.std.specs.Prelude.{◌≡◌, ℕ, ◌+◌, ◌*◌, ◌<◌, ◌≤◌, length};
ghost use Rattle.rules.specs.Calls.{held, speeds_after, times_after};
ghost use Rattle.rules.specs.Count.{entry};
ghost use Rattle.rules.specs.Hold.{hold_of};
ghost use Rattle.rules.specs.Run.{run_row};
ghost use Rattle.rules.specs.Time.{run_times};
ghost use Rattle.values.specs.Values.{as_line, as_train};
ghost use Rattle.run.specs.Calls.{speeds_on, times_on};
ghost use Rattle.holds.specs.Values.{as_hold};
ghost use Rattle.hold.specs.Calls.{as_hold_answer, held_on};

use approach::approach_point;
use holds::HoldRecord;
use judging::OnLine;
use refusals::Refusal;
use stops::{dwell_at, first_stop, stop_ahead};
use values::{Line, Train};

// What a hold adds to the arrival that clears its block, in microseconds: release, set-up and 5 seconds of communication.
fn clearing_time(line: Line) -> u64
    ensures { (result ≡ 100000 * line.release + 100000 * line.set_up + 5000000) × (result < 13112000001) }
{
    100000 * (u64::from(line.release) + u64::from(line.set_up)) + 5000000
}

// The hold record of the run that the buffers hold.
fn hold_record(on: OnLine, speeds: &[u32], times: &[u64]) -> HoldRecord
    requires points_in_bounds { (on.line.points ≤ length speeds.now) × (on.line.points ≤ length times.now) }
    requires by_index { (k : ℕ) → k < on.line.points → entry speeds.now k ≡ entry (run_row (as_line on.line) (as_train on.train)) k }
    requires by_index_2 { (k : ℕ) → k < on.line.points → entry times.now k ≡ entry (run_times (as_line on.line) (as_train on.train)) k }
    ensures { as_hold result ≡ hold_of (as_line on.line) (as_train on.train) }
{
    let loss = values::braking_loss(on.line, on.train);
    let cells = values::train_cells(on.line, on.train);
    let clearing = clearing_time(on.line);
    // Copied before they are lent or indexed: to lend a field of the line or the train has the compiler copy most of it.
    let starts = on.line.block_starts;
    let ends = on.line.block_ends;
    let stops = on.train.stops;
    let dwells = on.train.dwells;
    let stops = &stops[..on.train.stop_count];
    let dwells = &dwells[..on.train.stop_count];
    let mut hold = HoldRecord::NONE;
    hold.blocks = on.line.block_count as u64;
    let mut point = 0;
    let mut stop = first_stop(stops);
    // By number: four arrays have an entry for each block, and a zip of all four is no plainer.
    for j in 0..on.line.block_count {
        point = approach_point(speeds, loss, point, usize::from(starts[j]));
        stop = stop_ahead(stops, stop, point);
        let dwell = dwell_at(dwells, stop, point);
        hold.begins[j] = times[point] + dwell;
        hold.ends[j] = times[usize::from(ends[j]) + cells] + clearing;
    }
    hold
}

// The hold of a decoded train on a decoded line: the file's rules from 3 on and 11, whatever the two hold. The buffers end as after `run::run_train`.
pub fn hold_train(
    line: Line,
    train: Train,
    speeds: &mut [u32],
    times: &mut [u64],
) -> Result<HoldRecord, Refusal>
    ensures answer { as_hold_answer result ≡ held_on (as_line line) (as_train train) (length speeds.old) (length times.old) }
    ensures speeds { speeds.new ≡ speeds_on (as_line line) (as_train train) speeds.old times.old }
    ensures times { times.new ≡ times_on (as_line line) (as_train train) speeds.old times.old }
{
    run::run_train(line, train, speeds, times)?;
    Ok(hold_record(OnLine { line, train }, speeds, times))
}

// The hold call: the file's rules, 10 and 11 for train k of a file. The buffers end as after the run call.
pub fn hold(
    file: &[u8],
    k: u64,
    speeds: &mut [u32],
    times: &mut [u64],
) -> Result<HoldRecord, Refusal>
    ensures answer { as_hold_answer result ≡ held file.now k (length speeds.old) (length times.old) }
    ensures speeds { speeds.new ≡ speeds_after file.now k speeds.old times.old }
    ensures times { times.new ≡ times_after file.now k speeds.old times.old }
{
    let opened = line::open_train(file, k)?;
    hold_train(opened.line, opened.train, speeds, times)
}
