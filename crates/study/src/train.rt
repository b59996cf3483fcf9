// One train of a file: its hold record, its running time, and the start and block of an answer.
ghost use Rattle.std.specs.Prelude.{◌≡◌, ◌≤◌, length};
ghost use Rattle.rules.specs.Admitted.{Admitted};
ghost use Rattle.rules.specs.Hold.{hold_of};
ghost use Rattle.rules.specs.Line.{train_at};
ghost use Rattle.rules.specs.Text.{start_of, block_of};
ghost use Rattle.holds.specs.Values.{as_hold};
ghost use Rattle.values.specs.Values.{as_line};
ghost use Rattle.sheet.specs.Values.{as_answer};
ghost use Rattle.study.specs.Rows.{Decodes, last_arrival};

use holds::HoldRecord;
use reading::decode_train;
use refusals::Refusal;
use sheet::Added;
use values::Line;

// A train's hold record and its running time.
#[derive(Clone, Copy)]
pub(crate) struct Timed {
    pub hold: HoldRecord,
    pub run: u64,
}

// 0 of a refused addition, as in the rules.
pub(crate) fn start_of(answer: Result<Added, Refusal>) -> u64
    ensures { result ≡ start_of (as_answer answer) }
{
    answer.map_or(0, |added| added.start)
}

pub(crate) fn block_of(answer: Result<Added, Refusal>) -> u64
    ensures { result ≡ block_of (as_answer answer) }
{
    answer.map_or(0, |added| added.block)
}

// Runs and holds the train whose record the bytes begin with.
pub(crate) fn time_train(line: Line, bytes: &[u8], speeds: &mut [u32], times: &mut [u64]) -> Timed
    requires admitted { Admitted (as_line line) (train_at bytes.now 0) × Decodes bytes.now }
    requires points_in_bounds { (line.points ≤ length speeds.old) × (line.points ≤ length times.old) }
    ensures hold_value { (as_hold result.hold ≡ hold_of (as_line line) (train_at bytes.now 0))
        × (result.run ≡ last_arrival (as_line line) (train_at bytes.now 0)) }
    ensures speeds_len_unchanged { (length speeds.new ≡ length speeds.old) × (length times.new ≡ length times.old) }
{
    let hold = hold::hold_train(line, decode_train(bytes), speeds, times).unwrap();
    let last = usize::from(line.points) - 1;
    Timed {
        hold,
        run: times[last],
    }
}
