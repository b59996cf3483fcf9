// The places in the order of the placed rows, tried one after the other. A start that has a later place is greater, so the first place that has
// room gives the least start.
ghost use Rattle.std.specs.Prelude.{ℕ, ◌^◌, ◌≤◌, ◌<◌, length};
ghost use Rattle.rules.specs.Count.{entry};
ghost use Rattle.rules.specs.Path.{placed_holds, Rule16Rows};
ghost use Rattle.holds.specs.Values.{as_hold};
ghost use Rattle.path_judging.specs.Rows.{as_rows};
ghost use Rattle.path.specs.Values.{LeastBehind, LeastPlace};

use holds::HoldRecord;
use order::clear_of;
use path_judging::{PlacedRows, row_of};
use waits::later;

// A start, and how many trains are before its place.
#[derive(Clone, Copy)]
pub struct Path {
    pub start: u64,
    pub before: u64,
}

// The least start from `low` on that is behind the train ahead in every block.
fn least_behind(low: u64, ahead: u64, ends: &[u64], begins: &[u64]) -> u64
    requires fits { (ahead ≤ 2 ^ 50) × ((b : ℕ) → b < length ends.now → entry ends.now b ≤ 2 ^ 44) }
    requires beside { length ends.now ≤ length begins.now }
    ensures { LeastBehind (length ends.now) low ahead ends.now begins.now result }
{
    let mut start = low;
    for (end, begin) in ends.iter().zip(begins) {
        start = later(start, ahead + *end, *begin);
    }
    start
}

// The first place that has room, and the least start there.
pub(crate) fn first_place(hold: &HoldRecord, rows: PlacedRows, low: u64) -> Path
    requires { (hold.now.blocks ≤ 32) × Rule16Rows hold.now.blocks (as_rows rows) }
    ensures { LeastPlace (as_hold hold.now) (placed_holds hold.now.blocks (as_rows rows.entry))
        rows.entry.starts.now low result.start result.before }
{
    let n = hold.blocks as usize;
    let mut start = low;
    for (k, ahead) in rows.starts.iter().enumerate() {
        if clear_of(start, &hold.ends[..n], *ahead, row_of(n, k, rows.begins)) {
            return Path {
                start,
                before: k as u64,
            };
        }
        start = least_behind(low, *ahead, row_of(n, k, rows.ends), &hold.begins);
    }
    Path {
        start,
        before: rows.starts.len() as u64,
    }
}
