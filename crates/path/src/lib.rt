// A path for one more train among those already placed.
#![tactic(auto)]

mod search;

ghost use Rattle.std.specs.Prelude.{◌≡◌};
ghost use Rattle.rules.specs.Path.{path_answer, RightPath};
ghost use Rattle.holds.specs.Values.{as_hold};
ghost use Rattle.path_judging.specs.Rows.{as_rows};
ghost use Rattle.path.specs.Values.{as_path_answer};

use holds::HoldRecord;
use path_judging::{PlacedRows, check_placing};
use refusals::Refusal;
pub use search::Path;
use search::first_place;

// The least start from `low` to `high` that has a place among the placed rows, of which each has an entry of `starts` and, in `begins` and `ends`, as
// many entries as the hold record has blocks: rules 12, 14, 16 and 17, whatever the slices hold.
// The window's ends are two numbers: a struct for the two would be longer.
pub fn path(hold: &HoldRecord, rows: PlacedRows, low: u64, high: u64) -> Result<Path, Refusal>
    ensures answer { as_path_answer result ≡ path_answer (as_hold hold.now) (as_rows rows.entry) low high }
    ensures path { RightPath (as_hold hold.now) (as_rows rows.entry) low high (as_path_answer result) }
{
    check_placing(hold, rows, low, high)?;
    let found = first_place(hold, rows, low);
    Refusal::NoPath.unless(found.start <= high)?;
    Ok(found)
}
