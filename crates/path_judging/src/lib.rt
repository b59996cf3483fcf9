// Rules 12, 14 and 16, of a new hold record, placed rows and a window of starts, all with any contents.
#![tactic(auto)]

mod rows;

ghost use Rattle.std.specs.Prelude.{◌≡◌};
ghost use Rattle.rules.specs.Refusal.{refusal};
ghost use Rattle.rules.specs.Path.{window_rule, new_hold_rules, placing_rules};
ghost use Rattle.holds.specs.Values.{as_hold};
ghost use Rattle.path_judging.specs.Rows.{as_rows};
ghost use Rattle.refusals.specs.Number.{refused_by};

use holds::{HoldRecord, Sheet};
use refusals::Refusal;
use rows::rows_kept;
pub use rows::{PlacedRows, row_of};
use sheet_judging::check_adding;

// 2^50 microseconds.
pub(crate) const LATEST_START: u64 = 1125899906842624;

// Rules 12 and 14 of the new hold record: those of adding it to a sheet without trains.
fn check_new_hold(hold: &HoldRecord) -> Result<(), Refusal>
    ensures { refused_by result ≡ refusal (new_hold_rules (as_hold hold.now)) }
{
    let empty = Sheet {
        blocks: hold.blocks,
        trains: 0,
        free: [0; 32],
        first: [0; 32],
    };
    check_adding(&empty, hold)
}

// The window's part of rule 16.
fn window_kept(low: u64, high: u64) -> bool
    ensures { result ≡ window_rule low high }
{
    low <= high && high <= LATEST_START
}

// The first broken rule of 12, 14 and 16.
pub fn check_placing(
    hold: &HoldRecord,
    rows: PlacedRows,
    low: u64,
    high: u64,
) -> Result<(), Refusal>
    ensures { refused_by result ≡ refusal (placing_rules (as_hold hold.now) (as_rows rows.entry) low high) }
{
    check_new_hold(hold)?;
    Refusal::Placing.unless(window_kept(low, high) && rows_kept(hold.blocks as usize, rows))
}
