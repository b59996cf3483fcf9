// The rows' part of rule 16, of slices with any contents.
ghost use Rattle.std.specs.Prelude.{◌≡◌, ◌*◌, ◌≤◌};
ghost use Rattle.rules.specs.Path.{rows_rule};
ghost use Rattle.path_judging.specs.Rows.{as_rows, row_of, each_clear};

use crate::LATEST_START;
use order::clear_of;
use sheet_judging::{all_at_most, times_kept};

const MOST_ROWS: usize = 64;

// Trains already sold, in running order: their starts, and train by train the beginnings and ends of their holds.
#[derive(Clone, Copy)]
pub struct PlacedRows<'a> {
    pub starts: &'a [u64],
    pub begins: &'a [u64],
    pub ends: &'a [u64],
}

// The n entries of row k, as far as they are there.
pub fn row_of(n: usize, k: usize, entries: &[u64]) -> &[u64]
    ensures { result.now ≡ row_of n k entries.now }
{
    let behind = &entries[k.saturating_mul(n).min(entries.len())..];
    &behind[..n.min(behind.len())]
}

// Each row is clear of the next. By numbers: of a chain over them, whose test reads two rows, the result was not proved.
fn each_clear(n: usize, rows: PlacedRows) -> bool
    ensures { result ≡ each_clear n (as_rows rows.entry) }
{
    for k in 1..rows.starts.len() {
        if !clear_of(
            rows.starts[k - 1],
            row_of(n, k - 1, rows.ends),
            rows.starts[k],
            row_of(n, k, rows.begins),
        ) {
            return false;
        }
    }
    true
}

// The lengths are judged before a row is read.
pub(crate) fn rows_kept(n: usize, rows: PlacedRows) -> bool
    requires { n ≤ 32 }
    ensures { result ≡ rows_rule n (as_rows rows.entry) }
{
    if MOST_ROWS < rows.starts.len() {
        return false;
    }
    let entries = rows.starts.len() * n;
    if rows.begins.len() != entries || rows.ends.len() != entries {
        return false;
    }
    all_at_most(rows.starts, LATEST_START)
        && times_kept(rows.begins, rows.ends)
        && each_clear(n, rows)
}
