// Rules 12 to 14, of a sheet and a hold record with any contents: tests that pass where a rule is kept, and the first refusal.
#![tactic(auto)]

ghost use Rattle.std.specs.Prelude.{◌≡◌, ◌≤◌, min, leb, ltb, length};
ghost use Rattle.rules.specs.Count.{entry, every};
ghost use Rattle.rules.specs.Refusal.{refusal, count_rule, sheet_rule, hold_rule, adding_rules};
ghost use Rattle.holds.specs.Values.{as_sheet, as_hold};
ghost use Rattle.refusals.specs.Number.{refused_by};
ghost use Rattle.sheet_judging.specs.Times.{times_kept};

use holds::{HoldRecord, Sheet};
use refusals::Refusal;

const MOST_BLOCKS: u64 = 32;

const MOST_TRAINS: u64 = 64;

// 2^44 microseconds.
pub const LATEST_END: u64 = 17592186044416;

// Each time is at most the bound.
pub fn all_at_most(times: &[u64], bound: u64) -> bool
    ensures { result ≡ every (length times.now) (λ b. leb (entry times.now b) bound) }
{
    times.iter().all(|time| *time <= bound)
}

// Each beginning is below the end beside it.
fn all_ordered(begins: &[u64], ends: &[u64]) -> bool
    ensures { result
        ≡ every (min (length begins.now) (length ends.now)) (λ b. ltb (entry begins.now b) (entry ends.now b)) }
{
    begins.iter().zip(ends).all(|(begin, end)| begin < end)
}

// Rule 14 of the times of holds: each beginning is below the end beside it, and no end is too late.
pub fn times_kept(begins: &[u64], ends: &[u64]) -> bool
    ensures { result ≡ times_kept begins.now ends.now }
{
    // By numbers: a zip asks at each step whether either slice has ended, and a path takes more instructions.
    for i in 0..begins.len().min(ends.len()) {
        if ends[i] <= begins[i] {
            return false;
        }
        if LATEST_END < ends[i] {
            return false;
        }
    }
    true
}

// Rule 12 of a block count.
pub fn count_kept(blocks: u64) -> bool
    ensures { result ≡ count_rule blocks }
{
    1 <= blocks && blocks <= MOST_BLOCKS
}

// Rule 12 of a sheet. The first train's beginnings are judged on a sheet with trains alone.
pub fn sheet_kept(sheet: &Sheet) -> bool
    ensures { result ≡ sheet_rule (as_sheet sheet.now) }
{
    if !count_kept(sheet.blocks) || sheet.trains > MOST_TRAINS {
        return false;
    }
    let n = sheet.blocks as usize;
    all_at_most(&sheet.free[..n], sheet.trains * LATEST_END)
        && (sheet.trains == 0 || all_ordered(&sheet.first[..n], &sheet.free[..n]))
}

// Rule 14 of a hold record, by the sheet's block count.
fn hold_kept(blocks: u64, hold: &HoldRecord) -> bool
    requires { blocks ≤ 32 }
    ensures { result ≡ hold_rule blocks (as_hold hold.now) }
{
    if hold.blocks != blocks {
        return false;
    }
    let n = blocks as usize;
    all_ordered(&hold.begins[..n], &hold.ends[..n]) && all_at_most(&hold.ends[..n], LATEST_END)
}

// The first broken rule of 12 to 14, for a sheet and a hold record.
pub fn check_adding(sheet: &Sheet, hold: &HoldRecord) -> Result<(), Refusal>
    ensures { refused_by result ≡ refusal (adding_rules (as_sheet sheet.now) (as_hold hold.now)) }
{
    Refusal::Sheet.unless(sheet_kept(sheet))?;
    Refusal::SheetFull.unless(sheet.trains != MOST_TRAINS)?;
    Refusal::Hold.unless(hold_kept(sheet.blocks, hold))
}
