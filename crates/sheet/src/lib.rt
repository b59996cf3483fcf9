// The sheet of starts: opening a sheet, adding a hold record to it, the headway of two trains, and the period of a sheet.
#![tactic(auto)]

mod after;
mod first;
mod pattern;

ghost use Rattle.std.specs.Prelude.{◌≡◌, IfOk};
ghost use Rattle.rules.specs.Calls as rules;
ghost use Rattle.rules.specs.Sheet as sheets;
ghost use Rattle.rules.specs.Demand.{ThirdDemand};
ghost use Rattle.rules.specs.Period.{period_answer, HourPattern};
ghost use Rattle.holds.specs.Values.{as_hold, as_sheet};
ghost use Rattle.sheet.specs.Values.{answered, as_addition, as_opening, as_headway_answer, as_period_answer};

use after::release;
use first::keep_first;
use holds::{HoldRecord, Sheet};
use pattern::percentage;
use refusals::Refusal;
use sheet_judging::{check_adding, count_kept, sheet_kept};
use waits::{block_named, longest_wait};

// The least start and the block named.
#[derive(Clone, Copy)]
pub struct Added {
    pub start: u64,
    pub block: u64,
}

// The answer, and the sheet as the call leaves it.
#[derive(Clone, Copy)]
pub struct Addition {
    pub answer: Result<Added, Refusal>,
    pub sheet: Sheet,
}

// The period and its percentage of an hour.
#[derive(Clone, Copy)]
pub struct SheetPeriod {
    pub period: u64,
    pub percent: u64,
}

// Opens a sheet. Every list of adding calls from it meets the third demand.
pub fn open_sheet(blocks: u64) -> Result<Sheet, Refusal>
    ensures sheet { as_opening result ≡ rules.opened blocks }
    ensures demand { IfOk result (λ sheet. ThirdDemand blocks (as_sheet sheet)) }
{
    Refusal::Sheet.unless(count_kept(blocks))?;
    Ok(fresh(blocks))
}

fn fresh(blocks: u64) -> Sheet
    ensures { as_sheet result ≡ sheets.fresh blocks }
{
    Sheet {
        blocks,
        trains: 0,
        free: [0; 32],
        first: [0; 32],
    }
}

// Adds a train where the sheet lies. A refusal leaves the sheet as it was.
fn place_train(sheet: &mut Sheet, hold: &HoldRecord) -> Result<Added, Refusal>
    ensures { answered result sheet.new ≡ rules.added (as_sheet sheet.old) (as_hold hold.now) }
{
    check_adding(sheet, hold)?;
    let blocks = sheet.blocks as usize;
    let begins = &hold.begins[..blocks];
    let start = longest_wait(&sheet.free[..blocks], begins);
    let block = block_named(&sheet.free[..blocks], begins, start);
    keep_first(sheet.trains, &mut sheet.first[..blocks], begins);
    sheet.trains += 1;
    release(&mut sheet.free[..blocks], &hold.ends[..blocks], start);
    Ok(Added { start, block })
}

// Adds a train to a sheet with any contents. A refusal leaves the sheet as it was.
pub fn with_hold(mut sheet: Sheet, hold: HoldRecord) -> Addition
    ensures { as_addition result ≡ rules.added (as_sheet sheet) (as_hold hold) }
{
    let answer = place_train(&mut sheet, &hold);
    Addition { answer, sheet }
}

// The sheet is lent, and altered there, by a thin function above the addition by value: document 01 names the form.
pub fn add(sheet: &mut Sheet, hold: HoldRecord) -> Result<Added, Refusal>
    ensures { answered result sheet.new ≡ rules.added (as_sheet sheet.old) (as_hold hold) }
{
    let done = with_hold(*sheet, hold);
    *sheet = done.sheet;
    done.answer
}

// The second train's start on a sheet of these two. Each addition's answer is taken apart by `let .. else`: document 01 names the form.
pub fn headway(first: HoldRecord, second: HoldRecord) -> Result<u64, Refusal>
    ensures { as_headway_answer result ≡ rules.headway (as_hold first) (as_hold second) }
{
    let sheet = open_sheet(first.blocks)?;
    let one = with_hold(sheet, first);
    let earlier = one.answer;
    let Ok(_) = earlier else {
        return earlier.map(|added| added.start);
    };
    let two = with_hold(one.sheet, second);
    let later = two.answer;
    let Ok(added) = later else {
        return later.map(|added| added.start);
    };
    Ok(added.start)
}

// The shortest period with which a sheet is repeated, on a sheet with any contents: rule 12.
pub fn period(sheet: Sheet) -> Result<SheetPeriod, Refusal>
    ensures answer { as_period_answer result ≡ period_answer (as_sheet sheet) }
    ensures pattern { HourPattern (as_sheet sheet) (as_period_answer result) }
{
    Refusal::Sheet.unless(sheet_kept(&sheet))?;
    // A sheet without trains has the free time 0 in every block, and so the period 0.
    let blocks = sheet.blocks as usize;
    let period = longest_wait(&sheet.free[..blocks], &sheet.first[..blocks]);
    Ok(SheetPeriod {
        period,
        percent: percentage(period),
    })
}
