// The opening call on a lent sheet.
ghost use Rattle.std.specs.Prelude.{◌≡◌, OnOk};
ghost use Rattle.rules.specs.Calls.{opened};
ghost use Rattle.rules.specs.Demand.{ThirdDemand};
ghost use Rattle.holds.specs.Values.{as_sheet};
ghost use Rattle.refusals.specs.Number.{refused_by};
ghost use Rattle.sheet_answers.specs.Answers.{opened_into};

use holds::Sheet;
use refusals::{Refusal, number_of};

// The lent sheet becomes a fresh one. A refusal leaves it as it was.
fn open_into(blocks: u64, sheet: &mut Sheet) -> Result<(), Refusal>
    ensures refusal { refused_by result ≡ (opened blocks).number }
    ensures sheet { as_sheet sheet.new ≡ opened_into blocks (as_sheet sheet.old) }
    ensures demand { OnOk result (ThirdDemand blocks (as_sheet sheet.new)) }
{
    *sheet = sheet::open_sheet(blocks)?;
    Ok(())
}

// What the opening call answers.
pub fn open_by_number(blocks: u64, sheet: &mut Sheet) -> u64
    ensures number { result ≡ (opened blocks).number }
    ensures sheet { as_sheet sheet.new ≡ opened_into blocks (as_sheet sheet.old) }
    ensures demand { result ≡ 0 → ThirdDemand blocks (as_sheet sheet.new) }
{
    number_of(open_into(blocks, sheet))
}
