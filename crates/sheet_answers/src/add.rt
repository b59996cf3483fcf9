// The adding call on a lent sheet.
ghost use Rattle.std.specs.Prelude.{◌≡◌};
ghost use Rattle.rules.specs.Calls.{added};
ghost use Rattle.holds.specs.Values.{as_hold, as_sheet};
ghost use Rattle.sheet.specs.Values.{as_answer};
ghost use Rattle.sheet_answers.specs.Answers.{added_by_number};

use holds::{HoldRecord, Sheet};
use refusals::Refusal;
use sheet::Added;

// The least start and the block named, 0 and 0 on a refusal.
#[repr(C)]
#[derive(Clone, Copy)]
pub struct AddAnswer {
    pub number: u64,
    pub start: u64,
    pub block: u64,
}

impl From<Result<Added, Refusal>> for AddAnswer {
    ghost from_gives = { λ answer it. it ≡ added_by_number (as_answer answer) };

    fn from(answer: Result<Added, Refusal>) -> AddAnswer {
        match answer {
            Ok(added) => AddAnswer {
                number: 0,
                start: added.start,
                block: added.block,
            },
            Err(refusal) => AddAnswer {
                number: refusal.number(),
                start: 0,
                block: 0,
            },
        }
    }
}

// The sheet is altered where it lies. A refusal leaves it as it was.
pub fn add_by_number(sheet: &mut Sheet, hold: HoldRecord) -> AddAnswer
    ensures answer { result ≡ added_by_number (added (as_sheet sheet.old) (as_hold hold)).answer }
    ensures sheet { as_sheet sheet.new ≡ (added (as_sheet sheet.old) (as_hold hold)).sheet }
{
    AddAnswer::from(sheet::add(sheet, hold))
}
