// The headway of two trains.
ghost use Rattle.std.specs.Prelude.{◌≡◌};
ghost use Rattle.rules.specs.Calls.{headway};
ghost use Rattle.holds.specs.Values.{as_hold};
ghost use Rattle.sheet.specs.Values.{as_headway_answer};
ghost use Rattle.sheet_answers.specs.Answers.{headway_by_number};

use holds::HoldRecord;
use refusals::Refusal;

// The headway, 0 on a refusal.
#[repr(C)]
#[derive(Clone, Copy)]
pub struct HeadwayAnswer {
    pub number: u64,
    pub headway: u64,
}

impl From<Result<u64, Refusal>> for HeadwayAnswer {
    ghost from_gives = { λ answer it. it ≡ headway_by_number (as_headway_answer answer) };

    fn from(answer: Result<u64, Refusal>) -> HeadwayAnswer {
        match answer {
            Ok(headway) => HeadwayAnswer { number: 0, headway },
            Err(refusal) => HeadwayAnswer {
                number: refusal.number(),
                headway: 0,
            },
        }
    }
}

pub fn headway_by_number(first: HoldRecord, second: HoldRecord) -> HeadwayAnswer
    ensures { result ≡ headway_by_number (headway (as_hold first) (as_hold second)) }
{
    HeadwayAnswer::from(sheet::headway(first, second))
}
