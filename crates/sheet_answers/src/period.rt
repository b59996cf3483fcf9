// The period of a sheet.
ghost use Rattle.std.specs.Prelude.{◌≡◌};
ghost use Rattle.rules.specs.Period.{period_answer, HourPattern};
ghost use Rattle.holds.specs.Values.{as_sheet};
ghost use Rattle.sheet.specs.Values as values;
ghost use Rattle.sheet_answers.specs.Answers.{as_period_answer};

use holds::Sheet;
use refusals::Refusal;
use sheet::SheetPeriod;

// The period and its percentage of an hour, 0 and 0 on a refusal.
#[repr(C)]
#[derive(Clone, Copy)]
pub struct PeriodAnswer {
    pub number: u64,
    pub period: u64,
    pub percent: u64,
}

impl From<Result<SheetPeriod, Refusal>> for PeriodAnswer {
    ghost from_gives = { λ answer it. as_period_answer it ≡ values.as_period_answer answer };

    fn from(answer: Result<SheetPeriod, Refusal>) -> PeriodAnswer {
        match answer {
            Ok(told) => PeriodAnswer {
                number: 0,
                period: told.period,
                percent: told.percent,
            },
            Err(refusal) => PeriodAnswer {
                number: refusal.number(),
                period: 0,
                percent: 0,
            },
        }
    }
}

pub fn period_by_number(sheet: Sheet) -> PeriodAnswer
    ensures answer { as_period_answer result ≡ period_answer (as_sheet sheet) }
    ensures pattern { HourPattern (as_sheet sheet) (as_period_answer result) }
{
    PeriodAnswer::from(sheet::period(sheet))
}
