// The refusals of the calls, one for each numbered rule that can be broken.
#![tactic(auto)]

ghost use Rattle.std.specs.Prelude.{◌≡◌};
ghost use Rattle.refusals.specs.Number.{number, refused_by, kept_or};

// In the order of their numbers.
#[derive(Clone, Copy, Debug, PartialEq, Eq)]
pub enum Refusal {
    // The file ends too early, or goes on behind its last train.
    FileTooShort,
    FileTooLong,
    // Of a line and its trains.
    Sizes,
    LimitPoints,
    Limits,
    Blocks,
    Bands,
    Stops,
    LastBlock,
    // Of what is asked.
    NoSuchTrain,
    TooLittleRoom,
    // Of a sheet and a hold record.
    Sheet,
    SheetFull,
    Hold,
    // Of a line again.
    Balises,
    // Of placed rows and a window.
    Placing,
    NoPath,
}

impl Refusal {
    // The number of the broken rule.
    pub fn number(self) -> u64
        ensures { result ≡ number self }
    {
        match self {
            Refusal::FileTooShort => 1,
            Refusal::FileTooLong => 2,
            Refusal::Sizes => 3,
            Refusal::LimitPoints => 4,
            Refusal::Limits => 5,
            Refusal::Blocks => 6,
            Refusal::Bands => 7,
            Refusal::Stops => 8,
            Refusal::LastBlock => 9,
            Refusal::NoSuchTrain => 10,
            Refusal::TooLittleRoom => 11,
            Refusal::Sheet => 12,
            Refusal::SheetFull => 13,
            Refusal::Hold => 14,
            Refusal::Balises => 15,
            Refusal::Placing => 16,
            Refusal::NoPath => 17,
        }
    }

    // Refuses where a rule is not kept.
    pub fn unless(self, kept: bool) -> Result<(), Refusal>
        ensures { result ≡ kept_or self kept }
    {
        if kept { Ok(()) } else { Err(self) }
    }
}

// The number of refusal, or 0 where a call is accepted.
pub fn number_of(answer: Result<(), Refusal>) -> u64
    ensures { result ≡ refused_by answer }
{
    match answer {
        Ok(()) => 0,
        Err(refusal) => refusal.number(),
    }
}
