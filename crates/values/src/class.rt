// The class of a train, and the practice braking rate that it has by a fixed table.
ghost use Rattle.std.specs.Prelude.{◌≡◌};
ghost use Rattle.rules.specs.Line.{practice_rate};

// A train's class, by the file's number: document 01 names the form, a constant for each class, a constructor from the number and a table.
#[derive(Clone, Copy)]
pub struct TrainClass(pub u16);

// In cm/s², by class.
const PRACTICE_RATES: [u16; 3] = [50, 60, 31];

impl TrainClass {
    pub const INTERCITY: TrainClass = TrainClass(0);

    pub const STOPPING: TrainClass = TrainClass(1);

    pub const GOODS: TrainClass = TrainClass(2);

    // Any number of a file is taken; rule 3 refuses those that are no class.
    pub fn from_number(number: u16) -> TrainClass
        ensures { result.0 ≡ number }
    {
        match number {
            0 => TrainClass::INTERCITY,
            1 => TrainClass::STOPPING,
            2 => TrainClass::GOODS,
            _ => TrainClass(number),
        }
    }

    // 0 where the number is no class.
    pub fn practice_rate(self) -> u16
        ensures { result ≡ practice_rate self.0 }
    {
        PRACTICE_RATES
            .get(usize::from(self.0))
            .copied()
            .unwrap_or(0)
    }
}
