// Numbers of a line and of a train on it that the rules, the run and the holds go by, whatever the two hold.
ghost use Rattle.std.specs.Prelude.{◌≡◌, ◌+◌, ◌*◌, ◌<◌};
ghost use Rattle.rules.specs.Run.{change, braking_loss, train_cells};
ghost use Rattle.values.specs.Values.{as_line, as_train};

use crate::decoded::{Line, Train};

// The place, in m from point 0, of what lies so many metres past a point.
pub fn place_of(point: u16, metres: u16, step: u16) -> u32
    ensures { (result ≡ point * step + metres) × (result < 4294967295) }
{
    u32::from(point) * u32::from(step) + u32::from(metres)
}

// The squared speed gained or lost over a step in m at a rate in cm/s².
pub fn change_over(rate: u16, step: u16) -> u64
    ensures { result ≡ change rate step }
{
    u64::from(rate) * 2592 * u64::from(step)
}

// G, the squared speed lost over one step at the practice braking rate.
pub fn braking_loss(line: Line, train: Train) -> u64
    ensures { result ≡ braking_loss (as_line line) (as_train train) }
{
    change_over(train.class.practice_rate(), line.step)
}

// The train's length in steps, rounded up; 0 for a step of 0.
pub fn train_cells(line: Line, train: Train) -> usize
    ensures { result ≡ train_cells (as_line line) (as_train train) }
{
    let step = usize::from(line.step);
    if step == 0 {
        return 0;
    }
    usize::from(train.length).div_ceil(step)
}
