// The answers of the sheet's calls in numbers alone, as the calls for C give them. Number 0 means accepted.
#![tactic(auto)]

mod add;
mod headway;
mod open;
mod period;

pub use add::{AddAnswer, add_by_number};
pub use headway::{HeadwayAnswer, headway_by_number};
pub use open::open_by_number;
pub use period::{PeriodAnswer, period_by_number};
