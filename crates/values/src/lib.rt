// The line and a train as values, what they give by themselves, and the quantities of a run.
#![tactic(auto)]

mod class;
mod decoded;
mod motion;
mod speed;

pub use class::TrainClass;
pub use decoded::{Line, Train};
pub use motion::{braking_loss, change_over, place_of, train_cells};
pub use speed::{Speed, SquaredSpeed};
