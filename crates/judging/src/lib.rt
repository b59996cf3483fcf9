// Rules 3 to 9 and 15 of a decoded line and train, whatever they hold.
#![tactic(auto)]

mod line_rules;
mod numbers;
mod on_line;
mod train_rules;

pub use line_rules::{check_line, line_sizes};
pub use on_line::{OnLine, admit, check_on};
pub use train_rules::{TrainKept, train_kept, train_sizes};
