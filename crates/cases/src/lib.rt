// What the programs that answer cases share: reading numbers and files from their input, and telling in few numbers what a buffer holds. The
// sheet program reads its input by `read_full` too.
#![tactic(auto)]

mod answers;
mod files;
mod input;
mod sums;

pub use answers::numbered;
pub use files::{answer_files, answer_questions};
pub use input::{read_file, read_full, read_number, read_numbers};
pub use sums::{summed, written};
