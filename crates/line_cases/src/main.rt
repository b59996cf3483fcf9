// Reads files and train numbers from standard input, and prints what the calls answer. The input is packed by tests/line_cases.py: how
// many train numbers are asked (8 bytes, low byte first), the file's length (8 bytes), the file, then the train numbers (8 bytes each).
#![tactic(auto)]

use cases::{answer_questions, read_number};
use refusals::number_of;
use std::io;

// The first place of the file where the part stands, or the file's length.
fn place_of(file: &[u8], part: &[u8]) -> usize {
    (0..file.len())
        .find(|at| file[*at..].starts_with(part))
        .unwrap_or(file.len())
}

fn answer(rt: &impl Print, file: &[u8], k: u64) -> io::Result<()> {
    let part = line::train_record(file, k);
    println!(rt;
        "{} {} {} {}",
        number_of(line::check_file(file)),
        number_of(line::check_train(file, k)),
        place_of(file, part),
        part.len()
    )
}

fn main(rt: HostRuntime) -> io::Result<()> {
    answer_questions(&mut rt.stdin(), |input, file| {
        let k = read_number(input)?;
        answer(&rt, file, k)
    })
}
