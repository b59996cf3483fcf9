// Reads files and questions from standard input, and prints what the forward sweep up to a point answers and what it leaves in the buffer lent
// to it. The input is packed by tests/forward_cases.py: how many questions follow the file (8 bytes, low byte first), the file's length
// (8 bytes), the file, which has one train, then the questions: the point and the length of the buffer (8 bytes each).
#![tactic(auto)]

use cases::{answer_questions, read_number};
use refusals::{Refusal, number_of};
use std::io;

// What the buffer holds before a call: greater than any squared speed.
const NO_SPEED: u32 = 4294967295;

const MOST_SPEEDS: usize = 4104;

// Sweeps the train of a file that is not judged before. Where the file ends before the train's record, this is read as zeros.
fn sweep(file: &[u8], point: u16, speeds: &mut [u32]) -> Result<(), Refusal> {
    let decoded = reading::decode_file(file);
    let line = decoded.line;
    let at = decoded.at.min(file.len());
    let train = reading::decode_train(&file[at..]);
    forward::sweep_to(line, train, point, speeds)
}

// Prints the answer, and the entries up to the one behind the point.
fn print_sweep(rt: &impl Print, file: &[u8], point: u16, speeds: &mut [u32]) -> io::Result<()> {
    let number = number_of(sweep(file, point, speeds));
    print!(rt; "forward {number}")?;
    for speed in speeds.iter().take(usize::from(point) + 2) {
        print!(rt; " {speed}")?;
    }
    println!(rt)
}

// Lends the first entries of a buffer, as many as asked.
fn answer(rt: &impl Print, file: &[u8], point: u64, length: u64) -> io::Result<()> {
    let mut space = [NO_SPEED; MOST_SPEEDS];
    match (u16::try_from(point), space.get_mut(..length as usize)) {
        (Ok(point), Some(speeds)) => print_sweep(rt, file, point, speeds),
        _ => Ok(()),
    }
}

fn main(rt: HostRuntime) -> io::Result<()> {
    answer_questions(&mut rt.stdin(), |input, file| {
        let point = read_number(input)?;
        let length = read_number(input)?;
        answer(&rt, file, point, length)
    })
}
