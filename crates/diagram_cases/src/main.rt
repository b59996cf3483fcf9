// Reads files from standard input, and prints what the diagram call answers and leaves. The input is packed by tests/diagram_cases.py: how
// many cases follow, and for each the file's length, the file, the train number and how many bytes are lent. Each number has 8 bytes, low
// byte first.
#![tactic(auto)]

use cases::{answer_files, numbered, read_number, summed};
use std::io;

// What the lent bytes hold before a call. No dot, the last byte of a point, has this value.
const NO_BYTE: u8 = 255;

const MOST_LENT: usize = 102500;

fn print_diagram(rt: &impl Print, file: &[u8], k: u64, bytes: &mut [u8]) -> io::Result<()> {
    let (number, count) = numbered(diagram::diagram(file, k, bytes), 0);
    println!(rt; "diagram {number} {count} {:016x}", summed(0, bytes))
}

// Lends the first bytes of a buffer, as many as asked.
fn answer(rt: &impl Print, file: &[u8], k: u64, lent: u64) -> io::Result<()> {
    let mut space = [NO_BYTE; MOST_LENT];
    match space.get_mut(..lent as usize) {
        Some(bytes) => print_diagram(rt, file, k, bytes),
        None => Ok(()),
    }
}

fn main(rt: HostRuntime) -> io::Result<()> {
    answer_files(&mut rt.stdin(), |input, file| {
        let k = read_number(input)?;
        let lent = read_number(input)?;
        answer(&rt, file, k, lent)
    })
}
