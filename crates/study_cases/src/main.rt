// Reads files from standard input, and prints what the study calls answer and leave. The input is packed by tests/study_cases.py: how many
// cases follow, and for each the file's length, the file, the call asked (0 `study`, 1 `program_text`) and how many bytes are lent to it.
// Each number has 8 bytes, low byte first.
#![tactic(auto)]

use cases::{answer_files, numbered, read_number, summed};
use std::io;

// What the lent bytes hold before a call: no byte of a text.
const NO_BYTE: u8 = 255;

const MOST_LENT: usize = 4104;

fn print_study(rt: &impl Print, file: &[u8], text: &mut [u8]) -> io::Result<()> {
    let (number, bytes) = numbered(study_text::study(file, text), 0);
    println!(rt; "study {number} {bytes} {:016x}", summed(0, text))
}

fn print_program(rt: &impl Print, file: &[u8]) -> io::Result<()> {
    let printed = study_text::program_text(file);
    let text = printed.text;
    let bytes = printed.bytes;
    println!(rt; "program {bytes} {:016x}", summed(0, &text[..bytes]))
}

// Lends the first bytes of a buffer, as many as asked.
fn lend_to_study(rt: &impl Print, file: &[u8], lent: u64) -> io::Result<()> {
    let mut space = [NO_BYTE; MOST_LENT];
    match space.get_mut(..lent as usize) {
        Some(text) => print_study(rt, file, text),
        None => Ok(()),
    }
}

fn main(rt: HostRuntime) -> io::Result<()> {
    answer_files(&mut rt.stdin(), |input, file| {
        let call = read_number(input)?;
        let lent = read_number(input)?;
        // The input's own number, compared once: an enum for it would be longer.
        match call {
            1 => print_program(&rt, file),
            _ => lend_to_study(&rt, file, lent),
        }
    })
}
