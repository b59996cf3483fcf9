// The sheet program: reads a line file from standard input, and prints its sheet or its refusal. One byte more than 16,384 is read, so
// that a longer input is known.
#![tactic(auto)]

use cases::read_full;
use std::io;

fn main(rt: HostRuntime) -> io::Result<()> {
    let mut input = [0; 16385];
    let n = read_full(&mut rt.stdin(), &mut input)?;
    let printed = study_text::program_text(&input[..n]);
    let text = printed.text;
    let bytes = printed.bytes;
    rt.write_all(&text[..bytes])
}
