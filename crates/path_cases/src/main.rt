// Reads questions for a path from standard input, and prints what the path call answers. The input is numbers of 8 bytes, low byte first
// (tests/path_cases.py): each question is 1, the hold record, the window, how many entries each of the three slices has, and these.
#![tactic(auto)]

ghost use Rattle.std.specs.Prelude.{◌≤◌, IfOk};

use cases::{numbered, read_number, read_numbers};
use holds::HoldRecord;
use path::Path;
use path_judging::PlacedRows;
use std::io;
use std::io::Read;

const MOST_QUESTIONS: u64 = 100000;

const MOST_ROWS: usize = 2200;

// What stands for a path where there is none.
const NO_PATH: Path = Path {
    start: 0,
    before: 0,
};

// Packed as a block count and every place.
fn read_hold(input: &mut impl Read) -> io::Result<HoldRecord> {
    let blocks = read_number(input)?;
    let mut begins = [0u64; 32];
    let mut ends = [0u64; 32];
    read_numbers(input, &mut begins)?;
    read_numbers(input, &mut ends)?;
    Ok(HoldRecord {
        blocks,
        begins,
        ends,
    })
}

// As many entries of a slice as asked, of those that there is space for.
fn read_length(input: &mut impl Read) -> io::Result<usize>
    ensures { IfOk result (λ n. n ≤ MOST_ROWS) }
{
    let asked = read_number(input)?;
    Ok(asked.min(MOST_ROWS as u64) as usize)
}

// Fills the slices, and asks for a path among their rows.
fn answer(rt: &impl Print, input: &mut impl Read) -> io::Result<()> {
    let hold = read_hold(input)?;
    let low = read_number(input)?;
    let high = read_number(input)?;
    let mut starts = [0; MOST_ROWS];
    let mut begins = [0; MOST_ROWS];
    let mut ends = [0; MOST_ROWS];
    let starts = &mut starts[..read_length(input)?];
    let begins = &mut begins[..read_length(input)?];
    let ends = &mut ends[..read_length(input)?];
    read_numbers(input, starts)?;
    read_numbers(input, begins)?;
    read_numbers(input, ends)?;
    let rows = PlacedRows {
        starts,
        begins,
        ends,
    };
    let answer = path::path(&hold, rows, low, high);
    let (number, Path { start, before }) = numbered(answer, NO_PATH);
    println!(rt; "path {number} {start} {before}")
}

fn main(rt: HostRuntime) -> io::Result<()> {
    let mut input = rt.stdin();
    for _ in 0..MOST_QUESTIONS {
        if read_number(&mut input)? != 1 {
            return Ok(());
        }
        answer(&rt, &mut input)?;
    }
    Ok(())
}
