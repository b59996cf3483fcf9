// Reads files and questions from standard input, and prints what the run call and the hold call answer and what they leave in the buffers
// lent to them. The input is packed by tests/run_cases.py: how many questions follow the file (8 bytes, low byte first), the file's length
// (8 bytes), the file, then the questions: the train number and the lengths of the buffers for speeds and times (8 bytes each).
#![tactic(auto)]

use cases::{answer_questions, numbered, read_number, summed, written};
use holds::HoldRecord;
use refusals::number_of;
use std::io;
use std::io::Read;

const MOST_POINTS: usize = 4104;

// What the buffers hold before a call: greater than any squared speed and any arrival.
const NO_SPEED: u32 = 4294967295;

const NO_TIME: u64 = 18446744073709551615;

// How many entries are written, the last time of these, or 0, and the sums.
fn print_buffers(rt: &impl Print, speeds: &[u32], times: &[u64]) -> io::Result<()> {
    let arrivals = &times[..written(times, NO_TIME)];
    print!(rt;
        " {} {} {}",
        written(speeds, NO_SPEED),
        arrivals.len(),
        arrivals.last().copied().unwrap_or(0)
    )?;
    print!(rt; " {:016x} {:016x}", summed(0, speeds), summed(0, times))
}

fn print_run(
    rt: &impl Print,
    file: &[u8],
    k: u64,
    speeds: &mut [u32],
    times: &mut [u64],
) -> io::Result<()> {
    let number = number_of(run::run(file, k, speeds, times));
    print!(rt; "run {number}")?;
    print_buffers(rt, speeds, times)?;
    println!(rt)
}

fn print_record(rt: &impl Print, hold: HoldRecord) -> io::Result<()> {
    let HoldRecord {
        blocks,
        begins,
        ends,
    } = hold;
    print!(rt;
        " {blocks} {:016x} {:016x}",
        summed(0, &begins),
        summed(0, &ends)
    )
}

fn print_hold(
    rt: &impl Print,
    file: &[u8],
    k: u64,
    speeds: &mut [u32],
    times: &mut [u64],
) -> io::Result<()> {
    let (number, record) = numbered(hold::hold(file, k, speeds, times), HoldRecord::NONE);
    print!(rt; "hold {number}")?;
    print_buffers(rt, speeds, times)?;
    print_record(rt, record)?;
    println!(rt)
}

// Lends the first entries of two buffers to a call, as many as asked.
fn lend<F: FnOnce(&mut [u32], &mut [u64]) -> io::Result<()>>(
    speeds_length: u64,
    times_length: u64,
    call: F,
) -> io::Result<()>
    requires { F.IsAlwaysCallable call }
{
    let mut speeds = [NO_SPEED; MOST_POINTS];
    let mut times = [NO_TIME; MOST_POINTS];
    match (
        speeds.get_mut(..speeds_length as usize),
        times.get_mut(..times_length as usize),
    ) {
        (Some(speeds), Some(times)) => call(speeds, times),
        _ => Ok(()),
    }
}

fn answer(rt: &impl Print, input: &mut impl Read, file: &[u8]) -> io::Result<()> {
    let k = read_number(input)?;
    let speeds_length = read_number(input)?;
    let times_length = read_number(input)?;
    lend(speeds_length, times_length, |speeds, times| {
        print_run(rt, file, k, speeds, times)
    })?;
    lend(speeds_length, times_length, |speeds, times| {
        print_hold(rt, file, k, speeds, times)
    })
}

fn main(rt: HostRuntime) -> io::Result<()> {
    answer_questions(&mut rt.stdin(), |input, file| answer(&rt, input, file))
}
