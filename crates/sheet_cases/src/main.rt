// Reads calls on a sheet from standard input, and prints what each answers and leaves. The input is numbers of 8 bytes, low byte
// first: each call is its kind and then its arguments (tests/sheet_cases.py).
#![tactic(auto)]

use cases::{read_number, read_numbers, summed};
use holds::{HoldRecord, Sheet};
use sheet::{Added, SheetPeriod};
use std::io;
use std::io::Read;

const MOST_CALLS: u64 = 100000;

// What stands for a sheet where the opening call refuses.
const NO_SHEET: Sheet = Sheet {
    blocks: 0,
    trains: 0,
    free: [0; 32],
    first: [0; 32],
};

// What is called, on a sheet that the calls before have left.
#[derive(Clone, Copy)]
enum Call {
    Open,
    Add,
    Headway,
    Set,
    Show,
    Period,
}

// By its number in the input. The sheet is shown for each number that no other call has.
impl From<u64> for Call {
    fn from(kind: u64) -> Call {
        match kind {
            1 => Call::Open,
            2 => Call::Add,
            3 => Call::Headway,
            4 => Call::Set,
            6 => Call::Period,
            _ => Call::Show,
        }
    }
}

// A value for every place, then how many of the first places differ from it, then these.
fn read_places(input: &mut impl Read) -> io::Result<[u64; 32]> {
    let value = read_number(input)?;
    let count = read_number(input)?;
    let mut places = [value; 32];
    let others = count.min(32) as usize;
    read_numbers(input, &mut places[..others])?;
    Ok(places)
}

// Packed as the sheets are, each list by a value and what differs from it.
fn read_hold(input: &mut impl Read) -> io::Result<HoldRecord> {
    let blocks = read_number(input)?;
    let begins = read_places(input)?;
    let ends = read_places(input)?;
    Ok(HoldRecord {
        blocks,
        begins,
        ends,
    })
}

// A sheet that no call made.
fn read_sheet(input: &mut impl Read) -> io::Result<Sheet> {
    let blocks = read_number(input)?;
    let trains = read_number(input)?;
    let free = read_places(input)?;
    let first = read_places(input)?;
    Ok(Sheet {
        blocks,
        trains,
        free,
        first,
    })
}

// One number for the sheet's 66, places beyond the block count included.
fn checksum(sheet: &Sheet) -> u64 {
    let counts = summed(0, &[sheet.blocks, sheet.trains]);
    let sum = summed(counts, &sheet.free);
    summed(sum, &sheet.first)
}

fn print_sheet(rt: &impl Print, sheet: &Sheet) -> io::Result<()> {
    print!(rt; "sheet {} {}", sheet.blocks, sheet.trains)?;
    for place in sheet.free.iter().chain(&sheet.first) {
        print!(rt; " {place}")?;
    }
    println!(rt)
}

fn open(rt: &impl Print, input: &mut impl Read) -> io::Result<Sheet> {
    match sheet::open_sheet(read_number(input)?) {
        Ok(sheet) => {
            println!(rt; "opened 0")?;
            Ok(sheet)
        }
        Err(refusal) => {
            println!(rt; "opened {}", refusal.number())?;
            Ok(NO_SHEET)
        }
    }
}

fn add(rt: &impl Print, input: &mut impl Read, sheet: &mut Sheet) -> io::Result<()> {
    let hold = read_hold(input)?;
    match sheet::add(sheet, hold) {
        Ok(Added { start, block }) => print!(rt; "accepted {start} {block}")?,
        Err(refusal) => print!(rt; "refused {}", refusal.number())?,
    }
    println!(rt; " left {:016x}", checksum(sheet))
}

fn print_headway(rt: &impl Print, input: &mut impl Read) -> io::Result<()> {
    let first = read_hold(input)?;
    let second = read_hold(input)?;
    match sheet::headway(first, second) {
        Ok(time) => println!(rt; "headway {time}"),
        Err(refusal) => println!(rt; "no headway {}", refusal.number()),
    }
}

fn print_period(rt: &impl Print, sheet: &Sheet) -> io::Result<()> {
    match sheet::period(*sheet) {
        Ok(SheetPeriod { period, percent }) => println!(rt; "period {period} {percent}"),
        Err(refusal) => println!(rt; "no period {}", refusal.number()),
    }
}

fn answer(rt: &impl Print, input: &mut impl Read, call: Call, sheet: &mut Sheet) -> io::Result<()> {
    match call {
        Call::Open => *sheet = open(rt, input)?,
        Call::Add => add(rt, input, sheet)?,
        Call::Headway => print_headway(rt, input)?,
        Call::Set => *sheet = read_sheet(input)?,
        Call::Show => print_sheet(rt, sheet)?,
        Call::Period => print_period(rt, sheet)?,
    }
    Ok(())
}

fn main(rt: HostRuntime) -> io::Result<()> {
    let mut input = rt.stdin();
    let mut sheet = sheet::open_sheet(1).unwrap_or(NO_SHEET);
    for _ in 0..MOST_CALLS {
        let kind = read_number(&mut input)?;
        if kind == 0 {
            return Ok(());
        }
        answer(&rt, &mut input, Call::from(kind), &mut sheet)?;
    }
    Ok(())
}
