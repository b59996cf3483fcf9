// A whole file in one call: the columns of its sheet.
#![tactic(auto)]

mod train;

ghost use Rattle.std.specs.Prelude.{◌≡◌, ◌≤◌, length, take, IfOk, OnOk};
ghost use Rattle.refusals.specs.Number.{refused_by};
ghost use Rattle.rules.specs.Calls.{written, lent_after, file_refusal};
ghost use Rattle.rules.specs.File.{train_count};
ghost use Rattle.reading.specs.Decoded.{decoded_file};
ghost use Rattle.study.specs.Rows.{starts_of, runs_of, blocks_of, rows_refusal, LeastForFile};

use reading::{DecodedFile, record_size};
use refusals::Refusal;
use train::{block_of, start_of, time_train};

// Writes the columns of an accepted file, with buffers for the run of a train. The slices stand one by one, as the C interface lends them.
fn write_rows_with(
    file: &[u8],
    decoded: DecodedFile,
    speeds: &mut [u32],
    times: &mut [u64],
    starts: &mut [u64],
    runs: &mut [u64],
    blocks: &mut [u64],
)
    requires file_value { (file_refusal file.now ≡ 0) × (decoded ≡ decoded_file file.now) }
    requires file_in_bounds { (train_count file.now ≤ length starts.old) × (train_count file.now ≤ length runs.old) × (train_count file.now ≤ length blocks.old) }
    requires points_in_bounds { (decoded.line.points ≤ length speeds.old) × (decoded.line.points ≤ length times.old) }
    ensures { (starts.new ≡ written starts.old 0 (starts_of file.now))
        × (runs.new ≡ written runs.old 0 (runs_of file.now))
        × (blocks.new ≡ written blocks.old 0 (blocks_of file.now)) }
{
    let line = decoded.line;
    let mut sheet = sheet::open_sheet(line.block_count as u64).unwrap();
    let mut at = decoded.at;
    for k in 0..decoded.trains {
        let timed = time_train(line, &file[at..], speeds, times);
        let answer = sheet::add(&mut sheet, timed.hold);
        starts[k] = start_of(answer);
        runs[k] = timed.run;
        blocks[k] = block_of(answer);
        at += record_size(&file[at..]);
    }
}

// Writes the columns of an accepted file. Clearing long buffers would take longer than the runs of a short line, so that gets short
// ones. By two arrays: of one whose size is a parameter it was not proved that it is lent as a slice.
fn write_rows(
    file: &[u8],
    decoded: DecodedFile,
    starts: &mut [u64],
    runs: &mut [u64],
    blocks: &mut [u64],
)
    requires file_value { (file_refusal file.now ≡ 0) × (decoded ≡ decoded_file file.now) }
    requires file_in_bounds { (train_count file.now ≤ length starts.old) × (train_count file.now ≤ length runs.old) × (train_count file.now ≤ length blocks.old) }
    ensures { (starts.new ≡ written starts.old 0 (starts_of file.now))
        × (runs.new ≡ written runs.old 0 (runs_of file.now))
        × (blocks.new ≡ written blocks.old 0 (blocks_of file.now)) }
{
    if decoded.line.points <= 256 {
        let mut speeds = [0u32; 256];
        let mut times = [0u64; 256];
        write_rows_with(file, decoded, &mut speeds, &mut times, starts, runs, blocks);
        return;
    }
    let mut speeds = [0u32; 4096];
    let mut times = [0u64; 4096];
    write_rows_with(file, decoded, &mut speeds, &mut times, starts, runs, blocks);
}

// The start, the running time and the block of each train of a file, in its order, by how many trains it has: the file's rules, then 11 where a
// slice has fewer places than the file has trains. A refusal leaves the slices as they came, and places behind the trains keep their values.
pub fn rows(
    file: &[u8],
    starts: &mut [u64],
    runs: &mut [u64],
    blocks: &mut [u64],
) -> Result<usize, Refusal>
    ensures refusal { refused_by result ≡ rows_refusal file.now (length starts.old) (length runs.old) (length blocks.old) }
    ensures trains { IfOk result (λ trains. trains ≡ train_count file.now) }
    ensures starts { starts.new
        ≡ lent_after (rows_refusal file.now (length starts.old) (length runs.old) (length blocks.old))
        (starts_of file.now) starts.old }
    ensures runs { runs.new
        ≡ lent_after (rows_refusal file.now (length starts.old) (length runs.old) (length blocks.old))
        (runs_of file.now) runs.old }
    ensures blocks { blocks.new
        ≡ lent_after (rows_refusal file.now (length starts.old) (length runs.old) (length blocks.old))
        (blocks_of file.now) blocks.old }
    ensures least { OnOk result (LeastForFile file.now (take (train_count file.now) starts.new)) }
{
    let decoded = line::open_file(file)?;
    let places = starts.len().min(runs.len()).min(blocks.len());
    Refusal::TooLittleRoom.unless(decoded.trains <= places)?;
    write_rows(file, decoded, starts, runs, blocks);
    Ok(decoded.trains)
}
