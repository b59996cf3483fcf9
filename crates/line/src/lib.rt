// The line file: checking it, handing out a train's record, and opening it for callers that go on to use its line and trains.
#![tactic(auto)]

mod find;
mod judge;
mod opened;

ghost use Rattle.std.specs.Prelude.{◌≡◌};
ghost use Rattle.refusals.specs.Number.{refused_by};
ghost use Rattle.rules.specs.Calls.{file_refusal, train_refusal, train_record, record_place};
ghost use Rattle.line.specs.Answers.{as_record_place};

use find::find_train;
pub use opened::{OpenedTrain, open_file, open_train};
use reading::record_size;
use refusals::Refusal;

// The first byte of a record, and how many bytes it has.
#[derive(Clone, Copy)]
pub struct RecordPlace {
    pub start: usize,
    pub length: usize,
}

// Refuses a file by the file's rules, 1 to 9 and 15.
pub fn check_file(file: &[u8]) -> Result<(), Refusal>
    ensures { refused_by result ≡ file_refusal file.now }
{
    open_file(file)?;
    Ok(())
}

// Refuses a file and a train number by the file's rules and 10.
pub fn check_train(file: &[u8], k: u64) -> Result<(), Refusal>
    ensures { refused_by result ≡ train_refusal file.now k }
{
    find_train(file, k)?;
    Ok(())
}

// Where the record of train k stands in the file, where neither a rule of the file nor rule 10 refuses.
pub fn record_place(file: &[u8], k: u64) -> Result<RecordPlace, Refusal>
    ensures { as_record_place result ≡ record_place file.now k }
{
    let start = find_train(file, k)?.at;
    let length = record_size(&file[start..]);
    Ok(RecordPlace { start, length })
}

// The record of train k as a part of the file's own bytes, or the empty part on a refusal.
pub fn train_record(file: &[u8], k: u64) -> &[u8]
    ensures { result.now ≡ train_record file.now k }
{
    match record_place(file, k) {
        Ok(place) => &file[place.start..place.start + place.length],
        Err(_) => &file[..0],
    }
}
