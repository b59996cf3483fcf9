// The record of the train asked for.
ghost use Rattle.std.specs.Prelude.{◌≡◌, ◌<◌, ◌≤◌, length, IfOk};
ghost use Rattle.refusals.specs.Number.{refused_by};
ghost use Rattle.rules.specs.Calls.{file_refusal, train_refusal};
ghost use Rattle.rules.specs.File.{train_count, trains_at, record_at};
ghost use Rattle.line.specs.Answers.{found_for};

use crate::opened::open_file;
use reading::record_size;
use refusals::Refusal;
use values::Line;

// The line, and the place of the record.
#[derive(Clone, Copy)]
pub(crate) struct Found {
    pub line: Line,
    pub at: usize,
}

// The place of train record k, where the first stands at `first`.
fn record_at(file: &[u8], first: usize, k: u64) -> usize
    requires { (file_refusal file.now ≡ 0) × (k < train_count file.now) × (first ≡ trains_at file.now) }
    ensures { (result ≡ record_at file.now k) × (result ≤ length file.now) }
{
    let mut at = first;
    for _ in 0..k {
        at += record_size(&file[at..]);
    }
    at
}

// The line and the place of the record of train k, where neither a rule of the file nor rule 10 refuses.
pub(crate) fn find_train(file: &[u8], k: u64) -> Result<Found, Refusal>
    ensures refusal { refused_by result ≡ train_refusal file.now k }
    ensures found { IfOk result (λ found. found ≡ found_for file.now k) }
    ensures within { IfOk result (λ found. found.at ≤ length file.now) }
{
    let opened = open_file(file)?;
    Refusal::NoSuchTrain.unless(k < opened.trains as u64)?;
    let line = opened.line;
    let at = record_at(file, opened.at, k);
    Ok(Found { line, at })
}
