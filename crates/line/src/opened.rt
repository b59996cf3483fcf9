// A file opened for callers that go on to use its line and trains: judged, and decoded once.
ghost use Rattle.std.specs.Prelude.{◌≡◌, IfOk};
ghost use Rattle.refusals.specs.Number.{refused_by};
ghost use Rattle.rules.specs.Calls.{file_refusal, train_refusal};
ghost use Rattle.reading.specs.Decoded.{decoded_file};
ghost use Rattle.line.specs.Answers.{opened_train};

use crate::find::find_train;
use crate::judge::judge;
use reading::{DecodedFile, check_length, decode_file, decode_train};
use refusals::Refusal;
use values::{Line, Train};

// A file's line and one of its trains.
#[derive(Clone, Copy)]
pub struct OpenedTrain {
    pub line: Line,
    pub train: Train,
}

// The file's line, T and the place of its first train record, where no rule of the file refuses it.
pub fn open_file(file: &[u8]) -> Result<DecodedFile, Refusal>
    ensures refusal { refused_by result ≡ file_refusal file.now }
    ensures opened { IfOk result (λ opened. opened ≡ decoded_file file.now) }
{
    check_length(file)?;
    let decoded = decode_file(file);
    judge(file, decoded)?;
    Ok(decoded)
}

// The line and train k, where neither a rule of the file nor rule 10 refuses.
pub fn open_train(file: &[u8], k: u64) -> Result<OpenedTrain, Refusal>
    ensures refusal { refused_by result ≡ train_refusal file.now k }
    ensures opened { IfOk result (λ opened. opened ≡ opened_train file.now k) }
{
    let found = find_train(file, k)?;
    let line = found.line;
    let train = decode_train(&file[found.at..]);
    Ok(OpenedTrain { line, train })
}
