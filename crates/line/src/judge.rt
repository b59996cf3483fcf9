// Rules 3 to 9 and 15 of a file that has the length that its sizes announce.
ghost use Rattle.std.specs.Prelude.{◌≡◌, ◌≤◌, length};
ghost use Rattle.refusals.specs.Number.{refused_by};
ghost use Rattle.rules.specs.Calls.{file_refusal};
ghost use Rattle.rules.specs.File.{announced_end, train_count};
ghost use Rattle.rules.specs.Refusal.{refusal, length_rules};
ghost use Rattle.reading.specs.Decoded.{decoded_file};
ghost use Rattle.line.specs.Judged.{all_kept, kept_of};

use judging::{TrainKept, check_line, train_kept};
use reading::{DecodedFile, decode_train, record_size};
use refusals::Refusal;

// Which of the rules 3 and 7 to 9 every train keeps.
fn trains_kept(file: &[u8], decoded: DecodedFile) -> TrainKept
    requires { (announced_end file.now ≤ length file.now) × (decoded ≡ decoded_file file.now) }
    ensures { result ≡ all_kept (kept_of file.now) (train_count file.now) }
{
    let mut at = decoded.at;
    let mut kept = TrainKept::ALL;
    for _ in 0..decoded.trains {
        let bytes = &file[at..];
        kept = kept.and(train_kept(decoded.line, decode_train(bytes)));
        at += record_size(bytes);
    }
    kept
}

pub(crate) fn judge(file: &[u8], decoded: DecodedFile) -> Result<(), Refusal>
    requires { (refusal (length_rules file.now) ≡ 0) × (decoded ≡ decoded_file file.now) }
    ensures { refused_by result ≡ file_refusal file.now }
{
    let kept = trains_kept(file, decoded);
    Refusal::Sizes.unless(kept.sizes)?;
    check_line(decoded.line, decoded.trains)?;
    kept.check()
}
