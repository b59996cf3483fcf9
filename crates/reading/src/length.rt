// Whether a file has the length that its sizes announce.
ghost use Rattle.std.specs.Prelude.{◌≡◌};
ghost use Rattle.refusals.specs.Number.{refused_by};
ghost use Rattle.rules.specs.Refusal.{refusal, length_rules};

use crate::decode::record_size;
use crate::places::line_places;
use crate::words::word_at;
use refusals::Refusal;

// Refuses a file by rules 1 and 2.
pub fn check_length(file: &[u8]) -> Result<(), Refusal>
    ensures { refused_by result ≡ refusal (length_rules file.now) }
{
    let places = line_places(file);
    Refusal::FileTooShort.unless(places.trains <= file.len())?;
    let mut at = places.trains;
    for _ in 0..word_at(file, places.train_count) {
        let end = record_size(&file[at..]);
        Refusal::FileTooShort.unless(end <= file.len() - at)?;
        at += end;
    }
    Refusal::FileTooLong.unless(at == file.len())
}
