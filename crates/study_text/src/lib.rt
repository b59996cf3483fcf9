// The sheet of a whole file as text, and what the sheet program prints.
#![tactic(auto)]

ghost use Rattle.std.specs.Prelude.{◌≡◌, ◌≤◌, length, IfOk, OnOk};
ghost use Rattle.refusals.specs.Number.{number, refused_by};
ghost use Rattle.rules.specs.Calls.{lent_after};
ghost use Rattle.rules.specs.Count.{padded};
ghost use Rattle.rules.specs.Text.{refusal_text, sheet_text, program_text};
ghost use Rattle.study.specs.Rows.{starts_of, LeastForFile};
ghost use Rattle.study_text.specs.Study.{study_refusal};

use refusals::Refusal;
use text::{put_refusal, put_sheet};

const MOST_INPUT: usize = 16384;

// A text that always fits, and how many bytes it has; the places behind it are 0. Nothing is allocated, so the array has a fixed size.
#[derive(Clone, Copy)]
pub struct ProgramText {
    pub text: [u8; 2390],
    pub bytes: usize,
}

// The sheet of a whole file as text, by how many bytes are written: the file's rules, then 11 where the text does not fit. A refusal leaves the
// lent bytes as they came.
pub fn study(file: &[u8], text: &mut [u8]) -> Result<usize, Refusal>
    ensures refusal { refused_by result ≡ study_refusal file.now (length text.old) }
    ensures count { IfOk result (λ bytes. bytes ≡ length (sheet_text file.now)) }
    ensures text { text.new
        ≡ lent_after (study_refusal file.now (length text.old)) (sheet_text file.now) text.old }
    ensures least { OnOk result (LeastForFile file.now (starts_of file.now)) }
{
    let mut starts = [0u64; 64];
    let mut runs = [0u64; 64];
    let mut blocks = [0u64; 64];
    let trains = study::rows(file, &mut starts, &mut runs, &mut blocks)?;
    put_sheet(text, &starts[..trains], &runs[..trains], &blocks[..trains])
}

fn refusal_printed(refusal: Refusal) -> ProgramText
    ensures { (result.text ≡ padded 2390 (refusal_text (number refusal)))
        × (result.bytes ≡ length (refusal_text (number refusal))) }
{
    let mut text = [0u8; 2390];
    let bytes = put_refusal(&mut text, refusal.number()).unwrap();
    ProgramText { text, bytes }
}

// What the sheet program prints of its input, whatever that is: above 16,384 bytes it is refused by 2 with no rule checked.
pub fn program_text(input: &[u8]) -> ProgramText
    ensures text { result.text ≡ padded 2390 (program_text input.now) }
    ensures bytes { (result.bytes ≡ length (program_text input.now)) × (result.bytes ≤ 2390) }
    ensures places { length result.text ≡ 2390 }
{
    if MOST_INPUT < input.len() {
        return refusal_printed(Refusal::FileTooLong);
    }
    let mut text = [0u8; 2390];
    match study(input, &mut text) {
        Ok(bytes) => ProgramText { text, bytes },
        Err(refusal) => refusal_printed(refusal),
    }
}
