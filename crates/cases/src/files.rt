// Files, and the questions asked of them.
ghost use Rattle.std.specs.Prelude.{◌≡◌, ◌≤◌, length, drop, OnOk, IfSome, Some};
ghost use Rattle.cases.specs.Input.{number_of};

use crate::input::{read_file, read_number};
use std::io;
use std::io::Read;

const MOST_FILES: u64 = 100000;

const MOST_BYTES: usize = 65536;

// How many questions are asked stands before each file, and the questions stand behind it. No question ends the input.
pub fn answer_questions<R: Read, F: Fn(&mut R, &[u8]) -> io::Result<()>>(
    input: &mut R,
    answer: F,
) -> io::Result<()>
    requires { F.IsAlwaysCallable answer }
    ensures { OnOk result (IfSome (R.remaining input.old) (λ xs. 8 ≤ length xs → number_of xs ≡ 0
        → R.remaining input.new ≡ Some (drop 8 xs))) }
{
    for _ in 0..MOST_FILES {
        let questions = read_number(input)?;
        if questions == 0 {
            return Ok(());
        }
        answer_file(input, questions, &answer)?;
    }
    Ok(())
}

// How many files there are stands before the first, and one question behind each.
pub fn answer_files<R: Read, F: Fn(&mut R, &[u8]) -> io::Result<()>>(
    input: &mut R,
    answer: F,
) -> io::Result<()>
    requires { F.IsAlwaysCallable answer }
    ensures { OnOk result (IfSome (R.remaining input.old) (λ xs. 8 ≤ length xs → number_of xs ≡ 0
        → R.remaining input.new ≡ Some (drop 8 xs))) }
{
    let files = read_number(input)?;
    for _ in 0..files.min(MOST_FILES) {
        answer_file(input, 1, &answer)?;
    }
    Ok(())
}

// A file that is too long has no questions.
fn answer_file<R: Read, F: Fn(&mut R, &[u8]) -> io::Result<()>>(
    input: &mut R,
    questions: u64,
    answer: &F,
) -> io::Result<()>
    requires { F.IsAlwaysCallable answer.now }
{
    let mut space = [0; MOST_BYTES];
    if let Some(file) = read_file(input, &mut space)? {
        for _ in 0..questions {
            answer(input, file)?;
        }
    }
    Ok(())
}
