// What the calls answer in numbers alone: the number 0 and the values of an accepted call, or the number of refusal and 0 for each value. The
// answers cross to C, so their fields keep their order and types.
ghost use Rattle.std.specs.Prelude.{◌≡◌};
ghost use Rattle.hold.specs.Calls as hold_calls;
ghost use Rattle.line.specs.Answers as line_calls;
ghost use Rattle.path.specs.Values as path_calls;
ghost use Rattle.vellumrill.specs.Answers.{as_record_place, as_hold_answer, as_path_answer, sizes_told, rows_told, write_told};

use holds::HoldRecord;
use path::Path;
use reading::DecodedFile;
use refusals::Refusal;

// The first byte of a record, and how many bytes it has.
#[repr(C)]
#[derive(Clone, Copy)]
pub struct RecordPlace {
    pub number: u64,
    pub start: u64,
    pub length: u64,
}

impl From<Result<line::RecordPlace, Refusal>> for RecordPlace {
    ghost from_gives = { λ answer told. as_record_place told ≡ line_calls.as_record_place answer };

    fn from(answer: Result<line::RecordPlace, Refusal>) -> RecordPlace {
        match answer {
            Ok(place) => RecordPlace {
                number: 0,
                start: place.start as u64,
                length: place.length as u64,
            },
            Err(refusal) => RecordPlace {
                number: refusal.number(),
                start: 0,
                length: 0,
            },
        }
    }
}

// P, L in m, B and T.
#[repr(C)]
#[derive(Clone, Copy)]
pub struct Sizes {
    pub number: u64,
    pub points: u64,
    pub step: u64,
    pub blocks: u64,
    pub trains: u64,
}

impl From<Result<DecodedFile, Refusal>> for Sizes {
    ghost from_gives = { λ answer told. told ≡ sizes_told answer };

    fn from(answer: Result<DecodedFile, Refusal>) -> Sizes {
        match answer {
            Ok(file) => Sizes {
                number: 0,
                points: u64::from(file.line.points),
                step: u64::from(file.line.step),
                blocks: file.line.block_count as u64,
                trains: file.trains as u64,
            },
            Err(refusal) => Sizes {
                number: refusal.number(),
                points: 0,
                step: 0,
                blocks: 0,
                trains: 0,
            },
        }
    }
}

// The hold record, of no blocks on a refusal.
#[repr(C)]
#[derive(Clone, Copy)]
pub struct HoldAnswer {
    pub number: u64,
    pub hold: HoldRecord,
}

impl From<Result<HoldRecord, Refusal>> for HoldAnswer {
    ghost from_gives = { λ answer told. as_hold_answer told ≡ hold_calls.as_hold_answer answer };

    fn from(answer: Result<HoldRecord, Refusal>) -> HoldAnswer {
        match answer {
            Ok(hold) => HoldAnswer { number: 0, hold },
            Err(refusal) => HoldAnswer {
                number: refusal.number(),
                hold: HoldRecord::NONE,
            },
        }
    }
}

// The least start, and how many trains are before it.
#[repr(C)]
#[derive(Clone, Copy)]
pub struct PathAnswer {
    pub number: u64,
    pub start: u64,
    pub before: u64,
}

impl From<Result<Path, Refusal>> for PathAnswer {
    ghost from_gives = { λ answer told. as_path_answer told ≡ path_calls.as_path_answer answer };

    fn from(answer: Result<Path, Refusal>) -> PathAnswer {
        match answer {
            Ok(path) => PathAnswer {
                number: 0,
                start: path.start,
                before: path.before,
            },
            Err(refusal) => PathAnswer {
                number: refusal.number(),
                start: 0,
                before: 0,
            },
        }
    }
}

// How many trains the file has.
#[repr(C)]
#[derive(Clone, Copy)]
pub struct RowsAnswer {
    pub number: u64,
    pub trains: u64,
}

impl From<Result<usize, Refusal>> for RowsAnswer {
    ghost from_gives = { λ answer told. told ≡ rows_told answer };

    fn from(answer: Result<usize, Refusal>) -> RowsAnswer {
        match answer {
            Ok(trains) => RowsAnswer {
                number: 0,
                trains: trains as u64,
            },
            Err(refusal) => RowsAnswer {
                number: refusal.number(),
                trains: 0,
            },
        }
    }
}

// How many bytes are written.
#[repr(C)]
#[derive(Clone, Copy)]
pub struct WriteAnswer {
    pub number: u64,
    pub bytes: u64,
}

impl From<Result<usize, Refusal>> for WriteAnswer {
    ghost from_gives = { λ answer told. told ≡ write_told answer };

    fn from(answer: Result<usize, Refusal>) -> WriteAnswer {
        match answer {
            Ok(bytes) => WriteAnswer {
                number: 0,
                bytes: bytes as u64,
            },
            Err(refusal) => WriteAnswer {
                number: refusal.number(),
                bytes: 0,
            },
        }
    }
}
