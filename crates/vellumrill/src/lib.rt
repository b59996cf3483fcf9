// The calls for C and Rust, which the crate vellumrill_c exports. Number 0 means accepted.
#![tactic(auto)]

mod answers;

ghost use Rattle.std.specs.Prelude.{◌≡◌, length, take};
ghost use Rattle.rules.specs.Calls.{lent_after, file_refusal, train_refusal, record_place, run_refusal, speeds_after, times_after, held, opened, added};
ghost use Rattle.rules.specs.Calls.{headway};
ghost use Rattle.rules.specs.Demand.{ThirdDemand};
ghost use Rattle.rules.specs.Diagram.{diagram_bytes, diagram_refusal, diagram_after, CarriesRun};
ghost use Rattle.rules.specs.File.{point_count, train_count};
ghost use Rattle.rules.specs.Line.{line_of, train_of};
ghost use Rattle.rules.specs.Path.{path_answer, RightPath};
ghost use Rattle.rules.specs.Period.{period_answer, HourPattern};
ghost use Rattle.rules.specs.Text.{sheet_text};
ghost use Rattle.rules.specs.Time.{FastestRun};
ghost use Rattle.holds.specs.Values.{as_hold, as_sheet};
ghost use Rattle.path_judging.specs.Rows.{placed_rows};
ghost use Rattle.study.specs.Rows.{starts_of, runs_of, blocks_of, rows_refusal, LeastForFile};
ghost use Rattle.study_text.specs.Study.{study_refusal};
ghost use Rattle.sheet_answers.specs.Answers.{opened_into, added_by_number, headway_by_number, as_period_answer};
ghost use Rattle.vellumrill.specs.Answers.{as_record_place, file_sizes, as_hold_answer, as_path_answer, rows_answer, write_answer};

pub use answers::{HoldAnswer, PathAnswer, RecordPlace, RowsAnswer, Sizes, WriteAnswer};
use holds::{HoldRecord, Sheet};
use path_judging::PlacedRows;
use refusals::number_of;
use sheet_answers::{
    AddAnswer, HeadwayAnswer, PeriodAnswer, add_by_number, headway_by_number, open_by_number,
    period_by_number,
};

// The file's rules.
pub fn vr_check_file(file: &[u8]) -> u64
    ensures { result ≡ file_refusal file.now }
{
    number_of(line::check_file(file))
}

// The file's rules and 10.
pub fn vr_check_train(file: &[u8], k: u64) -> u64
    ensures { result ≡ train_refusal file.now k }
{
    number_of(line::check_train(file, k))
}

// The file's rules and 10. The record of train k is the part of the file that begins at byte `start` and has `length` bytes; 0 and 0 on a refusal.
pub fn vr_train_record(file: &[u8], k: u64) -> RecordPlace
    ensures { as_record_place result ≡ record_place file.now k }
{
    line::record_place(file, k).into()
}

// The sizes of an accepted file, by the file's rules.
pub fn vr_sizes(file: &[u8]) -> Sizes
    ensures { result ≡ file_sizes file.now }
{
    line::open_file(file).into()
}

// The run call, by the file's rules, 10 and 11. Of an accepted call the first P entries of `speeds` are the run, those of `times` its arrivals; no permitted
// rival reaches a point before. A refusal leaves both buffers as they came.
pub fn vr_run(file: &[u8], k: u64, speeds: &mut [u32], times: &mut [u64]) -> u64
    ensures number { result ≡ run_refusal file.now k (length speeds.old) (length times.old) }
    ensures speeds { speeds.new ≡ speeds_after file.now k speeds.old times.old }
    ensures times { times.new ≡ times_after file.now k speeds.old times.old }
    ensures fastest { result ≡ 0 →
        FastestRun (line_of file.now) (train_of file.now k) (take (point_count file.now) speeds.new)
        (take (point_count file.now) times.new) }
{
    number_of(run::run(file, k, speeds, times))
}

// The hold call, by the file's rules, 10 and 11. The buffers end as after the run call.
pub fn vr_hold(file: &[u8], k: u64, speeds: &mut [u32], times: &mut [u64]) -> HoldAnswer
    ensures answer { as_hold_answer result ≡ held file.now k (length speeds.old) (length times.old) }
    ensures speeds { speeds.new ≡ speeds_after file.now k speeds.old times.old }
    ensures times { times.new ≡ times_after file.now k speeds.old times.old }
{
    hold::hold(file, k, speeds, times).into()
}

// Opens a sheet where it lies, rule 12. Every list of adding calls from it meets the third demand. A refusal leaves the sheet as it was.
pub fn vr_open(blocks: u64, sheet: &mut Sheet) -> u64
    ensures { (result ≡ (opened blocks).number)
        × (as_sheet sheet.new ≡ opened_into blocks (as_sheet sheet.old))
        × (result ≡ 0 → ThirdDemand blocks (as_sheet sheet.new)) }
{
    open_by_number(blocks, sheet)
}

// The adding call, rules 12 to 14, on a sheet with any contents. The sheet is altered where it lies; a refusal leaves it as it was.
pub fn vr_add(sheet: &mut Sheet, hold: &HoldRecord) -> AddAnswer
    ensures { (result ≡ added_by_number (added (as_sheet sheet.old) (as_hold hold.now)).answer)
        × (as_sheet sheet.new ≡ (added (as_sheet sheet.old) (as_hold hold.now)).sheet) }
{
    add_by_number(sheet, *hold)
}

// The second train's start on a sheet of these two, rules 12 to 14.
pub fn vr_headway(first: &HoldRecord, second: &HoldRecord) -> HeadwayAnswer
    ensures { result ≡ headway_by_number (headway (as_hold first.now) (as_hold second.now)) }
{
    headway_by_number(*first, *second)
}

// The shortest period with which a sheet is repeated, and its percentage of an hour, on a sheet with any contents: rule 12.
pub fn vr_period(sheet: &Sheet) -> PeriodAnswer
    ensures { (as_period_answer result ≡ period_answer (as_sheet sheet.now))
        × HourPattern (as_sheet sheet.now) (as_period_answer result) }
{
    period_by_number(*sheet)
}

// The least start from `low` to `high` that has a place among the placed rows, of which each has an entry of `starts` and, in `begins` and `ends`, as
// many entries as the hold record has blocks: rules 12, 14, 16 and 17, whatever the record and the slices hold.
pub fn vr_path(
    hold: &HoldRecord,
    starts: &[u64],
    begins: &[u64],
    ends: &[u64],
    low: u64,
    high: u64,
) -> PathAnswer
    ensures answer { as_path_answer result
        ≡ path_answer (as_hold hold.now) (placed_rows starts.now begins.now ends.now) low high }
    ensures path { RightPath (as_hold hold.now) (placed_rows starts.now begins.now ends.now) low high (as_path_answer result) }
{
    let rows = PlacedRows {
        starts,
        begins,
        ends,
    };
    path::path(hold, rows, low, high).into()
}

// The start, the running time and the block of each train of a file: the file's rules, then 11 where a slice has fewer places than the file has
// trains. A refusal leaves the slices as they came, and places behind the trains keep their values.
pub fn vr_rows(file: &[u8], starts: &mut [u64], runs: &mut [u64], blocks: &mut [u64]) -> RowsAnswer
    ensures answer { result
        ≡ rows_answer
        (rows_refusal file.now (length starts.old) (length runs.old) (length blocks.old))
        (train_count file.now) }
    ensures starts { starts.new
        ≡ lent_after (rows_refusal file.now (length starts.old) (length runs.old) (length blocks.old))
        (starts_of file.now) starts.old }
    ensures runs { runs.new
        ≡ lent_after (rows_refusal file.now (length starts.old) (length runs.old) (length blocks.old))
        (runs_of file.now) runs.old }
    ensures blocks { blocks.new
        ≡ lent_after (rows_refusal file.now (length starts.old) (length runs.old) (length blocks.old))
        (blocks_of file.now) blocks.old }
    ensures least { result.number ≡ 0 → LeastForFile file.now (take (train_count file.now) starts.new) }
{
    study::rows(file, starts, runs, blocks).into()
}

// The sheet of a whole file as text: the file's rules, then 11 where the text does not fit. A refusal leaves the lent bytes as they came.
pub fn vr_study(file: &[u8], text: &mut [u8]) -> WriteAnswer
    ensures answer { result ≡ write_answer (study_refusal file.now (length text.old)) (sheet_text file.now) }
    ensures text { text.new
        ≡ lent_after (study_refusal file.now (length text.old)) (sheet_text file.now) text.old }
    ensures least { result.number ≡ 0 → LeastForFile file.now (starts_of file.now) }
{
    study_text::study(file, text).into()
}

// The speed-distance diagram of train k: the file's rules and 10, then 11 where the lent bytes have no room for every point. The bytes carry the
// run's own figures, and those behind them keep their values. A refusal leaves every byte as it came.
pub fn vr_diagram(file: &[u8], k: u64, bytes: &mut [u8]) -> WriteAnswer
    ensures answer { result
        ≡ write_answer (diagram_refusal file.now k (length bytes.old))
        (diagram_bytes (line_of file.now) (train_of file.now k)) }
    ensures bytes { bytes.new ≡ diagram_after file.now k bytes.old }
    ensures figures { result.number ≡ 0 → CarriesRun (line_of file.now) (train_of file.now k) bytes.new }
{
    diagram::diagram(file, k, bytes).into()
}
