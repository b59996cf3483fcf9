// The archive for C: each call of the crate `vellumrill`, under its name there. A slice crosses as a pointer and its length.
#![tactic(auto)]

ghost use Rattle.std.specs.Prelude.{◌≡◌, length, take};
ghost use Rattle.rules.specs.Calls.{lent_after, file_refusal, train_refusal, record_place, run_refusal, speeds_after, times_after, held, opened, added};
ghost use Rattle.rules.specs.Calls.{headway};
ghost use Rattle.rules.specs.Demand.{ThirdDemand};
ghost use Rattle.rules.specs.Diagram.{diagram_bytes, diagram_refusal, diagram_after, CarriesRun};
ghost use Rattle.rules.specs.File.{point_count, train_count};
ghost use Rattle.rules.specs.Line.{line_of, train_of};
ghost use Rattle.rules.specs.Path.{path_answer, RightPath};
ghost use Rattle.rules.specs.Period.{period_answer, HourPattern};
ghost use Rattle.rules.specs.Text.{sheet_text};
ghost use Rattle.rules.specs.Time.{FastestRun};
ghost use Rattle.holds.specs.Values.{as_hold, as_sheet};
ghost use Rattle.path_judging.specs.Rows.{placed_rows};
ghost use Rattle.study.specs.Rows.{starts_of, runs_of, blocks_of, rows_refusal, LeastForFile};
ghost use Rattle.study_text.specs.Study.{study_refusal};
ghost use Rattle.sheet_answers.specs.Answers.{opened_into, added_by_number, headway_by_number, as_period_answer};
ghost use Rattle.vellumrill.specs.Answers.{as_record_place, file_sizes, as_hold_answer, as_path_answer, rows_answer, write_answer};

use holds::{HoldRecord, Sheet};
use sheet_answers::{AddAnswer, HeadwayAnswer, PeriodAnswer};
use vellumrill::{HoldAnswer, PathAnswer, RecordPlace, RowsAnswer, Sizes, WriteAnswer};

#[unsafe(no_mangle)]
pub extern "C" fn vr_check_file(file: &[u8]) -> u64
    ensures { result ≡ file_refusal file.now }
{
    vellumrill::vr_check_file(file)
}

#[unsafe(no_mangle)]
pub extern "C" fn vr_check_train(file: &[u8], k: u64) -> u64
    ensures { result ≡ train_refusal file.now k }
{
    vellumrill::vr_check_train(file, k)
}

#[unsafe(no_mangle)]
pub extern "C" fn vr_train_record(file: &[u8], k: u64) -> RecordPlace
    ensures { as_record_place result ≡ record_place file.now k }
{
    vellumrill::vr_train_record(file, k)
}

#[unsafe(no_mangle)]
pub extern "C" fn vr_sizes(file: &[u8]) -> Sizes
    ensures { result ≡ file_sizes file.now }
{
    vellumrill::vr_sizes(file)
}

#[unsafe(no_mangle)]
pub extern "C" fn vr_run(file: &[u8], k: u64, speeds: &mut [u32], times: &mut [u64]) -> u64
    ensures number { result ≡ run_refusal file.now k (length speeds.old) (length times.old) }
    ensures speeds { speeds.new ≡ speeds_after file.now k speeds.old times.old }
    ensures times { times.new ≡ times_after file.now k speeds.old times.old }
    ensures fastest { result ≡ 0 →
        FastestRun (line_of file.now) (train_of file.now k) (take (point_count file.now) speeds.new)
        (take (point_count file.now) times.new) }
{
    vellumrill::vr_run(file, k, speeds, times)
}

#[unsafe(no_mangle)]
pub extern "C" fn vr_hold(file: &[u8], k: u64, speeds: &mut [u32], times: &mut [u64]) -> HoldAnswer
    ensures answer { as_hold_answer result ≡ held file.now k (length speeds.old) (length times.old) }
    ensures speeds { speeds.new ≡ speeds_after file.now k speeds.old times.old }
    ensures times { times.new ≡ times_after file.now k speeds.old times.old }
{
    vellumrill::vr_hold(file, k, speeds, times)
}

#[unsafe(no_mangle)]
pub extern "C" fn vr_open(blocks: u64, sheet: &mut Sheet) -> u64
    ensures { (result ≡ (opened blocks).number)
        × (as_sheet sheet.new ≡ opened_into blocks (as_sheet sheet.old))
        × (result ≡ 0 → ThirdDemand blocks (as_sheet sheet.new)) }
{
    vellumrill::vr_open(blocks, sheet)
}

#[unsafe(no_mangle)]
pub extern "C" fn vr_add(sheet: &mut Sheet, hold: &HoldRecord) -> AddAnswer
    ensures { (result ≡ added_by_number (added (as_sheet sheet.old) (as_hold hold.now)).answer)
        × (as_sheet sheet.new ≡ (added (as_sheet sheet.old) (as_hold hold.now)).sheet) }
{
    vellumrill::vr_add(sheet, hold)
}

#[unsafe(no_mangle)]
pub extern "C" fn vr_headway(first: &HoldRecord, second: &HoldRecord) -> HeadwayAnswer
    ensures { result ≡ headway_by_number (headway (as_hold first.now) (as_hold second.now)) }
{
    vellumrill::vr_headway(first, second)
}

#[unsafe(no_mangle)]
pub extern "C" fn vr_period(sheet: &Sheet) -> PeriodAnswer
    ensures { (as_period_answer result ≡ period_answer (as_sheet sheet.now))
        × HourPattern (as_sheet sheet.now) (as_period_answer result) }
{
    vellumrill::vr_period(sheet)
}

#[unsafe(no_mangle)]
pub extern "C" fn vr_path(
    hold: &HoldRecord,
    starts: &[u64],
    begins: &[u64],
    ends: &[u64],
    low: u64,
    high: u64,
) -> PathAnswer
    ensures answer { as_path_answer result
        ≡ path_answer (as_hold hold.now) (placed_rows starts.now begins.now ends.now) low high }
    ensures path { RightPath (as_hold hold.now) (placed_rows starts.now begins.now ends.now) low high (as_path_answer result) }
{
    vellumrill::vr_path(hold, starts, begins, ends, low, high)
}

#[unsafe(no_mangle)]
pub extern "C" fn vr_rows(
    file: &[u8],
    starts: &mut [u64],
    runs: &mut [u64],
    blocks: &mut [u64],
) -> RowsAnswer
    ensures answer { result
        ≡ rows_answer
        (rows_refusal file.now (length starts.old) (length runs.old) (length blocks.old))
        (train_count file.now) }
    ensures starts { starts.new
        ≡ lent_after (rows_refusal file.now (length starts.old) (length runs.old) (length blocks.old))
        (starts_of file.now) starts.old }
    ensures runs { runs.new
        ≡ lent_after (rows_refusal file.now (length starts.old) (length runs.old) (length blocks.old))
        (runs_of file.now) runs.old }
    ensures blocks { blocks.new
        ≡ lent_after (rows_refusal file.now (length starts.old) (length runs.old) (length blocks.old))
        (blocks_of file.now) blocks.old }
    ensures least { result.number ≡ 0 → LeastForFile file.now (take (train_count file.now) starts.new) }
{
    vellumrill::vr_rows(file, starts, runs, blocks)
}

#[unsafe(no_mangle)]
pub extern "C" fn vr_study(file: &[u8], text: &mut [u8]) -> WriteAnswer
    ensures answer { result ≡ write_answer (study_refusal file.now (length text.old)) (sheet_text file.now) }
    ensures text { text.new
        ≡ lent_after (study_refusal file.now (length text.old)) (sheet_text file.now) text.old }
    ensures least { result.number ≡ 0 → LeastForFile file.now (starts_of file.now) }
{
    vellumrill::vr_study(file, text)
}

#[unsafe(no_mangle)]
pub extern "C" fn vr_diagram(file: &[u8], k: u64, bytes: &mut [u8]) -> WriteAnswer
    ensures answer { result
        ≡ write_answer (diagram_refusal file.now k (length bytes.old))
        (diagram_bytes (line_of file.now) (train_of file.now k)) }
    ensures bytes { bytes.new ≡ diagram_after file.now k bytes.old }
    ensures figures { result.number ≡ 0 → CarriesRun (line_of file.now) (train_of file.now k) bytes.new }
{
    vellumrill::vr_diagram(file, k, bytes)
}
