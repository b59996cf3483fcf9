// The speed-distance diagram of a train: the record of each point as three doubles and its dot, written into lent bytes.
#![tactic(auto)]

mod points;

ghost use Rattle.std.specs.Prelude.{◌≡◌, ◌*◌, ◌≤◌, length, IfOk, OnOk};
ghost use Rattle.refusals.specs.Number.{refused_by};
ghost use Rattle.rules.specs.Calls.{written};
ghost use Rattle.rules.specs.Diagram.{point_size, diagram_bytes, diagram_refusal, diagram_after, CarriesRun};
ghost use Rattle.rules.specs.Line.{line_of, train_of};
ghost use Rattle.rules.specs.Refusal.{refusal, rules_on};
ghost use Rattle.values.specs.Values.{as_line, as_train};

use points::{POINT_SIZE, write_points};
use refusals::Refusal;
use values::{Line, Train};

// Runs the train, and writes its diagram to the first bytes. The arrays have room for every line, so that no call is refused.
fn write_diagram(line: Line, train: Train, bytes: &mut [u8])
    requires { (refusal (rules_on (as_line line) (as_train train)) ≡ 0) × (point_size * line.points ≤ length bytes.old) }
    ensures { bytes.new ≡ written bytes.old 0 (diagram_bytes (as_line line) (as_train train)) }
{
    let points = usize::from(line.points);
    let mut speeds = [0u32; 4096];
    let mut times = [0u64; 4096];
    run::run_train(line, train, &mut speeds, &mut times).unwrap();
    write_points(
        u32::from(line.step),
        &speeds[..points],
        &times[..points],
        bytes,
    );
}

// The diagram call, by how many bytes are written: the file's rules and 10 for train k of a file, then 11 where the lent bytes have no room for
// every point. The bytes carry the run's own figures, and those behind them keep their values. A refusal leaves every byte as it came.
pub fn diagram(file: &[u8], k: u64, bytes: &mut [u8]) -> Result<usize, Refusal>
    ensures refusal { refused_by result ≡ diagram_refusal file.now k (length bytes.old) }
    ensures count { IfOk result (λ count. count ≡ length (diagram_bytes (line_of file.now) (train_of file.now k))) }
    ensures bytes { bytes.new ≡ diagram_after file.now k bytes.old }
    ensures figures { OnOk result (CarriesRun (line_of file.now) (train_of file.now k) bytes.new) }
{
    let opened = line::open_train(file, k)?;
    let count = POINT_SIZE * usize::from(opened.line.points);
    Refusal::TooLittleRoom.unless(count <= bytes.len())?;
    write_diagram(opened.line, opened.train, bytes);
    Ok(count)
}
