// The record of a point with its dot, and those of all points one behind the other.
ghost use Rattle.std.specs.Prelude.{not, ◌≡◌, ℕ, ◌+◌, ◌*◌, ◌^◌, ◌≤◌, ◌<◌, T, length};
ghost use Rattle.std.specs.Float.Ieee.{is_nan};
ghost use Rattle.rules.specs.Calls.{written};
ghost use Rattle.rules.specs.Count.{entry};
ghost use Rattle.rules.specs.Diagram.{record_of, double_bytes, figures_bytes, figures_size, point_size};
ghost use Rattle.rules.specs.Time.{root as root_of};
ghost use Rattle.roots.specs.Root.{as_root};
ghost use Rattle.diagram.specs.Points.{as_point, AreNumbers, points_of};

use roots::{RootAnswer, root, root_from};
use values::SquaredSpeed;

// The bytes of a record, and of a point: the record and its dot.
const FIGURES_SIZE: usize = 24;

pub(crate) const POINT_SIZE: usize = 25;

// Position in metres, speed in hundredths of a km/h, arrival in microseconds.
#[derive(Clone, Copy)]
pub struct DiagramPoint {
    pub position: f64,
    pub speed: f64,
    pub arrival: f64,
}

fn point_of(position: u32, speed: u32, arrival: u64) -> DiagramPoint
    requires { arrival < 2 ^ 53 }
    ensures { (as_point result ≡ record_of position speed arrival) × AreNumbers result }
{
    DiagramPoint {
        position: f64::from(position),
        speed: f64::from(speed),
        arrival: arrival as f64,
    }
}

// A double in eight bytes from a place on, low byte first.
fn put_double(bytes: &mut [u8], at: usize, x: f64)
    requires { T (not (is_nan x)) × (at + 8 ≤ length bytes.old) }
    ensures { bytes.new ≡ written bytes.old at (double_bytes x) }
{
    bytes[at..at + 8].copy_from_slice(&x.to_bits().to_le_bytes());
}

fn put_figures(bytes: &mut [u8], at: usize, point: DiagramPoint)
    requires { AreNumbers point × (at + figures_size ≤ length bytes.old) }
    ensures { bytes.new ≡ written bytes.old at (figures_bytes (as_point point)) }
{
    put_double(bytes, at, point.position);
    put_double(bytes, at + 8, point.speed);
    put_double(bytes, at + 16, point.arrival);
}

// The root of w, from that of the point before.
fn root_after(here: RootAnswer, w: SquaredSpeed) -> RootAnswer
    requires { here.speed.0 ≤ 65535 }
    ensures { (as_root result ≡ root_of w.0) × (result.speed.0 ≤ 65535) }
{
    root_from(here.speed.0 as u16, w)
}

// Each point, by its squared speed and its arrival. The points are a step apart.
pub(crate) fn write_points(step: u32, speeds: &[u32], times: &[u64], bytes: &mut [u8])
    requires points_bound { (length speeds.now ≤ 4096) × (length times.now ≡ length speeds.now) × (step < 65536) }
    requires small { (i : ℕ) → i < length speeds.now → entry times.now i < 2 ^ 53 }
    requires points_in_bounds { point_size * length speeds.now ≤ length bytes.old }
    ensures { bytes.new ≡ written bytes.old 0 (points_of (length speeds.now) step speeds.now times.now) }
{
    let mut position = 0;
    let mut at = 0;
    let mut here = root(SquaredSpeed(0));
    for (speed, time) in speeds.iter().zip(times) {
        here = root_after(here, SquaredSpeed(*speed));
        put_figures(bytes, at, point_of(position, here.speed.0, *time));
        bytes[at + FIGURES_SIZE] = here.dot();
        position += step;
        at += POINT_SIZE;
    }
}
