// The backward sweep of a run.
ghost use Rattle.std.specs.Prelude.{◌≡◌, ℕ, ◌≤◌, ◌<◌, length};
ghost use Rattle.rules.specs.Calls.{written};
ghost use Rattle.rules.specs.Count.{entry, row};
ghost use Rattle.rules.specs.Run.{backward_sweep};

use values::SquaredSpeed;

// Lowers each entry to at most the next plus the loss, from the last point back to the first.
pub(crate) fn write_backward(points: usize, loss: u32, speeds: &mut [u32])
    requires le_points { (1 ≤ points) × (points ≤ length speeds.old) × (loss ≤ 15552000) }
    requires by_index { (k : ℕ) → k < points → entry speeds.old k ≤ 900000000 }
    ensures { speeds.new ≡ written speeds.old 0 (row (backward_sweep (entry speeds.old) loss points) points) }
{
    for i in (0..points - 1).rev() {
        let most = SquaredSpeed(speeds[i + 1] + loss);
        speeds[i] = SquaredSpeed(speeds[i]).at_most(most).0;
    }
}
