// Rules 3 to 6 and 15, of a line.
ghost use Rattle.std.specs.Prelude.{◌∷◌, ◌≡◌};
ghost use Rattle.rules.specs.Refusal.{rule, refusal, line_numbers, line_sizes, limit_points_rule, limits_rule, blocks_rule, line_rules};
ghost use Rattle.refusals.specs.Number.{refused_by};
ghost use Rattle.values.specs.Values.{as_line};
ghost use Rattle.judging.specs.Sized.{Sized};

use crate::numbers::{all_within, below_by, is_within, rises_by};
use balises::balises_kept;
use refusals::Refusal;
use values::Line;

// Rule 3 of P, L, K, B, the count of balises and T.
pub fn line_sizes(
    points: usize,
    step: usize,
    limits: usize,
    blocks: usize,
    balises: usize,
    trains: usize,
) -> bool
    ensures { result ≡ line_numbers points step limits blocks balises trains }
{
    is_within(points, 3, 4096)
        && is_within(step, 1, 100)
        && is_within(limits, 1, 64)
        && is_within(blocks, 1, 32)
        && is_within(balises, 0, 64)
        && is_within(trains, 1, 64)
}

// Rule 3 of a line and T.
pub(crate) fn line_sized(line: Line, trains: usize) -> bool
    ensures { result ≡ line_sizes (as_line line) trains }
{
    line_sizes(
        usize::from(line.points),
        usize::from(line.step),
        line.limit_count,
        line.block_count,
        line.balise_count,
        trains,
    )
}

// Rule 4.
fn limit_points_kept(line: Line) -> bool
    requires { Sized line }
    ensures { result ≡ limit_points_rule (as_line line) }
{
    // Copied before it is lent, here and below: to lend a field of the line or the train has the compiler copy most of it.
    let points = line.limit_points;
    let points = &points[..line.limit_count];
    points[0] == 0 && rises_by(1, points) && all_within(points, 0, line.points - 2)
}

// Rule 5.
fn limits_kept(line: Line) -> bool
    requires { Sized line }
    ensures { result ≡ limits_rule (as_line line) }
{
    let limits = line.limits;
    all_within(&limits[..line.limit_count], 1, 300)
}

// Rule 6.
fn blocks_kept(line: Line) -> bool
    requires { Sized line }
    ensures { result ≡ blocks_rule (as_line line) }
{
    let starts = line.block_starts;
    let ends = line.block_ends;
    let starts = &starts[..line.block_count];
    let ends = &ends[..line.block_count];
    starts[0] == 0
        && below_by(1, starts, ends)
        && below_by(0, ends, &starts[1..])
        && all_within(ends, 0, line.points - 1)
}

// The first broken rule of 4, 5, 6 and 15.
pub(crate) fn check_sized(line: Line) -> Result<(), Refusal>
    requires { Sized line }
    ensures { refused_by result ≡ refusal (line_rules (as_line line)) }
{
    Refusal::LimitPoints.unless(limit_points_kept(line))?;
    Refusal::Limits.unless(limits_kept(line))?;
    Refusal::Blocks.unless(blocks_kept(line))?;
    Refusal::Balises.unless(balises_kept(line))
}

// The first broken rule of 3 to 6 and 15 of a line with so many trains, whatever the line holds.
pub fn check_line(line: Line, trains: usize) -> Result<(), Refusal>
    ensures { refused_by result ≡ refusal (rule 3 (line_sizes (as_line line) trains) ∷ line_rules (as_line line)) }
{
    Refusal::Sizes.unless(line_sized(line, trains))?;
    check_sized(line)
}
