// A survey whose checks have passed, fitted: residuals that start as the differences from the base, the levels, the base again, and the results in the
// caller's slices.
#![tactic(auto)]

ghost use Rattle.std.specs.Prelude.{◌≡◌, ◌≤◌, length};
ghost use Rattle.rules.specs.Answers.{outcome};
ghost use Rattle.rules.specs.Fit.{base as base_of, from_base, in_levels_check};
ghost use Rattle.rules.specs.Laws.Checks.{AllInRange};
ghost use Rattle.rules.specs.Calls.{K, lent, cleared, fit_end};
ghost use Rattle.survey.specs.Survey.{shape_of, survey_of};
ghost use Rattle.scratch.specs.Scratch.{Levelable};
ghost use Rattle.answers.specs.Told.{told_as};
ghost use Rattle.grid.specs.Counts.{counts};

use answers::Refusal;
use grid::Cells;
use survey::{Points, Shape};

// "Fit the differences, and add the base to every control value of the finished lattice": in scratch, where the final sums are judged; on acceptance the
// results, in the caller's slices. The scratch is left to be cleared, so the promise speaks of the slices as they are once that is done.
pub fn run(
    shape: Shape,
    points: &Points,
    base: i64,
    lattice: &mut [i64],
    residual: &mut [i64],
    whole: &mut [i64],
    floats: &mut [f64],
) -> Result<Cells, Refusal>
    requires levelable { Levelable (shape_of shape) (from_base (survey_of points.now)) (K (shape_of shape)) (length whole.old) (length floats.old) × (K (shape_of shape) ≤ length lattice.old) × (length points.now.xs.now ≤ length residual.old) }
    requires based { (base ≡ base_of points.now.zs.now) × AllInRange (length points.now.zs.now) points.now.zs.now }
    ensures { outcome (told_as counts result) (cleared (shape_of shape) (length points.now.xs.now) (lent lattice.new residual.new whole.new floats.new)) ≡ fit_end (shape_of shape) (survey_of points.now) (lent lattice.old residual.old whole.old floats.old) (in_levels_check (shape_of shape) (survey_of points.now)) }
{
    let cells = levels::cells(shape, shape.h);
    let most = cells.controls();
    let p = points.len();
    let residuals = 3 * most;
    let end = residuals + p;
    base::shift(points.zs, 0 - base, &mut whole[residuals..end]);
    levels::fit_levels(shape, most, points, whole, floats)?;
    let from = shape.h % 2 * most;
    let to = from + most;
    if !range::all_shifted(&whole[from..to], base) {
        return Err(Refusal::Sum(shape.h));
    }
    lending::deliver(shape.h, most, p, base, whole, lattice, residual);
    Ok(cells)
}
