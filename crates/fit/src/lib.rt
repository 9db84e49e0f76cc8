// The whole fit: from points to one lattice, behind the checks of documents 01 and 02, in slices that the caller lends.
// Lattice and residuals are written once, at the end, so that a refusal leaves them as they were; then the scratch is cleared.
#![tactic(auto)]

ghost use Rattle.std.specs.Prelude.{◌≡◌};
ghost use Rattle.rules.specs.Answers.{◌then◌, answer, outcome};
ghost use Rattle.rules.specs.Fit.{survey, base, difference_check};
ghost use Rattle.rules.specs.Calls.{lent, points_check, fit_call};
ghost use Rattle.rules.specs.Demand3.{Demand3};
ghost use Rattle.survey.specs.Survey.{shape_of, survey_of};
ghost use Rattle.answers.specs.Told.{told, told_as};
ghost use Rattle.grid.specs.Counts.{counts};

use answers::Refusal;
use grid::Cells;
use survey::{Points, Shape};

// 5, 6 and 17 point by point, then 15, and the base of points that are in order. "The base ignores q."
fn base_of(cells: Cells, points: &Points) -> Result<i64, Refusal>
    ensures { told result ≡ answer (points_check 16 cells.m cells.n (survey_of points.now) then difference_check points.now.zs.now) (base points.now.zs.now) }
{
    let sum = point_checks::points(cells, points)?;
    base::settle(points.zs, sum)
}

// A fit, behind its checks in their order. After them the scratch is used, and cleared whatever the levels answer.
pub fn fit(
    shape: Shape,
    xs: &[u16],
    ys: &[u16],
    zs: &[i64],
    qs: &[u8],
    lattice: &mut [i64],
    residual: &mut [i64],
    whole: &mut [i64],
    floats: &mut [f64],
) -> Result<Cells, Refusal>
    ensures answer { outcome (told_as counts result) (lent lattice.new residual.new whole.new floats.new) ≡ fit_call (shape_of shape) (survey xs.now ys.now zs.now qs.now) (lent lattice.old residual.old whole.old floats.old) }
    ensures stated_distance { Demand3 (shape_of shape) (survey xs.now ys.now zs.now qs.now) (told_as counts result) lattice.new }
{
    let points = survey::head(shape, xs, ys, zs, qs)?;
    let cells = levels::cells(shape, shape.h);
    let most = cells.controls();
    let p = points.len();
    lending::room(
        most,
        p,
        lattice.len(),
        residual.len(),
        whole.len(),
        floats.len(),
    )?;
    let base = base_of(cells, &points)?;
    let answer = fitting::run(shape, &points, base, lattice, residual, whole, floats);
    whole[..3 * most + p].fill(0);
    floats[..2 * most].fill(0.0);
    answer
}
