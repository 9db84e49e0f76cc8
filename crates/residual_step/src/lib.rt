// The first half of a level: its lattice, and the residuals less its heights.
#![tactic(auto)]

ghost use Rattle.std.specs.Prelude.{List, ◌+◌, ◌*◌, ℤ, length};
ghost use Rattle.algebra.specs.Table.{Free};
ghost use Rattle.rules.specs.Fit as rule;
ghost use Rattle.answers.specs.Cause.{check};
ghost use Rattle.scratch.specs.Scratch.{survey_with, LevelReady, FirstHalf};

use answers::Refusal;
use grid::Grid;
use survey::Points;

// Level lattice k fitted to the residuals, and then the residuals less its heights: all quotients, then all residuals.
pub fn settle_level(
    grid: Grid,
    k: usize,
    most: usize,
    points: &Points,
    whole: &mut [i64],
    floats: &mut [f64],
) -> Result<(), Refusal>
    requires { (a : rule.Shape) × (zs : List ℤ) × LevelReady a (survey_with points.now zs) most k grid.cells.m grid.cells.n grid.e whole.old (length floats.old) }
    ensures first_half { (a : rule.Shape) (zs : List ℤ) → LevelReady a (survey_with points.now zs) most k grid.cells.m grid.cells.n grid.e whole.old (length floats.old) → FirstHalf a (survey_with points.now zs) most k (check result) whole.new }
    ensures free { Free 0 (3 * most + length points.now.xs.now) whole.old whole.new × Free 0 (2 * most) floats.old floats.new }
{
    let count = grid.cells.controls();
    let p = points.len();
    let start = 2 * most;
    let end = start + count;
    // One split, whose parts are named where they are used: of what is written to a part of a part, or to a named one, nothing would be known afterwards.
    let (lattices, residuals) = whole.split_at_mut(3 * most);
    // Field by field, since a struct with a ghost field takes no "..".
    let remaining = Points {
        xs: points.xs,
        ys: points.ys,
        zs: &residuals[..p],
        qs: points.qs,
    };
    level_sums::gather(grid, &remaining, floats);
    if !level_values::settle_all(count, floats, &mut lattices[start..end]) {
        return Err(Refusal::Quotient(k));
    }
    if !lowering::lower(grid, points, &lattices[start..end], &mut residuals[..p]) {
        return Err(Refusal::Residual(k));
    }
    Ok(())
}
