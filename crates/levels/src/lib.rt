// The levels of a fit, in the caller's scratch, from residuals that stand there.
// Whole scratch, with K control values at level h: the running lattice after an even level at 0, after an odd one at K; the level lattice at 2K;
// the residuals at 3K.
#![tactic(auto)]

ghost use Rattle.std.specs.Prelude.{◌≡◌, List, ◌+◌, ◌*◌, ◌^◌, ◌≤◌, ℤ, length};
ghost use Rattle.algebra.specs.Table.{Free};
ghost use Rattle.rules.specs.Grid.{cells_at};
ghost use Rattle.rules.specs.Fit.{unit_of};
ghost use Rattle.rules.specs.Laws.Passed.{Sides};
ghost use Rattle.answers.specs.Cause.{check};
ghost use Rattle.survey.specs.Survey.{shape_of};
ghost use Rattle.scratch.specs.Scratch.{Levelable, survey_with, survey_at, Before, WholeLevel, Levelled};

use answers::Refusal;
use grid::{Cells, Grid};
use survey::{Points, Shape};

// "Level k has m = m0 × 2^k by n = n0 × 2^k cells"
pub fn cells(shape: Shape, k: usize) -> Cells
    requires { (shape.m0 ≤ 16) × (shape.n0 ≤ 16) × (k ≤ 5) }
    ensures m_is { result.m ≡ cells_at shape.m0 k }
    ensures n_is { result.n ≡ cells_at shape.n0 k }
{
    Cells {
        m: shape.m0 << k,
        n: shape.n0 << k,
    }
}

// Level k's cells, and how wide one is, so that all levels have the same positions.
fn level_grid(shape: Shape, k: usize) -> Grid
    requires { Sides 16 shape.m0 shape.n0 × (shape.h ≤ 5) × (k ≤ shape.h) }
    ensures m_is { result.cells.m ≡ cells_at shape.m0 k }
    ensures n_is { result.cells.n ≡ cells_at shape.n0 k }
    ensures unit_is { 2 ^ result.e ≡ unit_of (shape_of shape) k }
{
    Grid {
        cells: cells(shape, k),
        e: (4 + shape.h - k) as u32,
    }
}

// One level: all quotients, then all residuals, then all sums.
fn fit_level(
    shape: Shape,
    k: usize,
    most: usize,
    points: &Points,
    whole: &mut [i64],
    floats: &mut [f64],
) -> Result<(), Refusal>
    requires { ((zs : List ℤ) × Levelable (shape_of shape) (survey_with points.now zs) most (length whole.old) (length floats.old) × Before (shape_of shape) (survey_with points.now zs) most k whole.old) × (k ≤ shape.h) }
    ensures whole_level { (zs : List ℤ) → Levelable (shape_of shape) (survey_with points.now zs) most (length whole.old) (length floats.old) → Before (shape_of shape) (survey_with points.now zs) most k whole.old → WholeLevel (shape_of shape) (survey_with points.now zs) most k (check result) whole.new }
    ensures free { Free 0 (3 * most + length points.now.xs.now) whole.old whole.new × Free 0 (2 * most) floats.old floats.new }
{
    let grid = level_grid(shape, k);
    residual_step::settle_level(grid, k, most, points, whole, floats)?;
    running_step::raise_level(grid.cells, k, most, whole)
}

// Levels 0 to h.
pub fn fit_levels(
    shape: Shape,
    most: usize,
    points: &Points,
    whole: &mut [i64],
    floats: &mut [f64],
) -> Result<(), Refusal>
    requires { Levelable (shape_of shape) (survey_at points.now.xs.now points.now.ys.now points.now.qs.now (3 * most) whole.old) most (length whole.old) (length floats.old) }
    ensures levelled { Levelled (shape_of shape) (survey_at points.now.xs.now points.now.ys.now points.now.qs.now (3 * most) whole.old) most (check result) whole.new }
    ensures free { Free 0 (3 * most + length points.now.xs.now) whole.old whole.new × Free 0 (2 * most) floats.old floats.new }
{
    for k in 0..=shape.h {
        fit_level(shape, k, most, points, whole, floats)?;
    }
    Ok(())
}
