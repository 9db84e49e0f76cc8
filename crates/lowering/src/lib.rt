// The residuals of a level, lowered by its heights.
#![tactic(auto)]

ghost use Rattle.std.specs.Prelude.{◌≡◌, ℕ, ◌*◌, ◌^◌, ◌<◌, ◌≤◌, length, slice_index};
ghost use Rattle.rules.specs.Grid.{controls};
ghost use Rattle.rules.specs.Laws.Checks.{AllInRange};
ghost use Rattle.fit_steps.specs.Steps.{Written};
ghost use Rattle.lowering.specs.Lowered.{less_heights};

use grid::Grid;
use survey::Points;

// "take from each residual the height of level lattice k there": false where a residual leaves its range; the residuals are then free. A yes
// or no, since its caller alone knows the level that a refusal names.
pub fn lower(grid: Grid, points: &Points, level: &[i64], residuals: &mut [i64]) -> bool
    requires x_inside { (i : ℕ) → i < length points.now.xs.now → slice_index points.now.xs.now i ≤ 2 ^ grid.e * grid.cells.m }
    requires y_inside { (i : ℕ) → i < length points.now.xs.now → slice_index points.now.ys.now i ≤ 2 ^ grid.e * grid.cells.n }
    requires level_stored { controls grid.cells.m grid.cells.n ≤ length level.now }
    requires level_ranged { AllInRange (controls grid.cells.m grid.cells.n) level.now }
    requires as_many { length residuals.old ≡ length points.now.xs.now }
    requires residuals_ranged { AllInRange (length residuals.old) residuals.old }
    ensures { Written result 0 (length points.now.xs.now) (less_heights grid.cells.m grid.cells.n grid.e level.now points.now.xs.now points.now.ys.now residuals.old) residuals.old residuals.new }
{
    for i in 0..points.len() {
        let there = heights::height_within(
            grid,
            level,
            points.xs[i] as usize,
            points.ys[i] as usize,
        );
        let left = residuals[i] - there;
        if !range::in_range(left) {
            return false;
        }
        residuals[i] = left;
    }
    true
}
