// The sums of one level of the fit, in f64 to the bit: the points' weights are scattered into two sums a control value.
#![tactic(auto)]

ghost use Rattle.std.specs.Prelude.{◌≡◌, ℕ, ◌*◌, ◌^◌, ◌<◌, ◌≤◌, length, slice_index};
ghost use Rattle.algebra.specs.Table.{over};
ghost use Rattle.rules.specs.Grid.{controls};
ghost use Rattle.rules.specs.Fit.{points_of};
ghost use Rattle.survey.specs.Survey.{survey_of};
ghost use Rattle.level_sums.specs.Gathered.{point_added, sum_table};

use grid::Grid;
use survey::Points;

// One point's part in the sums.
fn add_point(grid: Grid, x: usize, y: usize, z: i64, q: u8, sums: &mut [f64])
    requires inside { (x ≤ 2 ^ grid.e * grid.cells.m) × (y ≤ 2 ^ grid.e * grid.cells.n) }
    requires room { 2 * controls grid.cells.m grid.cells.n ≤ length sums.old }
    ensures { sums.new ≡ point_added (2 ^ grid.e) grid.cells.m grid.cells.n (record { x = x; y = y; z = z; q = q }) sums.old }
{
    let across = basis::locate(x, grid.cells.m, grid.e);
    let up = basis::locate(y, grid.cells.n, grid.e);
    let w = weights::block(
        weights::axis(grid.e, across.offset),
        weights::axis(grid.e, up.offset),
    );
    point_sums::add_block(
        grid.cells,
        up.cell * grid.cells.width() + across.cell,
        q as f64,
        w,
        std::num::nearest_i64_to_f64(z),
        sums,
    );
}

// Both sums of every control value from 0, points in list order.
pub fn gather(grid: Grid, points: &Points, sums: &mut [f64])
    requires x_inside { (i : ℕ) → i < length points.now.xs.now → slice_index points.now.xs.now i ≤ 2 ^ grid.e * grid.cells.m }
    requires y_inside { (i : ℕ) → i < length points.now.xs.now → slice_index points.now.ys.now i ≤ 2 ^ grid.e * grid.cells.n }
    requires room { 2 * controls grid.cells.m grid.cells.n ≤ length sums.old }
    ensures { sums.new ≡ over (sum_table (2 ^ grid.e) grid.cells.m grid.cells.n (points_of (survey_of points.now))) sums.old }
{
    sums[..2 * grid.cells.controls()].fill(0.0);
    for i in 0..points.len() {
        add_point(
            grid,
            points.xs[i] as usize,
            points.ys[i] as usize,
            points.zs[i],
            points.qs[i],
            sums,
        );
    }
}
