// Slopes of a control lattice along both axes, each in two steps as document 02 has them: heights across the axis, and then their slope along it.
#![tactic(auto)]

ghost use Rattle.std.specs.Prelude.{◌≡◌, ◌^◌, ◌≤◌};
ghost use Rattle.rules.specs.Grid.{control};
ghost use Rattle.rules.specs.Slope as rule;
ghost use Rattle.rules.specs.Calls.{slope_answer};
ghost use Rattle.basis.specs.Weighing.{Readable};
ghost use Rattle.answers.specs.Told.{told_as};
ghost use Rattle.slopes.specs.Sloping.{slopes_of, WeighsSlope, Slopable, line_slope};

use answers::Refusal;
use basis::Basis;
use grid::Grid;

// Both slopes at a position, in nanometres per position.
#[derive(Drop)]
pub struct Slopes {
    pub along_x: i64,
    pub along_y: i64,
}

// 1,000 times "-(U-a)², 3a²-4aU, -3a²+2aU+U², a²"; the third is what the others leave of 0. The thousand stands here, since `weighed` takes it along: their sizes
// add up to at most 3,000U², which is less than 6U³ at the largest U.
fn slope_basis(unit: usize, a: usize) -> Basis
    requires { (unit ≤ 512) × (a ≤ unit) }
    ensures { WeighsSlope result unit a }
{
    let u = unit as i64;
    let t = a as i64;
    let rest = u - t;
    let b0 = -1_000 * rest * rest;
    let b3 = 1_000 * t * t;
    let b1 = 3 * b3 - 4_000 * t * u;
    let b2 = 0 - b0 - b1 - b3;
    Basis { b0, b1, b2, b3 }
}

// The slope along one axis, whose slope numerators s has. The four lines across it begin at place q, each `next` places from the one before; b weighs the values of a
// line, which stand `apart` places apart.
fn axis_slope(
    lattice: &[i64],
    q: usize,
    next: usize,
    apart: usize,
    b: Basis,
    s: Basis,
    e: u32,
) -> i64
    requires { Slopable lattice.now q next apart b s e }
    ensures { result ≡ line_slope lattice.now q next apart b s (2 ^ e) }
{
    let q1 = q + next;
    let q2 = q1 + next;
    let q3 = q2 + next;
    let h0 = basis::line_height(lattice, q, apart, b, e);
    let h1 = basis::line_height(lattice, q1, apart, b, e);
    let h2 = basis::line_height(lattice, q2, apart, b, e);
    let h3 = basis::line_height(lattice, q3, apart, b, e);
    roundings::near_over_slope(basis::weighed(s, h0, h1, h2, h3), e)
}

// Both slopes at a position of a lattice that is known to be long enough and in range. It scans nothing.
fn slopes_within(grid: Grid, lattice: &[i64], x: usize, y: usize) -> Slopes
    requires { Readable grid.cells.m grid.cells.n grid.e lattice.now x y }
    ensures x_slope { result.along_x ≡ rule.slope_x (2 ^ grid.e) grid.cells.m grid.cells.n (control grid.cells.m lattice.now) x y }
    ensures y_slope { result.along_y ≡ rule.slope_y (2 ^ grid.e) grid.cells.m grid.cells.n (control grid.cells.m lattice.now) x y }
{
    let e = grid.e;
    let across = basis::locate(x, grid.cells.m, e);
    let up = basis::locate(y, grid.cells.n, e);
    let unit = grid.unit();
    let bx = basis::basis_of(unit, across.offset);
    let by = basis::basis_of(unit, up.offset);
    let sx = slope_basis(unit, across.offset);
    let sy = slope_basis(unit, up.offset);
    let w = grid.cells.width();
    let q = up.cell * w + across.cell;
    Slopes {
        along_x: axis_slope(lattice, q, 1, w, by, sx, e),
        along_y: axis_slope(lattice, q, w, 1, bx, sy, e),
    }
}

// Both slopes, behind the checks of a height.
pub fn slope(
    m: usize,
    n: usize,
    unit: usize,
    lattice: &[i64],
    x: usize,
    y: usize,
) -> Result<Slopes, Refusal>
    ensures { told_as slopes_of result ≡ slope_answer m n unit lattice.now x y }
{
    let grid = heights::readable(m, n, unit, lattice, x, y)?;
    Ok(slopes_within(grid, lattice, x, y))
}
