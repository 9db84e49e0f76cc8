// Heights of a control lattice, read in two steps as document 01 has them.
#![tactic(auto)]

ghost use Rattle.std.specs.Prelude.{◌≡◌, ◌^◌};
ghost use Rattle.rules.specs.Grid.{control};
ghost use Rattle.rules.specs.Surface as rule;
ghost use Rattle.rules.specs.Calls.{height_check, height_answer};
ghost use Rattle.checks.specs.Ready.{Tells};
ghost use Rattle.basis.specs.Weighing.{Readable};
ghost use Rattle.answers.specs.Told.{told};

use answers::Refusal;
use grid::Grid;

// The height at a position of a lattice that is known to be long enough and in range. It scans nothing.
pub fn height_within(grid: Grid, lattice: &[i64], x: usize, y: usize) -> i64
    requires { Readable grid.cells.m grid.cells.n grid.e lattice.now x y }
    ensures { result ≡ rule.height (2 ^ grid.e) grid.cells.m grid.cells.n (control grid.cells.m lattice.now) x y }
{
    let e = grid.e;
    let across = basis::locate(x, grid.cells.m, e);
    let up = basis::locate(y, grid.cells.n, e);
    let unit = grid.unit();
    let bx = basis::basis_of(unit, across.offset);
    let by = basis::basis_of(unit, up.offset);
    let w = grid.cells.width();
    let q0 = up.cell * w + across.cell;
    let q1 = q0 + w;
    let q2 = q1 + w;
    let q3 = q2 + w;
    let r0 = basis::line_height(lattice, q0, 1, bx, e);
    let r1 = basis::line_height(lattice, q1, 1, bx, e);
    let r2 = basis::line_height(lattice, q2, 1, bx, e);
    let r3 = basis::line_height(lattice, q3, 1, bx, e);
    roundings::near_over(basis::weighed(by, r0, r1, r2, r3), e)
}

// The checks of a height, and of a slope, in document 01's order: 1, 2, 4, 6 and 5.
pub fn readable(
    m: usize,
    n: usize,
    unit: usize,
    lattice: &[i64],
    x: usize,
    y: usize,
) -> Result<Grid, Refusal>
    ensures { Tells (height_check m n unit lattice.now x y) m n unit (λ e. Readable m n e lattice.now x y) result }
{
    let grid = checks::gridded(m, n, unit)?;
    checks::stored(grid.cells, lattice)?;
    if unit * m < x {
        return Err(Refusal::Position(0));
    }
    if unit * n < y {
        return Err(Refusal::Position(0));
    }
    Ok(grid)
}

// A height, behind its checks.
pub fn height(
    m: usize,
    n: usize,
    unit: usize,
    lattice: &[i64],
    x: usize,
    y: usize,
) -> Result<i64, Refusal>
    ensures { told result ≡ height_answer m n unit lattice.now x y }
{
    let grid = readable(m, n, unit, lattice, x, y)?;
    Ok(height_within(grid, lattice, x, y))
}
