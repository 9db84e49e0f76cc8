// Does any ground stand above a stage: the raster's answer for a rectangle of nodes, worked in strips of 64 columns, with no raster written.
#![tactic(auto)]

ghost use Rattle.std.specs.Prelude.{◌≡◌, ◌^◌, ◌<◌};
ghost use Rattle.rules.specs.Above as rule;
ghost use Rattle.checks.specs.Ready.{Tells};
ghost use Rattle.answers.specs.Told.{told};
ghost use Rattle.nodes.specs.Nodes.{nodes_of, nodes_asked};
ghost use Rattle.above.specs.Inspectable.{Inspectable};

use answers::Refusal;
use grid::Grid;
use nodes::Nodes;
use strips::Strip;

// The answer for a lattice, nodes and a stage that are known to be in range and inside.
fn above_within(grid: Grid, lattice: &[i64], nodes: Nodes, stage: i64) -> bool
    requires { (0 < nodes.step) × Inspectable grid.cells.m grid.cells.n grid.e lattice.now (nodes_of nodes) stage }
    ensures { result ≡ rule.any_above grid.cells.m grid.cells.n (2 ^ grid.e) lattice.now (nodes_of nodes) stage }
{
    if nodes.rows == 0 {
        return false;
    }
    let most = roundings::most_under(stage, grid.e);
    for column in (0..nodes.columns).step_by(64) {
        let strip = Strip::from_column(grid, nodes, column);
        if bands::strip_above(strip, lattice, stage, most) {
            return true;
        }
    }
    false
}

// The checks in their order: 1, 2, 8, 4, 6 of the stage, 6 of the lattice, and 5 for all nodes before any is worked out. Those of `raster` have 4 and 6 in
// their own way between the same three lines: a function of them both would take what stands between as a closure, and be longer.
fn inspectable(
    m: usize,
    n: usize,
    unit: usize,
    lattice: &[i64],
    nodes: Nodes,
    stage: i64,
) -> Result<Grid, Refusal>
    requires { 0 < nodes.step }
    ensures { Tells (rule.above_check m n unit lattice.now (nodes_of nodes) stage) m n unit (λ e. Inspectable m n e lattice.now (nodes_of nodes) stage) result }
{
    let grid = checks::gridded(m, n, unit)?;
    nodes.sizes()?;
    if lattice.len() < grid.cells.controls() {
        return Err(Refusal::Short);
    }
    if !range::in_range(stage) {
        return Err(Refusal::Range(0));
    }
    checks::lattice(grid.cells, lattice)?;
    let unit = grid.unit();
    nodes.positions(unit * grid.cells.m, unit * grid.cells.n)?;
    Ok(grid)
}

// The step of the nodes may be 0, which stands for the default.
pub fn any_above(
    m: usize,
    n: usize,
    unit: usize,
    lattice: &[i64],
    nodes: Nodes,
    stage: i64,
) -> Result<bool, Refusal>
    ensures { told result ≡ rule.above_answer m n unit lattice.now (nodes_asked nodes) stage }
{
    // put in first, as a raster does: nothing below knows the default
    let stepped = nodes.at_default();
    let grid = inspectable(m, n, unit, lattice, stepped, stage)?;
    Ok(above_within(grid, lattice, stepped, stage))
}
