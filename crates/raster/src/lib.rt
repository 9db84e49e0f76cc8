// Rasters: the heights of columns × rows nodes, row by row, worked in strips of 64 columns.
#![tactic(auto)]

ghost use Rattle.std.specs.Prelude.{◌≡◌, ◌*◌, ◌^◌, ◌<◌, List, ℤ, length};
ghost use Rattle.algebra.specs.Table.{tabulate, over};
ghost use Rattle.rules.specs.Answers.{outcome};
ghost use Rattle.rules.specs.Calls as calls;
ghost use Rattle.checks.specs.Ready.{Tells};
ghost use Rattle.answers.specs.Told.{told};
ghost use Rattle.nodes.specs.Nodes.{nodes_of, nodes_asked};
ghost use Rattle.raster.specs.Samplable.{Samplable};

use answers::Refusal;
use grid::Grid;
use nodes::Nodes;
use strips::Strip;

// The raster of a lattice and of nodes that are known to be in range and inside.
fn raster_within(grid: Grid, lattice: &[i64], nodes: Nodes, output: &mut [i64])
    requires { Samplable grid.cells.m grid.cells.n grid.e lattice.now (nodes_of nodes) (length output.old) }
    ensures { output.new ≡ over (tabulate (nodes.columns * nodes.rows) (calls.node_height grid.cells.m grid.cells.n (2 ^ grid.e) lattice.now (nodes_of nodes))) output.old }
{
    if nodes.rows == 0 {
        return;
    }
    for column in (0..nodes.columns).step_by(64) {
        let strip = Strip::from_column(grid, nodes, column);
        strips::whole_strip(strip, lattice, output);
    }
}

// The checks of a raster in document 01's order: 1, 2, 8, 4, 6 and 5. The output has room for so many nodes. Those of `above` have 4 and 6 in their own
// way between the same three lines: a function of them both would take what stands between as a closure, and be longer.
fn samplable(
    m: usize,
    n: usize,
    unit: usize,
    lattice: &[i64],
    nodes: Nodes,
    room: usize,
) -> Result<Grid, Refusal>
    requires { 0 < nodes.step }
    ensures { (d : List ℤ) → length d ≡ room → Tells (calls.raster_check m n unit lattice.now (nodes_of nodes) d) m n unit (λ e. Samplable m n e lattice.now (nodes_of nodes) room) result }
{
    let grid = checks::gridded(m, n, unit)?;
    nodes.sizes()?;
    if room < nodes.count() {
        return Err(Refusal::Short);
    }
    checks::stored(grid.cells, lattice)?;
    let unit = grid.unit();
    nodes.positions(unit * grid.cells.m, unit * grid.cells.n)?;
    Ok(grid)
}

// The step of the nodes may be 0, which stands for the default.
pub fn raster(
    m: usize,
    n: usize,
    unit: usize,
    lattice: &[i64],
    nodes: Nodes,
    output: &mut [i64],
) -> Result<usize, Refusal>
    ensures { outcome (told result) output.new ≡ calls.raster_call m n unit lattice.now (nodes_asked nodes) output.old }
{
    // put in first: nothing below knows the default
    let stepped = nodes.at_default();
    let room = output.len();
    let grid = samplable(m, n, unit, lattice, stepped, room)?;
    raster_within(grid, lattice, stepped, output);
    Ok(stepped.count())
}
