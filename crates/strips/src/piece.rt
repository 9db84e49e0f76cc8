// A strip: at most 64 columns of a raster.

ghost use Rattle.std.specs.Prelude.{◌≡◌, ◌-◌, ℕ, ◌+◌, ◌*◌, ◌^◌, ◌≤◌, ◌<◌, min};
ghost use Rattle.strips.specs.Inside.{Inside};
ghost use Rattle.strips.specs.Piece.{strip_at};

use grid::Grid;
use nodes::Nodes;

// w columns of a raster, from column on, over m by n cells of unit = 2^e positions, wherever they lie.
#[derive(Clone, Copy)]
pub struct Piece {
    pub m: usize,
    pub n: usize,
    pub unit: usize,
    pub e: u32,
    pub nodes: Nodes,
    pub column: usize,
    pub w: usize,
}

// The strip that begins with a column of a raster: 64 columns, or what is left of them.
pub fn strip_from(m: usize, n: usize, e: u32, nodes: Nodes, column: usize) -> Piece
    requires { (e ≤ 9) × (column < nodes.columns) }
    ensures { result ≡ strip_at m n e nodes column }
{
    Piece {
        m,
        n,
        unit: 1 << e,
        e,
        nodes,
        column,
        w: (nodes.columns - column).min(64),
    }
}

// w columns of a raster, from column on. They lie on the grid.
#[derive(Clone, Copy)]
pub struct Strip {
    pub grid: Grid,
    pub nodes: Nodes,
    pub column: usize,
    pub w: usize,
    pub ghost inside: { Inside grid nodes column w },
}

impl Strip {
    // The strip that begins with a column of a raster whose columns lie on the grid.
    pub fn from_column(grid: Grid, nodes: Nodes, column: usize) -> Strip
        requires { (column < nodes.columns) × ((c : ℕ) → c < nodes.columns → nodes.x0 + nodes.step * c ≤ 2 ^ grid.e * grid.cells.m) }
        ensures { (result.grid ≡ grid) × (result.nodes ≡ nodes) × (result.column ≡ column) × (result.w ≡ min (nodes.columns - column) 64) }
    {
        let piece = strip_from(grid.cells.m, grid.cells.n, grid.e, nodes, column);
        Strip {
            grid,
            nodes,
            column,
            w: piece.w,
        }
    }
}
