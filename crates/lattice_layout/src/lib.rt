// Where the records of a lattice file start, for its reader and its writer.
#![tactic(auto)]

ghost use Rattle.std.specs.Prelude.{◌≡◌, ◌^◌, ◌≤◌, ◌<◌};
ghost use Rattle.rules.specs.LatticeFile.{row_length, row_start};

use grid::Cells;

// The bytes of a row record.
pub fn row_length(cells: Cells) -> usize
    ensures { (result ≡ row_length cells.m) × (result ≤ 4_124) }
{
    4 + 8 * cells.width()
}

// The byte at which row record r starts; that of row n + 3 is the end's.
pub fn row_start(cells: Cells, r: usize) -> usize
    requires { r ≤ 515 }
    ensures { (result ≡ row_start cells.m r) × (result < 2 ^ 22) }
{
    6 + r * row_length(cells)
}
