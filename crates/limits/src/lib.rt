// What the program takes: "at most .. 16 finest cells a side", and of document 02 "7,508 bytes".
#![tactic(auto)]

ghost use Rattle.std.specs.Prelude.{◌≡◌, ◌&&◌, ◌≤◌, leb};
ghost use Rattle.rules.specs.Fit.{columns, rows};
ghost use Rattle.survey.specs.Survey.{shape_of};

use survey::Shape;

// A head and 500 PQ points, or 535 PT points.
const MOST_BYTES: usize = 7_508;

// 361 control values, and a file of 2,974 bytes.
const MOST_CELLS: usize = 16;

pub fn few_bytes(len: usize) -> bool
    ensures { result ≡ leb len 7_508 }
{
    len <= MOST_BYTES
}

pub fn few_cells(shape: Shape) -> bool
    requires { (shape.m0 ≤ 16) × (shape.n0 ≤ 16) × (shape.h ≤ 5) }
    ensures { result ≡ (leb (columns (shape_of shape) shape.h) 16 && leb (rows (shape_of shape) shape.h) 16) }
{
    shape.m0 << shape.h <= MOST_CELLS && shape.n0 << shape.h <= MOST_CELLS
}
