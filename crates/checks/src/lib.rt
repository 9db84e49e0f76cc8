// The checks of lent lattices and cell counts that several calls share, in document 01's order.
#![tactic(auto)]

ghost use Rattle.std.specs.Prelude.{◌≡◌, ◌≤◌, length};
ghost use Rattle.rules.specs.Grid as grid;
ghost use Rattle.rules.specs.Grid.{controls};
ghost use Rattle.rules.specs.Calls.{cells_check, lattice_check};
ghost use Rattle.rules.specs.Laws.Passed.{Gridded};
ghost use Rattle.answers.specs.Cause.{check};
ghost use Rattle.checks.specs.Ready.{Tells, grid_check, stored_check};

use answers::Refusal;
use grid::{Cells, Grid};

// low ≤ v ≤ high
pub fn within(low: usize, high: usize, v: usize) -> bool
    ensures { result ≡ grid.within low high v }
{
    low <= v && v <= high
}

// 1: cells a side from 1 to most
pub fn cells(most: usize, m: usize, n: usize) -> Result<(), Refusal>
    ensures { check result ≡ cells_check most m n }
{
    if !within(1, most, m) {
        return Err(Refusal::Cells);
    }
    if !within(1, most, n) {
        return Err(Refusal::Cells);
    }
    Ok(())
}

// 1 and 2: a grid that heights can be read on, with "U = 16, 32, 64, 128, 256 or 512". e is cast last, so that the compiler makes one count of U's
// trailing zeros of the six arms.
pub fn gridded(m: usize, n: usize, unit: usize) -> Result<Grid, Refusal>
    ensures { Tells (grid_check m n unit) m n unit (Gridded m n) result }
{
    cells(512, m, n)?;
    let e = match unit {
        16 => 4usize,
        32 => 5,
        64 => 6,
        128 => 7,
        256 => 8,
        512 => 9,
        _ => {
            return Err(Refusal::Unit);
        }
    };
    Ok(Grid {
        cells: Cells { m, n },
        e: e as u32,
    })
}

// 6, over a lattice: the first control value out of range
pub fn lattice(cells: Cells, values: &[i64]) -> Result<(), Refusal>
    requires { controls cells.m cells.n ≤ length values.now }
    ensures { check result ≡ lattice_check cells.m cells.n values.now }
{
    match range::first_out(values, cells.controls()) {
        Some(i) => Err(Refusal::Range(i)),
        None => Ok(()),
    }
}

// 4 and then 6, over a lattice that a caller lends
pub fn stored(cells: Cells, values: &[i64]) -> Result<(), Refusal>
    ensures { check result ≡ stored_check cells.m cells.n values.now }
{
    if values.len() < cells.controls() {
        return Err(Refusal::Short);
    }
    lattice(cells, values)
}
