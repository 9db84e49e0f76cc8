// A strip's columns: the cell of each and its four numerators there, which all lattice rows share.

ghost use Rattle.std.specs.Prelude.{◌≡◌, ◌+◌, ◌<◌, length};
ghost use Rattle.basis.specs.Weighing.{Grounded};
ghost use Rattle.strips.specs.Strips.{Taps, column_sum};

use super::Strip;
use basis::Basis;

// No numerators yet.
pub const UNTAPPED: Basis = Basis {
    b0: 0,
    b1: 0,
    b2: 0,
    b3: 0,
};

// The cell of each of a strip's columns and its numerators there, in lent arrays: within a struct they would stand on the stack twice while it is made.
pub fn tap(strip: Strip, cells: &mut [usize; 64], taps: &mut [Basis; 64])
    ensures { Taps strip strip.w cells.new taps.new }
{
    let unit = strip.grid.unit();
    for i in 0..strip.w {
        let x = strip.nodes.x0 + strip.nodes.step * (strip.column + i);
        let at = basis::locate(x, strip.grid.cells.m, strip.grid.e);
        cells[i] = at.cell;
        taps[i] = basis::basis_of(unit, at.offset);
    }
}

// The cells stand by themselves, since what is above a stage is looked for in them alone.
#[derive(Clone, Copy)]
pub struct Columns<'a> {
    pub strip: Strip,
    pub lattice: &'a [i64],
    pub cells: &'a [usize; 64],
    pub taps: &'a [Basis; 64],
    pub ghost grounded: { Grounded strip.grid.cells.m strip.grid.cells.n strip.grid.e lattice.now },
    pub ghost many: { length cells.now ≡ 64 },
    pub ghost tapped: { Taps strip strip.w cells.now taps.now },
}

impl Columns<'_> {
    // The rounded x sum of lattice row r at column i.
    pub fn row_sum(&self, r: usize, i: usize) -> i64
        requires { (r < self.now.strip.grid.cells.n + 3) × (i < self.now.strip.w) }
        ensures { result ≡ column_sum self.now.strip self.now.lattice.now r i }
    {
        let q = r * self.strip.grid.cells.width() + self.cells[i];
        roundings::near_over_tested(
            basis::line_sum(self.lattice, q, 1, self.taps[i]),
            self.strip.grid.e,
        )
    }
}
