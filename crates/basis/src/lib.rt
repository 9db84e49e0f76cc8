// One step of a height: the cell of a position, the four numerators of its offset there, and near of the sum of four values over 6U³.
// U is a power of two, 2^e, so that cells are found by a shift.
#![tactic(auto)]

ghost use Rattle.std.specs.Prelude.{◌≡◌, ◌^◌, ◌≤◌, ◌<◌, nat_abs};
ghost use Rattle.rules.specs.Surface as rule;
ghost use Rattle.basis.specs.Weighing.{Weighs, Located, numerators, four, weight_size, Summable, line_sum, Weighable, line_height};

// Four weights, as the numerators of a position in its cell.
#[derive(Clone, Copy)]
pub struct Basis {
    pub b0: i64,
    pub b1: i64,
    pub b2: i64,
    pub b3: i64,
}

// A position's cell, and its offset in the cell.
#[derive(Drop)]
pub struct Spot {
    pub cell: usize,
    pub offset: usize,
}

fn cube(v: i64) -> i64
    requires { nat_abs v ≤ 1024 }
    ensures { result ≡ rule.cube v }
{
    v * v * v
}

// "(U-a)³, 3a³-6a²U+4U³, -3a³+3a²U+3aU²+U³, a³"; the third is what the others leave of 6U³
pub fn basis_of(unit: usize, a: usize) -> Basis
    requires { (unit ≤ 512) × (a ≤ unit) }
    ensures { Weighs result unit a }
{
    let u = unit as i64;
    let t = a as i64;
    let uuu = cube(u);
    let b0 = cube(u - t);
    let b3 = cube(t);
    let b1 = 3 * b3 - 6 * t * t * u + 4 * uuu;
    let b2 = 6 * uuu - b0 - b1 - b3;
    Basis { b0, b1, b2, b3 }
}

// The sum of four weights times four values in range.
pub fn weighed(b: Basis, p0: i64, p1: i64, p2: i64, p3: i64) -> i64
    requires weights_bounded { weight_size b ≤ 805_306_368 }
    requires values_in_range { (nat_abs p0 ≤ 4_000_000_000) × (nat_abs p1 ≤ 4_000_000_000) × (nat_abs p2 ≤ 4_000_000_000) × (nat_abs p3 ≤ 4_000_000_000) }
    ensures { (result ≡ rule.weighted (numerators b) (four p0 p1 p2 p3) 0) × (nat_abs result ≤ 3_221_225_472_000_000_000) }
{
    b.b0 * p0 + b.b1 * p1 + b.b2 * p2 + b.b3 * p3
}

// "A position x lies in cell floor(x/U); the far edge belongs to the last cell with a = U"
pub fn locate(x: usize, m: usize, e: u32) -> Spot
    requires { (0 < m) × (e ≤ 9) }
    ensures { Located result (2 ^ e) m x }
{
    let cell = (x >> e).min(m - 1);
    Spot {
        cell,
        offset: x - (cell << e),
    }
}

// The sum of four control values, weighed. They stand from place q on, each `apart` places from the one before: 1 for those of a row, the row's width for
// those of a column.
pub fn line_sum(lattice: &[i64], q: usize, apart: usize, b: Basis) -> i64
    requires { Summable lattice.now q apart b }
    ensures { (result ≡ line_sum lattice.now q apart b) × (nat_abs result ≤ 3_221_225_472_000_000_000) }
{
    let q1 = q + apart;
    let q2 = q1 + apart;
    let q3 = q2 + apart;
    weighed(b, lattice[q], lattice[q1], lattice[q2], lattice[q3])
}

// One step of a height: near of that sum over 6U³.
pub fn line_height(lattice: &[i64], q: usize, apart: usize, b: Basis, e: u32) -> i64
    requires { Weighable lattice.now q apart b e }
    ensures { result ≡ line_height lattice.now q apart b (2 ^ e) }
{
    roundings::near_over(line_sum(lattice, q, apart, b), e)
}
