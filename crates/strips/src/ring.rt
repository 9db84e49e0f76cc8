// The ring of a strip: 4 rows of 64 sums, of lattice row r from place r mod 4 · 64 on, one list so that a row's sums are laid in it as a piece. Ring, cell and
// numerators of a row of nodes go to its functions one by one: a struct of them would have four facts and longer names, and be read through a reference.

ghost use Rattle.std.specs.Prelude.{◌≡◌, ℕ, ◌+◌, ◌-◌, ◌*◌, ◌%◌, ◌≤◌, ◌<◌, pos, nat_abs, length, get_or};
ghost use Rattle.algebra.specs.Table.{tabulate, over, laid};
ghost use Rattle.basis.specs.Weighing.{Grounded, weight_size};
ghost use Rattle.basis.specs.Sums.{back};
ghost use Rattle.strips.specs.Strips.{column_sum, Ringed, Spared, RingInRange, node_sum, node_at, RowDue, RowDone, Room, height_at, Striped};

use super::{Columns, Strip, UNTAPPED, tap};
use basis::Basis;

// The ring with lattice row r summed too, at columns `from` to `to` - 1.
fn row_sums(columns: &Columns, r: usize, from: usize, to: usize, ring: &mut [i64; 256])
    requires { (r < columns.now.strip.grid.cells.n + 3) × (from ≤ to) × (to ≤ columns.now.strip.w) }
    ensures { ring.new ≡ laid (r % 4 * 64 + from) (tabulate (to - from) (λ k. column_sum columns.now.strip columns.now.lattice.now r (from + k))) ring.old }
{
    let at = r % 4 * 64;
    for i in from..to {
        ring[at + i] = columns.row_sum(r, i);
    }
}

// The ring with lattice rows next to last - 1 summed too, at columns `from` to `to` - 1.
pub fn advance(
    columns: &Columns,
    from: usize,
    to: usize,
    next: usize,
    last: usize,
    ring: &mut [i64; 256],
)
    requires { (from ≤ to) × (to ≤ columns.now.strip.w) × (next ≤ last) × (last ≤ columns.now.strip.grid.cells.n + 3) × Ringed columns.now.strip columns.now.lattice.now from to last next ring.old }
    ensures { Ringed columns.now.strip columns.now.lattice.now from to last last ring.new × Spared from to ring.old ring.new }
{
    for r in next..last {
        row_sums(columns, r, from, to, ring);
    }
}

// The ring's sum of lattice row r at column i.
fn ring_sum(ring: &[i64; 256], r: usize, i: usize) -> i64
    requires { i < 64 }
    ensures { result ≡ back (get_or ring.now (r % 4 * 64 + i) (pos 0)) }
{
    ring[r % 4 * 64 + i]
}

// The y sum of the node of column i, from the ring's sums of the four lattice rows from cell on.
pub fn node_sum(ring: &[i64; 256], cell: usize, b: Basis, i: usize) -> i64
    requires { (cell ≤ 512) × (weight_size b ≤ 805_306_368) × (i < 64) × RingInRange cell i ring.now }
    ensures { (result ≡ node_sum b ring.now cell i) × (nat_abs result ≤ 3_221_225_472_000_000_000) }
{
    let p0 = ring_sum(ring, cell, i);
    let p1 = ring_sum(ring, cell + 1, i);
    let p2 = ring_sum(ring, cell + 2, i);
    let p3 = ring_sum(ring, cell + 3, i);
    basis::weighed(b, p0, p1, p2, p3)
}

// The node of column i.
fn node(ring: &[i64; 256], cell: usize, b: Basis, e: u32, i: usize) -> i64
    requires { (cell ≤ 512) × (e ≤ 9) × (weight_size b ≤ 805_306_368) × (i < 64) × RingInRange cell i ring.now }
    ensures { result ≡ node_at e b ring.now cell i }
{
    roundings::near_over_tested(node_sum(ring, cell, b, i), e)
}

// The nodes of one raster row.
fn node_row(ring: &[i64; 256], cell: usize, b: Basis, e: u32, nodes: &mut [i64])
    requires { (cell ≤ 512) × (e ≤ 9) × (weight_size b ≤ 805_306_368) × (length nodes.old ≤ 64) × ((i : ℕ) → i < length nodes.old → RingInRange cell i ring.now) }
    ensures { nodes.new ≡ over (tabulate (length nodes.old) (node_at e b ring.now cell)) nodes.old }
{
    for (i, z) in nodes.iter_mut().enumerate() {
        *z = node(ring, cell, b, e, i);
    }
}

// Raster row j of a strip. Lattice rows below next are in the ring; it returns the next one to sum.
fn strip_row(
    columns: &Columns,
    j: usize,
    next: usize,
    ring: &mut [i64; 256],
    output: &mut [i64],
) -> usize
    requires { RowDue columns.now.strip j next columns.now.lattice.now ring.old (length output.old) }
    ensures { RowDone columns.now.strip j result columns.now.lattice.now ring.new output.old output.new }
{
    let s = columns.strip;
    let up = basis::locate(s.nodes.y0 + s.nodes.step * j, s.grid.cells.n, s.grid.e);
    let cell = up.cell;
    let last = cell + 4;
    advance(columns, 0, s.w, next.max(cell), last, ring);
    let b = basis::basis_of(s.grid.unit(), up.offset);
    let start = j * s.nodes.columns + s.column;
    node_row(ring, cell, b, s.grid.e, &mut output[start..start + s.w]);
    last
}

// Every raster row of a strip.
fn strip_rows(columns: &Columns, output: &mut [i64])
    requires { Room columns.now.strip columns.now.strip.nodes.rows (length output.old) }
    ensures { Striped columns.now.strip.nodes.columns columns.now.strip.nodes.rows columns.now.strip.column (columns.now.strip.column + columns.now.strip.w) (height_at columns.now.strip columns.now.lattice.now) output.old output.new }
{
    let mut ring = [0; 256];
    let mut next = 0;
    for j in 0..columns.strip.nodes.rows {
        next = strip_row(columns, j, next, &mut ring, output);
    }
}

// The nodes of a strip. Its cells and numerators are worked out once, for all its rows.
pub fn whole_strip(strip: Strip, lattice: &[i64], output: &mut [i64])
    requires { Grounded strip.grid.cells.m strip.grid.cells.n strip.grid.e lattice.now × Room strip strip.nodes.rows (length output.old) }
    ensures { Striped strip.nodes.columns strip.nodes.rows strip.column (strip.column + strip.w) (height_at strip lattice.now) output.old output.new }
{
    let mut cells = [0; 64];
    let mut taps = [UNTAPPED; 64];
    tap(strip, &mut cells, &mut taps);
    let columns = Columns {
        strip,
        lattice,
        cells: &cells,
        taps: &taps,
    };
    strip_rows(&columns, output);
}
