// Whether a node of a strip stands above a stage. A band is the rows of nodes that lie in one row of cells. The columns from its first cell with a control value
// above the stage to its last are worked out, by x sums in a ring as a raster has them, and all others are passed over.
#![tactic(auto)]

ghost use Rattle.std.specs.Prelude.{◌≡◌, ℕ, ◌+◌, ◌≤◌, ◌<◌};
ghost use Rattle.basis.specs.Weighing.{Grounded, weight_size};
ghost use Rattle.strips.specs.Strips.{Ringed, RingInRange, row_cell};
ghost use Rattle.bands.specs.Bands.{RowsInside, Band, Threshold, SumsDecided, BandDecided, Decided, NodeAbove, NodesBelow};

use basis::Basis;
use below::{Due, Looked};
use strips::{Columns, Strip, UNTAPPED};

// What the ring holds: at columns `from` to `to` - 1, the sums of the four lattice rows before next.
#[derive(Drop)]
pub struct Kept {
    pub from: usize,
    pub to: usize,
    pub next: usize,
}

// The first row after j that lies in another row of cells, or one past the last row.
fn band_end(s: Strip, cell: usize, j: usize) -> usize
    requires { (0 < s.nodes.step) × (j < s.nodes.rows) × (cell ≡ row_cell s j) }
    ensures { (j < result) × (result ≤ s.nodes.rows) × Band s cell j result }
{
    if cell + 1 == s.grid.cells.n {
        return s.nodes.rows;
    }
    let last = ((cell + 1) << s.grid.e) - 1;
    s.nodes.rows.min((last - s.nodes.y0) / s.nodes.step + 1)
}

// What the ring has of the due columns and of the four lattice rows of cell row `cell`; if that is nothing, all columns due, with no row.
fn held(kept: Kept, due: Due, cell: usize) -> Kept
    requires { (due.from < due.to) × (kept.next ≤ cell + 4) }
    ensures { (due.from ≤ result.from) × (result.from ≤ result.to) × (result.to ≤ due.to) × (cell ≤ result.next) × (result.next ≤ cell + 4) × (cell < result.next → (kept.from ≤ result.from) × (result.to ≤ kept.to) × (result.next ≡ kept.next)) }
{
    let from = kept.from.max(due.from);
    let to = kept.to.min(due.to);
    if from < to {
        if cell < kept.next {
            return Kept {
                from,
                to,
                next: kept.next,
            };
        }
    }
    Kept {
        from: due.from,
        to: due.to,
        next: cell,
    }
}

// The ring with the four lattice rows of cell row `cell` at the due columns. What it has of them already stays, and the rest is summed: rows that follow, and
// columns to the left and to the right.
fn refill(columns: &Columns, kept: Kept, due: Due, cell: usize, ring: &mut [i64; 256]) -> Kept
    requires { (cell < columns.now.strip.grid.cells.n) × (due.from < due.to) × (due.to ≤ columns.now.strip.w) × (kept.next ≤ cell + 4) × Ringed columns.now.strip columns.now.lattice.now kept.from kept.to kept.next kept.next ring.old }
    ensures { (result.from ≡ due.from) × (result.to ≡ due.to) × (result.next ≡ cell + 4) × Ringed columns.now.strip columns.now.lattice.now due.from due.to (cell + 4) (cell + 4) ring.new }
{
    let had = held(kept, due, cell);
    let from = had.from;
    let to = had.to;
    let next = cell + 4;
    strips::advance(columns, from, to, had.next, next, ring);
    strips::advance(columns, due.from, from, cell, next, ring);
    strips::advance(columns, to, due.to, cell, next, ring);
    Kept {
        from: due.from,
        to: due.to,
        next,
    }
}

// Whether a node of one row has a y sum above `most`, in columns `from` to `to` - 1.
fn row_above(ring: &[i64; 256], cell: usize, b: Basis, from: usize, to: usize, most: i64) -> bool
    requires { (cell ≤ 512) × (weight_size b ≤ 805_306_368) × (to ≤ 64) × ((i : ℕ) → from ≤ i → i < to → RingInRange cell i ring.now) }
    ensures { SumsDecided b ring.now cell from to most result }
{
    for i in from..to {
        if most < strips::node_sum(ring, cell, b, i) {
            return true;
        }
    }
    false
}

// Whether a node of rows `start` to `end` - 1 has, which all lie in cell row `cell`.
fn band_above(
    s: Strip,
    ring: &[i64; 256],
    cell: usize,
    due: Due,
    start: usize,
    end: usize,
    most: i64,
) -> bool
    requires { RowsInside s end × Band s cell start end × (due.to ≤ s.w) × ((i : ℕ) → due.from ≤ i → i < due.to → RingInRange cell i ring.now) }
    ensures { BandDecided s ring.now cell due start end most result }
{
    let unit = s.grid.unit();
    for j in start..end {
        let up = basis::locate(s.nodes.y0 + s.nodes.step * j, s.grid.cells.n, s.grid.e);
        let b = basis::basis_of(unit, up.offset);
        if row_above(ring, cell, b, due.from, due.to, most) {
            return true;
        }
    }
    false
}

// Whether a node of a strip is above the stage, band by band; `most` is the greatest y sum whose height is not. A `while`, since a band ends where its row of
// cells does, which no step tells before it is reached.
fn bands_above(columns: &Columns, stage: i64, most: i64) -> bool
    requires { RowsInside columns.now.strip columns.now.strip.nodes.rows × (0 < columns.now.strip.nodes.step) × (0 < columns.now.strip.w) × Threshold stage columns.now.strip.grid.e most }
    ensures { Decided (NodeAbove columns.now.strip columns.now.lattice.now stage 0 columns.now.strip.nodes.rows 0 columns.now.strip.w) (NodesBelow columns.now.strip columns.now.lattice.now stage 0 columns.now.strip.nodes.rows 0 columns.now.strip.w) result }
{
    let s = columns.strip;
    let all = columns.cells;
    let cells = &all[..s.w];
    let mut looked = Looked::none();
    let mut ring = [0; 256];
    let mut kept = Kept {
        from: 0,
        to: 0,
        next: 0,
    };
    let mut j = 0;
    while j < s.nodes.rows {
        let cell = basis::locate(s.nodes.y0 + s.nodes.step * j, s.grid.cells.n, s.grid.e).cell;
        let end = band_end(s, cell, j);
        looked.look(columns.lattice, s.grid.cells.m, cells, cell, stage);
        let due = looked.due(cells);
        if due.from < due.to {
            kept = refill(columns, kept, due, cell, &mut ring);
            if band_above(s, &ring, cell, due, j, end, most) {
                return true;
            }
        }
        j = end;
    }
    false
}

// Whether a node of a strip is above the stage. Its cells and numerators are worked out once, for all its bands.
pub fn strip_above(strip: Strip, lattice: &[i64], stage: i64, most: i64) -> bool
    requires { Grounded strip.grid.cells.m strip.grid.cells.n strip.grid.e lattice.now × RowsInside strip strip.nodes.rows × (0 < strip.nodes.step) × (0 < strip.w) × Threshold stage strip.grid.e most }
    ensures { Decided (NodeAbove strip lattice.now stage 0 strip.nodes.rows 0 strip.w) (NodesBelow strip lattice.now stage 0 strip.nodes.rows 0 strip.w) result }
{
    let mut cells = [0; 64];
    let mut taps = [UNTAPPED; 64];
    strips::tap(strip, &mut cells, &mut taps);
    let columns = Columns {
        strip,
        lattice,
        cells: &cells,
        taps: &taps,
    };
    bands_above(&columns, stage, most)
}
