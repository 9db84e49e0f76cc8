// Control values at or below a stage. Where all sixteen of a cell are, no height in the cell is above it, and its nodes need not be worked out. Of each lattice
// row the first and the last value above the stage are found, once for all the cells that read it: what lies before the first of four rows and behind the
// last is at or below the stage.
#![tactic(auto)]

ghost use Rattle.std.specs.Prelude.{◌≡◌, ℕ, ◌+◌, ◌*◌, ◌≤◌, ◌<◌, length, get_or, MatchOption};
ghost use Rattle.below.specs.Below.{first_cell, past_cells, ValuesBelow, RowBelow, RowsBelow, Rising, Apart};

// The part of a lattice row that has values above the stage: columns `first` to `end` - 1; what lies outside is at or below it.
#[derive(Clone, Copy)]
pub struct High {
    pub first: usize,
    pub end: usize,
}

// The columns of a strip that have to be worked out, from `from` to `to` - 1.
#[derive(Clone, Copy)]
pub struct Due {
    pub from: usize,
    pub to: usize,
}

// The first of the values above the stage.
fn first_high(values: &[i64], stage: i64) -> Option<usize>
    ensures { MatchOption result (ValuesBelow stage values.now 0 (length values.now)) (λ i. (i < length values.now) × ValuesBelow stage values.now 0 i) }
{
    values.iter().position(|z| stage < *z)
}

// One past the last of them, or 0.
fn past_high(values: &[i64], stage: i64) -> usize
    ensures { (result ≤ length values.now) × ValuesBelow stage values.now result (length values.now) }
{
    values.iter().rposition(|z| stage < *z).map_or(0, |i| i + 1)
}

// What of lattice row t is above the stage, in columns `left` to `right` - 1.
fn row_high(lattice: &[i64], m: usize, left: usize, right: usize, t: usize, stage: i64) -> High
    requires { (left ≤ right) × (m + 3 ≤ length lattice.now) × (t * (m + 3) + right ≤ length lattice.now) }
    ensures { RowBelow stage m lattice.now left right t result }
{
    let q = t * (m + 3);
    let row = &lattice[q + left..q + right];
    match first_high(row, stage) {
        None => High {
            first: right,
            end: left,
        },
        Some(first) => High {
            first: left + first,
            end: left + past_high(row, stage),
        },
    }
}

// The first column whose cell reaches the lattice's column `first`, or all.
fn due_from(cells: &[usize], first: usize) -> usize
    ensures { (result ≤ length cells.now) × ((i : ℕ) → i < result → get_or cells.now i 0 + 4 ≤ first) }
{
    let least = first.saturating_sub(3);
    cells
        .iter()
        .position(|c| least <= *c)
        .unwrap_or(cells.len())
}

// One past the last column whose cell begins before the lattice's column `end`, or 0.
fn due_to(cells: &[usize], end: usize) -> usize
    ensures { (result ≤ length cells.now) × ((i : ℕ) → result ≤ i → i < length cells.now → end ≤ get_or cells.now i 0) }
{
    cells.iter().rposition(|c| *c < end).map_or(0, |i| i + 1)
}

// The lattice rows before next, as far as they are looked at and among the last four: what of row t is high has place t mod 4.
#[derive(Drop)]
pub struct Looked {
    pub highs: [High; 4],
    pub next: usize,
}

impl Looked {
    // No row yet.
    pub fn none() -> Looked
        ensures { (length result.highs ≡ 4) × (result.next ≡ 0) }
    {
        Looked {
            highs: [High { first: 0, end: 0 }; 4],
            next: 0,
        }
    }

    // The four lattice rows of cell row k looked at, in the columns that the cells of a strip reach; those before next are already.
    pub fn look(&mut self, lattice: &[i64], m: usize, cells: &[usize], k: usize, stage: i64)
        requires { (0 < length cells.now) × Rising cells.now × (past_cells cells.now ≤ m + 3) × ((k + 4) * (m + 3) ≤ length lattice.now) × (self.old.next ≤ k + 4) × RowsBelow stage m lattice.now (first_cell cells.now) (past_cells cells.now) self.old.next self.old.next self.old.highs }
        ensures { (self.new.next ≡ k + 4) × RowsBelow stage m lattice.now (first_cell cells.now) (past_cells cells.now) (k + 4) (k + 4) self.new.highs }
    {
        let left = cells[0];
        let right = cells[cells.len() - 1] + 4;
        for t in self.next.max(k)..k + 4 {
            self.highs[t % 4] = row_high(lattice, m, left, right, t, stage);
        }
        self.next = k + 4;
    }

    // The columns that are left to work out in a row of cells, by what is above the stage in its four lattice rows: often none, which the last column's cell
    // tells.
    pub fn due(&self, cells: &[usize]) -> Due
        requires { (0 < length cells.now) × Rising cells.now }
        ensures { (result.from ≤ length cells.now) × (result.to ≤ length cells.now) × Apart cells.now self.now.highs result.from result.to }
    {
        let w = cells.len();
        let [a, b, c, d] = self.highs;
        let first = a.first.min(b.first).min(c.first.min(d.first));
        let last = cells[w - 1] + 4;
        if last <= first {
            return Due { from: w, to: w };
        }
        let end = a.end.max(b.end).max(c.end.max(d.end));
        Due {
            from: due_from(cells, first),
            to: due_to(cells, end),
        }
    }
}
