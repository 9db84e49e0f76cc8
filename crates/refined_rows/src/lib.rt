// One row of a refined lattice, in two steps: weighed down the columns into a row of sums, and then along it.
#![tactic(auto)]

ghost use Rattle.std.specs.Prelude.{◌≡◌, [], ◌∷◌, ℕ, ◌+◌, ◌*◌, ◌≤◌, ◌<◌, pos, nat_abs, length, get_or};
ghost use Rattle.algebra.specs.Table.{tabulate, over};
ghost use Rattle.rules.specs.Rounding.{near};
ghost use Rattle.rules.specs.Grid.{control};
ghost use Rattle.rules.specs.Refinement as rule;
ghost use Rattle.refined_rows.specs.Read.{RowsRead};

// The two masks, by the parity of a new value's place. A place counts from 0, document 01's index from -1, so an odd place is an even index.
const MASKS: [[i64; 3]; 2] = [[4, 4, 0], [1, 6, 1]];

// The old values that a mask weighs stand at c, c + 1 and, for an odd place, c + 2: a mask of two gives its third value no weight.
fn weigh(odd: usize, a: i64, b: i64, c: i64) -> i64
    requires { (odd < 2) × (nat_abs a ≤ 32_000_000_000) × (nat_abs b ≤ 32_000_000_000) × (nat_abs c ≤ 32_000_000_000) }
    ensures { result ≡ rule.masked odd (λ i. get_or (a ∷ b ∷ c ∷ []) i (pos 0)) 0 }
{
    MASKS[odd][0] * a + MASKS[odd][1] * b + MASKS[odd][2] * c
}

// The same. It stands beside `weigh` for speed: with the parity tested first the table is read at a constant place, and a loop makes the test once.
fn masked(odd: usize, a: i64, b: i64, c: i64) -> i64
    requires { (odd < 2) × (nat_abs a ≤ 32_000_000_000) × (nat_abs b ≤ 32_000_000_000) × (nat_abs c ≤ 32_000_000_000) }
    ensures { result ≡ rule.masked odd (λ i. get_or (a ∷ b ∷ c ∷ []) i (pos 0)) 0 }
{
    if odd == 0 {
        weigh(0, a, b, c)
    } else {
        weigh(1, a, b, c)
    }
}

// The weighed sums down the columns for the new row t: places 0 to m + 2 of sums.
pub fn blend(m: usize, lattice: &[i64], t: usize, sums: &mut [i64; 259])
    requires { (m ≤ 256) × RowsRead m t lattice.now × (length sums.old ≡ 259) }
    ensures { sums.new ≡ over (tabulate (m + 3) (λ s. rule.finer (control m lattice.now s) t)) sums.old }
{
    let w = m + 3;
    let odd = t % 2;
    let a = t / 2 * w;
    let b = a + w;
    let c = b + odd * w;
    for s in 0..w {
        sums[s] = masked(odd, lattice[a + s], lattice[b + s], lattice[c + s]);
    }
}

// The new value at place 2c + odd of a row, from the sums down its columns.
fn refined_at(odd: usize, sums: &[i64; 259], c: usize) -> i64
    requires { (odd < 2) × (c + 1 + odd < 259) × ((s : ℕ) → s ≤ c + 1 + odd → nat_abs (get_or sums.now s (pos 0)) ≤ 32_000_000_000) }
    ensures { result ≡ near (rule.masked odd (λ s. get_or sums.now s (pos 0)) c) 64 }
{
    roundings::near_shift(masked(odd, sums[c], sums[c + 1], sums[c + 1 + odd]), 6)
}

// A new row of 2m + 3 values, from the sums down its columns.
pub fn refine_row(m: usize, sums: &[i64; 259], row: &mut [i64])
    requires { (m ≤ 256) × (2 * m + 3 ≤ length row.old) × ((s : ℕ) → s < m + 3 → nat_abs (get_or sums.now s (pos 0)) ≤ 32_000_000_000) }
    ensures { row.new ≡ over (tabulate (2 * m + 3) (λ s. near (rule.finer (λ q. get_or sums.now q (pos 0)) s) 64)) row.old }
{
    for c in 0..m + 1 {
        row[2 * c] = refined_at(0, sums, c);
        row[2 * c + 1] = refined_at(1, sums, c);
    }
    row[2 * m + 2] = refined_at(0, sums, m + 1);
}
