// One point's part in the sums of its sixteen control values, in f64 to the bit.
#![tactic(auto)]

ghost use Rattle.std.specs.Prelude.{◌≡◌, ◌+◌, ◌*◌, ◌≤◌, ◌<◌, length};
ghost use Rattle.algebra.specs.Table.{tabulate};
ghost use Rattle.rules.specs.Grid.{controls};
ghost use Rattle.rules.specs.Level as rule;
ghost use Rattle.weights.specs.Block.{weight_at};
ghost use Rattle.point_sums.specs.Sums.{sums_of, pair_of, block_added};

use grid::Cells;

// The two running sums of a control value. In scratch the first sums of all control values stand before the second sums.
#[derive(Drop)]
pub struct Sums {
    pub first: f64,
    pub second: f64,
}

// "The two sums grow by (q × (w × w)) × ((w × z) / S) and q × (w × w)". The confidence goes by its whole name, since q is a place here.
fn grown(first: f64, second: f64, confidence: f64, w: f64, z: f64, s: f64) -> Sums
    ensures { sums_of result ≡ rule.grown confidence w z s (record { first = first; second = second }) }
{
    let pull = confidence * (w * w);
    Sums {
        first: first + pull * ((w * z) / s),
        second: second + pull,
    }
}

// The four control values of one lattice row that a point's cell uses, by their first sums and their second sums: the weights of the block with
// second index l. All four pairs are read before any is put back, so that the compiler divides two at a time; and put back one by one, since
// `copy_from_slice` is slower by a quarter: it tests whether the two slices overlap.
fn add_row(
    first: &mut [f64],
    second: &mut [f64],
    confidence: f64,
    w: [[f64; 4]; 4],
    l: usize,
    z: f64,
    s: f64,
)
    requires { (length first.old ≡ 4) × (length second.old ≡ 4) × (l < 4) }
    ensures first_sums { first.new ≡ tabulate 4 (λ k. (rule.grown confidence (weight_at w k l) z s (pair_of first.old second.old k)).first) }
    ensures second_sums { second.new ≡ tabulate 4 (λ k. (rule.grown confidence (weight_at w k l) z s (pair_of first.old second.old k)).second) }
{
    let p0 = grown(first[0], second[0], confidence, w[0][l], z, s);
    let p1 = grown(first[1], second[1], confidence, w[1][l], z, s);
    let p2 = grown(first[2], second[2], confidence, w[2][l], z, s);
    let p3 = grown(first[3], second[3], confidence, w[3][l], z, s);
    first[0] = p0.first;
    first[1] = p1.first;
    first[2] = p2.first;
    first[3] = p3.first;
    second[0] = p0.second;
    second[1] = p1.second;
    second[2] = p2.second;
    second[3] = p3.second;
}

// A point's sixteen control values from place q of the cells' lattice on: the block's first index goes along the lattice row, the second from row
// to row. First sums stand apart from second ones.
pub fn add_block(
    cells: Cells,
    q: usize,
    confidence: f64,
    w: [[f64; 4]; 4],
    z: f64,
    sums: &mut [f64],
)
    requires inside { q + 3 * (cells.m + 3) + 4 ≤ controls cells.m cells.n }
    requires room { 2 * controls cells.m cells.n ≤ length sums.old }
    ensures { sums.new ≡ block_added confidence (weight_at w) z (cells.m + 3) (controls cells.m cells.n) sums.old q }
{
    let s = weights::squares(w);
    let (first, second) = sums.split_at_mut(cells.controls());
    for l in 0..4 {
        let start = q + l * cells.width();
        add_row(
            &mut first[start..start + 4],
            &mut second[start..start + 4],
            confidence,
            w,
            l,
            z,
            s,
        );
    }
}
