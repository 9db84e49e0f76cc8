// The weights of a point, in f64 to the bit: the four of each axis, their sixteen products and the sum of their squares.
#![tactic(auto)]

ghost use Rattle.std.specs.Prelude.{◌≡◌, ◌^◌, ◌≤◌, nat_abs};
ghost use Rattle.algebra.specs.Table.{tabulate};
ghost use Rattle.rules.specs.Level as rule;
ghost use Rattle.weights.specs.Block.{block_of, weight_at};

// A whole number that f64 holds.
fn exact(v: i64) -> f64
    requires { nat_abs v ≤ 2 ^ 53 }
    ensures { result ≡ rule.float v }
{
    v as f64
}

// "Bk and Cl are numerator divided by 6U³"
pub fn axis(e: u32, a: usize) -> [f64; 4]
    requires { (e ≤ 9) × (a ≤ 2 ^ e) }
    ensures { result ≡ tabulate 4 (rule.basis (2 ^ e) a) }
{
    let b = basis::basis_of(1 << e, a);
    let d = exact(6 << (3 * e));
    [
        exact(b.b0) / d,
        exact(b.b1) / d,
        exact(b.b2) / d,
        exact(b.b3) / d,
    ]
}

// "The sixteen weights form a four by four block, w = Bk × Cl"
pub fn block(b: [f64; 4], c: [f64; 4]) -> [[f64; 4]; 4]
    ensures { result ≡ block_of b c }
{
    let [b0, b1, b2, b3] = b;
    let [c0, c1, c2, c3] = c;
    [
        [b0 * c0, b0 * c1, b0 * c2, b0 * c3],
        [b1 * c0, b1 * c1, b1 * c2, b1 * c3],
        [b2 * c0, b2 * c1, b2 * c2, b2 * c3],
        [b3 * c0, b3 * c1, b3 * c2, b3 * c3],
    ]
}

// "S adds w × w from 0, k outer, l inner"
pub fn squares(w: [[f64; 4]; 4]) -> f64
    ensures { result ≡ rule.squares (weight_at w) }
{
    let mut s = 0.0;
    for k in 0..4 {
        for l in 0..4 {
            let v = w[k][l];
            s += v * v;
        }
    }
    s
}
