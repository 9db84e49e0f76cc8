// "The quotient becomes near of its exact value; a quotient that is no number or rounds out of range is refused": near of an f64.
#![tactic(auto)]

ghost use Rattle.std.specs.Prelude.{◌≡◌};
ghost use Rattle.rules.specs.Level.{near_float, kept};
ghost use Rattle.float_near.specs.Settled.{settled_value};

// 1.5 × 2^52. From 2^52 to 2^53 the f64 numbers are the whole numbers, so a sum with a number of either sign below 2^51 in size rounds to a whole one.
const SHIFT: f64 = 6755399441055744.0;

// (q + SHIFT) - SHIFT is the nearest whole number to q, an exact half going to the even one, which is what near asks: f64 rounds the sum so,
// SHIFT itself is even, and the difference is exact.
// The two ends go to the even ±4,000,000,000 and are kept. Refused is what lies beyond them, and a NaN, which is neither below nor at anything.
// No step depends on q's sign: a branch on it would be mispredicted half the time.
pub fn near_float(q: f64) -> Option<i64>
    ensures { settled_value result ≡ kept (near_float q) }
{
    if q < -4000000000.5 {
        return None;
    }
    if q <= 4000000000.5 {
        let n = ((q + SHIFT) - SHIFT) as i64;
        return Some(n);
    }
    None
}
