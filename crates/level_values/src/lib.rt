// The control values of one level of the fit: each pair of sums becomes one, or is refused.
#![tactic(auto)]

ghost use Rattle.std.specs.Prelude.{◌≡◌, ◌*◌, ◌≤◌, length};
ghost use Rattle.rules.specs.Level as rule;
ghost use Rattle.float_near.specs.Settled.{settled_value};
ghost use Rattle.point_sums.specs.Sums.{sums_of};
ghost use Rattle.level_values.specs.Values.{coefficient_of, SettledAll};

use point_sums::Sums;

// "a control value is either fitted, with its quotient first over second, where the second sum is above 0, or untouched"
fn quotient_of(sums: Sums) -> Option<f64>
    ensures { coefficient_of result ≡ rule.coefficient (sums_of sums) }
{
    if 0.0 < sums.second {
        Some(sums.first / sums.second)
    } else {
        None
    }
}

// "untouched, which counts as 0. The quotient becomes near of its exact value"
fn settle(quotient: Option<f64>) -> Option<i64>
    ensures { settled_value result ≡ rule.settled (coefficient_of quotient) }
{
    match quotient {
        Some(q) => float_near::near_float(q),
        None => Some(0),
    }
}

// The control values of count pairs of sums, or false where one is refused: then their places are free. A yes or no, since its caller alone knows the level
// that a refusal names. By itself its loop has registers enough.
#[inline(never)]
pub fn settle_all(count: usize, sums: &[f64], level: &mut [i64]) -> bool
    requires { (2 * count ≤ length sums.now) × (count ≤ length level.old) × (count ≤ 265_225) }
    ensures { SettledAll count sums.now result level.old level.new }
{
    for q in 0..count {
        let pair = Sums {
            first: sums[q],
            second: sums[count + q],
        };
        match settle(quotient_of(pair)) {
            Some(z) => level[q] = z,
            None => return false,
        }
    }
    true
}
