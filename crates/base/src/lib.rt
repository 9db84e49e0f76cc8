// The base that a fit takes from every height, "near of the mean height, or 0 with no points", and 15: "where a difference is out of range".
#![tactic(auto)]

ghost use Rattle.std.specs.Prelude.{◌≡◌, ◌≤◌, nat_abs, length};
ghost use Rattle.algebra.specs.Table.{over};
ghost use Rattle.rules.specs.Answers.{answer};
ghost use Rattle.rules.specs.Grid.{limit};
ghost use Rattle.rules.specs.Fit as rule;
ghost use Rattle.rules.specs.Laws.Checks.{AllInRange};
ghost use Rattle.answers.specs.Cause.{check};
ghost use Rattle.answers.specs.Told.{told};

use answers::Refusal;

// near of the mean of p heights, 0 of none
fn near_mean(sum: i64, p: usize) -> i64
    requires { (nat_abs sum ≤ 262_140_000_000_000) × (p ≤ 65_535) }
    ensures { result ≡ rule.near_mean sum p }
{
    if p == 0 {
        return 0;
    }
    roundings::near_any(sum, p)
}

// 15, height by height.
fn first_far(zs: &[i64], base: i64) -> Result<(), Refusal>
    requires { AllInRange (length zs.now) zs.now × (base ≡ rule.base zs.now) }
    ensures { check result ≡ rule.difference_check zs.now }
{
    for (i, z) in zs.iter().enumerate() {
        if !range::in_range(*z - base) {
            return Err(Refusal::Difference(i));
        }
    }
    Ok(())
}

// The base of heights with this sum, in one pass that tests none by itself; only where it finds a difference out of range is there another, for the first.
pub fn settle(zs: &[i64], sum: i64) -> Result<i64, Refusal>
    requires { (length zs.now ≤ 65_535) × AllInRange (length zs.now) zs.now × (sum ≡ rule.total (length zs.now) zs.now) }
    ensures { told result ≡ answer (rule.difference_check zs.now) (rule.base zs.now) }
{
    let base = near_mean(sum, zs.len());
    if !range::all_shifted(zs, 0 - base) {
        first_far(zs, base)?;
    }
    Ok(base)
}

// b added to each of the values in range, at the start of to.
pub fn shift(values: &[i64], b: i64, to: &mut [i64])
    requires { (length values.now ≤ length to.old) × AllInRange (length values.now) values.now × (nat_abs b ≤ limit) }
    ensures { to.new ≡ over (rule.shifted b values.now) to.old }
{
    for (i, value) in values.iter().enumerate() {
        to[i] = *value + b;
    }
}
