// Values in range, one by one and in a scan of many.
#![tactic(auto)]

ghost use Rattle.std.specs.Prelude.{◌≡◌, ℕ, ◌+◌, ◌^◌, ◌<◌, ◌≤◌, length, nat_lt, unsigned_abs};
ghost use Rattle.rules.specs.Answers as rule;
ghost use Rattle.rules.specs.Fit.{shifted};
ghost use Rattle.rules.specs.Grid.{limit, in_range};
ghost use Rattle.rules.specs.Laws.Checks.{AllInRange, NoneOut, SomeOut, FirstOut};
ghost use Rattle.answers.specs.Cause.{ok_check};
ghost use Rattle.range.specs.Found.{found_check};

// "whole micrometres from -4,000,000,000 to 4,000,000,000"
pub fn in_range(z: i64) -> bool
    ensures { result ≡ in_range z }
{
    -4_000_000_000 <= z && z <= 4_000_000_000
}

// 64 bits, the top one 0 exactly if z is in range: how far z is above the least value in range and how far below the greatest. Past either end one
// of the two is negative, and its top bit 1.
fn range_bits(z: i64) -> u64
    ensures { nat_lt result (2 ^ 63) ≡ in_range z }
{
    let bits = codec::to_bits(z);
    bits.wrapping_add(4_000_000_000) | 4_000_000_000u64.wrapping_sub(bits)
}

// Whether the values of a block are in range. The loop tests no value, so that it is fast: "or" keeps the top bit of every one.
fn all_in_range(block: &[i64]) -> bool
    ensures { (r : rule.Refusal) → rule.range_check (length block.now) block.now (λ i. r) ≡ ok_check result r }
{
    let mut bits = 0u64;
    for z in block {
        bits |= range_bits(*z);
    }
    bits < 9_223_372_036_854_775_808
}

// How many of n values stand before the first block of 64 that has one out of range; all n if no block has. Fewer than 64 that are left are looked at
// with some before them, as the last 64.
fn passed(values: &[i64], n: usize) -> usize
    requires a_block { 64 ≤ n }
    requires inside { n ≤ length values.now }
    ensures within { result ≤ n }
    ensures none_before { NoneOut result values.now }
    ensures some_behind { result < n → SomeOut n values.now }
{
    for block in 0..n.div_ceil(64) {
        let start = (64 * block).min(n - 64);
        if !all_in_range(&values[start..start + 64]) {
            return start;
        }
    }
    n
}

// The first value out of range, where there is one and none before `start`: value by value. A `while`, since with no end to test for it is faster than
// `position`.
fn search(values: &[i64], start: usize) -> usize
    requires none_before { NoneOut start values.now }
    requires some_out { SomeOut (length values.now) values.now }
    ensures { FirstOut result values.now }
{
    let mut i = start;
    while in_range(values[i]) {
        i += 1;
    }
    i
}

// The first of n values that is out of range: block by block, and then value by value in the block that has it. Every scan of a stored lattice is
// this one. Fewer than 64 values are one block. Of 64 or more the first is tested before any block, so that a lattice that is wrong from its
// start is refused at once.
pub fn first_out(values: &[i64], n: usize) -> Option<usize>
    requires { n ≤ length values.now }
    ensures { (f : ℕ → rule.Refusal) → rule.range_check n values.now f ≡ found_check f result }
{
    let mut start = 0;
    if n < 64 {
        if all_in_range(&values[..n]) {
            return None;
        }
    } else {
        if !in_range(values[0]) {
            return Some(0);
        }
        start = passed(values, n);
        if start == n {
            return None;
        }
    }
    Some(search(values, start))
}

// Whether values in range are still in range with b added to each. As in a block of a scan, none is tested by itself.
pub fn all_shifted(values: &[i64], b: i64) -> bool
    requires { AllInRange (length values.now) values.now × (unsigned_abs b ≤ limit) }
    ensures { (r : rule.Refusal) → rule.range_check (length values.now) (shifted b values.now) (λ i. r) ≡ ok_check result r }
{
    let mut bits = 0u64;
    for z in values {
        bits |= range_bits(*z + b);
    }
    bits < 9_223_372_036_854_775_808
}
