// near over any divisor; and over those that the surface and its slopes have, without a general division: a power of two, which 2U³ is for U = 2^e, by
// a shift, and 6U³ = 3·2^(3e+1) by a shift and a division by 3.
#![tactic(auto)]

ghost use Rattle.std.specs.Prelude.{◌≡◌, ◌↔◌, ◌+◌, ◌*◌, ◌/◌, ◌%◌, ◌^◌, ◌≤◌, ◌<◌, ℤ, pos, nat_abs, ◌<ℤ◌};
ghost use Rattle.rules.specs.Rounding.{floor, near};
ghost use Rattle.rules.specs.Surface.{denominator};
ghost use Rattle.rules.specs.Slope.{slope_denominator};
ghost use Rattle.rules.specs.Laws.Rounding.{odd};

// What the roundings by a shift do: w has half of the divisor in it, less 1, and the divisor is 2^s or 3·2^s. At an exact half w is 1 below a multiple of
// the divisor, and the lowest digit of w / 2^s, added, takes it there if the lower of the two neighbours is odd. Elsewhere that digit moves w across no
// multiple of the divisor.
fn to_even(w: u64, s: u32) -> u64
    requires { (w < 9_223_372_036_854_775_808) × (s ≤ 28) }
    ensures { result ≡ (w + w / 2 ^ s % 2) / 2 ^ s }
{
    (w + ((w >> s) & 1)) >> s
}

// near(v / 2^s). 2^62 is added first, so that nothing below 0 is shifted, and the compiler can take two values at a time.
pub fn near_shift(v: i64, s: u32) -> i64
    requires { (nat_abs v ≤ 3_300_000_000_000_000_000) × (1 ≤ s) × (s ≤ 28) }
    ensures { result ≡ near v (2 ^ s) }
{
    let w = (v + (4_611_686_018_427_387_903 + (1 << (s - 1)))) as u64;
    to_even(w, s) as i64 - (1 << (62 - s))
}

// floor(v / d)
fn floor_over(v: i64, d: usize) -> i64
    requires { (nat_abs v ≤ 4_611_686_018_427_387_904) × (1 ≤ d) × (d ≤ 4_294_967_296) }
    ensures { result ≡ floor v d }
{
    v.div_euclid(d as i64)
}

// The lowest digit of v: 0 if it is even, else 1.
fn lowest(v: i64) -> i64
    requires { nat_abs v ≤ 2_000_000_000_000_000_000 }
    ensures { result ≡ pos (odd v) }
{
    v.rem_euclid(2)
}

// near(v / d), for any d: the floor of (2v + d) / 2d, or of (2v + d - 1) / 2d if the floor of v / d is even, so that an exact half stays at it.
pub fn near_any(v: i64, d: usize) -> i64
    requires { (nat_abs v ≤ 2_000_000_000_000_000_000) × (1 ≤ d) × (d ≤ 2_147_483_648) }
    ensures { result ≡ near v d }
{
    let half = d as i64 - 1 + lowest(floor_over(v, d));
    floor_over(2 * v + half, 2 * d)
}

// The quotient by 6U³ of a sum with 3U³ - 1 in it, an exact half to the even one.
fn sixths(w: u64, e: u32) -> i64
    requires { (w < 9_223_372_036_854_775_808) × (e ≤ 9) }
    ensures { result ≡ pos ((w + w / 2 ^ (3 * e + 1) % 2) / 2 ^ (3 * e + 1) / 3) }
{
    (to_even(w, 3 * e + 1) / 3) as i64
}

// near(v / 6U³). 3·2^60 is added first, so that nothing below 0 is divided: what a fit reads lies on both sides of its base, and a test of the sign would be
// mispredicted half the time.
pub fn near_over(v: i64, e: u32) -> i64
    requires { (nat_abs v ≤ 3_221_225_472_000_000_000) × (e ≤ 9) }
    ensures { result ≡ near v (denominator (2 ^ e)) }
{
    let w = (v + (3_458_764_513_820_540_927 + (3 << (3 * e)))) as u64;
    sixths(w, e) - (1 << (59 - 3 * e))
}

// The same, by a test of the sign, since near of a negative number is the negative of near: shorter, and as good for a raster, whose sums have one sign for
// long.
pub fn near_over_tested(v: i64, e: u32) -> i64
    requires { (nat_abs v ≤ 3_221_225_472_000_000_000) × (e ≤ 9) }
    ensures { result ≡ near v (denominator (2 ^ e)) }
{
    let half = (3 << (3 * e)) - 1;
    if v < 0 {
        0 - sixths((half - v) as u64, e)
    } else {
        sixths((half + v) as u64, e)
    }
}

// The greatest v for which near(v / 6U³) is not above z: at the half itself if z is even, else 1 below it. A test of v spares the rounding.
pub fn most_under(z: i64, e: u32) -> i64
    requires { (nat_abs z ≤ 4_000_000_000) × (e ≤ 9) }
    ensures { (v : ℤ) → (z <ℤ near v (denominator (2 ^ e))) ↔ (result <ℤ v) }
{
    let half = 3 << (3 * e);
    2 * half * z + (half - lowest(z))
}

// near(v / 2U³)
pub fn near_over_slope(v: i64, e: u32) -> i64
    requires { (nat_abs v ≤ 3_221_225_472_000_000_000) × (e ≤ 9) }
    ensures { result ≡ near v (slope_denominator (2 ^ e)) }
{
    near_shift(v, 3 * e + 1)
}
