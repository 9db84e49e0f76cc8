// What the caller of a fit lends: whether there is room in it, and the results that are put there.
#![tactic(auto)]

ghost use Rattle.std.specs.Prelude.{◌≡◌, ◌+◌, ◌*◌, ◌%◌, ◌≤◌, nat_abs, length};
ghost use Rattle.algebra.specs.Table.{over, area};
ghost use Rattle.rules.specs.Grid.{limit};
ghost use Rattle.rules.specs.Fit.{shifted};
ghost use Rattle.rules.specs.Calls.{room_check};
ghost use Rattle.rules.specs.Laws.Checks.{AllInRange};
ghost use Rattle.answers.specs.Cause.{check};

use answers::Refusal;

// 4: "For p points the caller lends at least: lattice K, residuals p, whole scratch 3K+p, f64 scratch 2K".
// Lengths alone, since it reads none of the slices.
#[tactic(auto, unfolding(rules::specs::Calls::room_check, rules::specs::Answers::require))]
pub fn room(
    most: usize,
    p: usize,
    lattice: usize,
    residual: usize,
    whole: usize,
    floats: usize,
) -> Result<(), Refusal>
    requires { (most ≤ 265_225) × (p ≤ 65_535) }
    ensures { check result ≡ room_check most p lattice residual whole floats }
{
    if lattice < most || residual < p || whole < 3 * most + p || floats < 2 * most {
        return Err(Refusal::Short);
    }
    Ok(())
}

// The values at the start of to, one by one: the library's own copy asks the host's C library for `memmove`.
fn copy(values: &[i64], to: &mut [i64])
    requires { length values.now ≤ length to.old }
    ensures { to.new ≡ over values.now to.old }
{
    for (i, value) in values.iter().enumerate() {
        to[i] = *value;
    }
}

// The last running lattice with the base added, and the last residuals, from their areas to the caller's slices.
// Counts, and no shape or points, since those types would ask more of its callers.
pub fn deliver(
    h: usize,
    most: usize,
    p: usize,
    base: i64,
    whole: &[i64],
    lattice: &mut [i64],
    residual: &mut [i64],
)
    requires rooms { (most ≤ 265_225) × (3 * most + p ≤ length whole.now) × (most ≤ length lattice.old) × (p ≤ length residual.old) }
    requires values_in_range { AllInRange most (area (h % 2 * most) most whole.now) × (nat_abs base ≤ limit) }
    ensures lattice_after { lattice.new ≡ over (shifted base (area (h % 2 * most) most whole.now)) lattice.old }
    ensures residual_after { residual.new ≡ over (area (3 * most) p whole.now) residual.old }
{
    let from = h % 2 * most;
    let to = from + most;
    base::shift(&whole[from..to], base, lattice);
    let residuals = 3 * most;
    let end = residuals + p;
    copy(&whole[residuals..end], residual);
}
