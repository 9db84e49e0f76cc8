// The second half of a level: its running lattice.
#![tactic(auto)]

ghost use Rattle.std.specs.Prelude.{◌≡◌, ◌-◌, ◌*◌, ◌%◌, ◌≤◌, length};
ghost use Rattle.algebra.specs.Table.{Free, laid, area};
ghost use Rattle.rules.specs.Grid.{controls, control, store};
ghost use Rattle.rules.specs.Refinement.{refined};
ghost use Rattle.rules.specs.Laws.Checks.{AllInRange};
ghost use Rattle.rules.specs.Fit as rule;
ghost use Rattle.answers.specs.Cause.{check};
ghost use Rattle.scratch.specs.Scratch.{Celled, LevelThere, SecondHalf};

use answers::Refusal;
use grid::Cells;

// The running lattice before level k refined, from the one of two areas to the other: running lattices take those at 0 and at `most` by turns.
fn refine_turn(half: Cells, k: usize, most: usize, whole: &mut [i64])
    requires cells { (1 ≤ k) × (half.m ≤ 256) × (half.n ≤ 256) }
    requires room { (controls half.m half.n ≤ most) × (controls (2 * half.m) (2 * half.n) ≤ most) × (2 * most ≤ length whole.old) }
    requires values_in_range { AllInRange (controls half.m half.n) (area ((k - 1) % 2 * most) (controls half.m half.n) whole.old) }
    ensures { whole.new ≡ laid (k % 2 * most) (store (2 * half.m) (2 * half.n) (refined (control half.m (area ((k - 1) % 2 * most) (controls half.m half.n) whole.old)))) whole.old }
{
    let before = half.controls();
    let (even, odd) = whole.split_at_mut(most);
    if k % 2 == 0 {
        refinement::refine_within(half, &odd[..before], even);
    } else {
        refinement::refine_within(half, &even[..before], odd);
    }
}

// The running lattice of level k: level lattice 0, or the running lattice before it, refined, and level lattice k added.
pub fn raise_level(cells: Cells, k: usize, most: usize, whole: &mut [i64]) -> Result<(), Refusal>
    requires { ((a : rule.Shape) × (s : rule.Survey) × Celled a k most cells.m cells.n × LevelThere a s most k whole.old) × (3 * most ≤ length whole.old) }
    ensures second_half { (a : rule.Shape) (s : rule.Survey) → Celled a k most cells.m cells.n → LevelThere a s most k whole.old → SecondHalf a s most k (check result) whole.new }
    ensures free { Free 0 (2 * most) whole.old whole.new }
{
    let count = cells.controls();
    let level = 2 * most;
    if k == 0 {
        whole.copy_within(level..level + count, 0);
        return Ok(());
    }
    let half = Cells {
        m: cells.m / 2,
        n: cells.n / 2,
    };
    refine_turn(half, k, most, whole);
    let to = k % 2 * most;
    let end = to + count;
    let (running, levels) = whole.split_at_mut(level);
    if !fit_steps::add(&levels[..count], &mut running[to..end]) {
        return Err(Refusal::Sum(k));
    }
    Ok(())
}
