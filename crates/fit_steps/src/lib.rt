// The step of the running lattice: a level is added to it. It says by false that a sum leaves its range; what it writes to is then free. A yes or no, since
// its caller alone knows the level that a refusal names.
#![tactic(auto)]

ghost use Rattle.std.specs.Prelude.{◌≡◌, length};
ghost use Rattle.rules.specs.Laws.Checks.{AllInRange};
ghost use Rattle.fit_steps.specs.Steps.{summed, Written};

// A level lattice, added to a running one of as many values: false where a sum leaves its range. By itself its loop has registers enough.
#[inline(never)]
pub fn add(level: &[i64], running: &mut [i64]) -> bool
    requires as_many { length level.now ≡ length running.old }
    requires values_in_range { AllInRange (length level.now) level.now × AllInRange (length level.now) running.old }
    ensures { Written result 0 (length level.now) (summed (length level.now) running.old level.now) running.old running.new }
{
    for (q, added) in level.iter().enumerate() {
        let sum = running[q] + *added;
        if !range::in_range(sum) {
            return false;
        }
        running[q] = sum;
    }
    true
}
