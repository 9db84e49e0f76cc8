// Refinement of a control lattice: m by n cells become 2m by 2n, row by row.
#![tactic(auto)]

ghost use Rattle.std.specs.Prelude.{◌≡◌, ◌*◌, ◌≤◌, length};
ghost use Rattle.algebra.specs.Table.{over};
ghost use Rattle.rules.specs.Grid.{controls, control, store};
ghost use Rattle.rules.specs.Refinement as rule;
ghost use Rattle.rules.specs.Answers.{outcome};
ghost use Rattle.rules.specs.Calls.{refine_call};
ghost use Rattle.rules.specs.Laws.Checks.{AllInRange};
ghost use Rattle.answers.specs.Told.{told_as};
ghost use Rattle.grid.specs.Counts.{counts};

use answers::Refusal;
use grid::Cells;

// The refinement of a lattice that is known to be long enough and in range, into an output that is long enough.
pub fn refine_within(cells: Cells, lattice: &[i64], output: &mut [i64])
    requires few { (cells.m ≤ 256) × (cells.n ≤ 256) }
    requires stored { controls cells.m cells.n ≤ length lattice.now }
    requires ranged { AllInRange (controls cells.m cells.n) lattice.now }
    requires room { controls (2 * cells.m) (2 * cells.n) ≤ length output.old }
    ensures { output.new ≡ over (store (2 * cells.m) (2 * cells.n) (rule.refined (control cells.m lattice.now))) output.old }
{
    let mut sums = [0; 259];
    let width = 2 * cells.m + 3;
    for t in 0..2 * cells.n + 3 {
        refined_rows::blend(cells.m, lattice, t, &mut sums);
        let start = t * width;
        refined_rows::refine_row(cells.m, &sums, &mut output[start..start + width]);
    }
}

// m by n cells become 2m by 2n, behind document 01's checks in their order.
pub fn refine(m: usize, n: usize, lattice: &[i64], output: &mut [i64]) -> Result<Cells, Refusal>
    ensures { outcome (told_as counts result) output.new ≡ refine_call m n lattice.now output.old }
{
    checks::cells(256, m, n)?;
    let cells = Cells { m, n };
    let refined = Cells { m: 2 * m, n: 2 * n };
    if lattice.len() < cells.controls() {
        return Err(Refusal::Short);
    }
    if output.len() < refined.controls() {
        return Err(Refusal::Short);
    }
    checks::lattice(cells, lattice)?;
    refine_within(cells, lattice, output);
    Ok(refined)
}
