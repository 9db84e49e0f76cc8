// The nodes of a raster: columns × rows positions from (x0, y0) at one step, row by row, and their checks.
#![tactic(auto)]

ghost use Rattle.std.specs.Prelude.{◌≡◌, ◌*◌, ◌≤◌, ◌<◌};
ghost use Rattle.rules.specs.Calls.{default_step, step_of, size_check, nodes_check};
ghost use Rattle.answers.specs.Cause.{check};
ghost use Rattle.nodes.specs.Nodes.{nodes_of, nodes_asked};

use answers::Refusal;

// "Step 0 now stands for 8"
const DEFAULT_STEP: usize = 8;

// what a caller's step stands for; never 0
pub fn step_of(step: usize) -> usize
    ensures { (result ≡ step_of default_step step) × (0 < result) }
{
    if step == 0 { DEFAULT_STEP } else { step }
}

// A caller may ask for step 0, so that no step is 0 stays a clause of what divides by it: a second struct of these five fields would be no plainer.
#[derive(Clone, Copy)]
pub struct Nodes {
    pub x0: usize,
    pub y0: usize,
    pub step: usize,
    pub columns: usize,
    pub rows: usize,
}

impl Nodes {
    // The nodes that a caller asks for, whose step may be 0.
    pub fn at_default(self) -> Nodes
        ensures { (nodes_of result ≡ nodes_asked self) × (0 < result.step) }
    {
        Nodes {
            step: step_of(self.step),
            ..self
        }
    }

    // 8: "step above 8,192, or columns or rows above 8,193"
    pub fn sizes(self) -> Result<(), Refusal>
        ensures { check result ≡ size_check self.step self.columns self.rows }
    {
        if 8_192 < self.step {
            return Err(Refusal::Size);
        }
        if 8_193 < self.columns {
            return Err(Refusal::Size);
        }
        if 8_193 < self.rows {
            return Err(Refusal::Size);
        }
        Ok(())
    }

    // How many nodes there are.
    pub fn count(self) -> usize
        requires { (self.columns ≤ 8_193) × (self.rows ≤ 8_193) }
        ensures { result ≡ self.columns * self.rows }
    {
        self.rows * self.columns
    }

    // 5: the first node outside, where nodes go row by row. Positions past the grid are never computed: x0 and y0 are tested first.
    pub fn positions(self, right: usize, top: usize) -> Result<(), Refusal>
        requires { (right ≤ 262_144) × (top ≤ 262_144) × (0 < self.step) × (self.columns ≤ 8_193) × (self.rows ≤ 8_193) }
        ensures { check result ≡ nodes_check right top (nodes_of self) }
    {
        if self.columns == 0 {
            return Ok(());
        }
        if self.rows == 0 {
            return Ok(());
        }
        if right < self.x0 {
            return Err(Refusal::Position(0));
        }
        if top < self.y0 {
            return Err(Refusal::Position(0));
        }
        let across = (right - self.x0) / self.step + 1;
        if across < self.columns {
            return Err(Refusal::Position(across));
        }
        let down = (top - self.y0) / self.step + 1;
        if down < self.rows {
            return Err(Refusal::Position(down * self.columns));
        }
        Ok(())
    }
}
