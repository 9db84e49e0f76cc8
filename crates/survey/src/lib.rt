// A survey as a whole: the shape of its fit and its points, and the checks of both, which the fit and the point writer share: cell counts, levels and
// lists.
#![tactic(auto)]

ghost use Rattle.std.specs.Prelude.{◌≡◌, ◌≤◌, length};

mod headed;

pub use headed::head;

// The coarsest cells, m0 by n0, and levels 0 to h.
#[derive(Clone, Copy)]
pub struct Shape {
    pub m0: usize,
    pub n0: usize,
    pub h: usize,
}

// As many positions along x, positions along y, heights and confidences, and not too many.
#[derive(Clone, Copy)]
pub struct Points<'a> {
    pub xs: &'a [u16],
    pub ys: &'a [u16],
    pub zs: &'a [i64],
    pub qs: &'a [u8],
    ghost as_many: { (length ys.now ≡ length xs.now) × (length zs.now ≡ length xs.now) × (length qs.now ≡ length xs.now) × (length xs.now ≤ 65_535) },
}

impl Points<'_> {
    pub fn len(&self) -> usize
        ensures { result ≡ length self.now.xs.now }
    {
        self.xs.len()
    }
}
