// The cells of a grid, and a grid whose cells have a size: what heights are read on.
#![tactic(auto)]

ghost use Rattle.std.specs.Prelude.{◌≡◌, ◌+◌, ◌^◌, ◌≤◌};
ghost use Rattle.rules.specs.Grid.{controls};
ghost use Rattle.rules.specs.Laws.Passed.{Gridded};

// m by n cells, 512 a side at most.
#[derive(Clone, Copy)]
pub struct Cells {
    pub m: usize,
    pub n: usize,
    ghost few: { (m ≤ 512) × (n ≤ 512) },
}

impl Cells {
    // How many control values a lattice row over the cells has.
    pub fn width(self) -> usize
        ensures { result ≡ self.m + 3 }
    {
        self.m + 3
    }

    // How many rows the lattice has.
    pub fn rows(self) -> usize
        ensures { result ≡ self.n + 3 }
    {
        self.n + 3
    }

    // How many control values it has.
    pub fn controls(self) -> usize
        ensures { result ≡ controls self.m self.n }
    {
        self.width() * self.rows()
    }
}

// Cells of U positions a side, where U is 2^e.
#[derive(Clone, Copy)]
pub struct Grid {
    pub cells: Cells,
    pub e: u32,
    ghost gridded: { Gridded cells.m cells.n e },
}

impl Grid {
    // U
    pub fn unit(self) -> usize
        ensures { result ≡ 2 ^ self.e }
    {
        1 << self.e
    }
}
