// The records of a lattice file, judged: its head, its rows and its end.
#![tactic(auto)]

ghost use Rattle.std.specs.Prelude.{◌≡◌, ◌+◌, ◌*◌, ◌≤◌, length, IfOk};
ghost use Rattle.rules.specs.Answers.{first_of};
ghost use Rattle.rules.specs.LatticeFile as rule;
ghost use Rattle.answers.specs.Cause.{check};
ghost use Rattle.grid.specs.Counts.{counts};
ghost use Rattle.lattice_records.specs.Judged.{value_check, file_cells};

use answers::Refusal;
use grid::Cells;
use records::{LE, LH, LR};

// "LH" with m and n
pub fn head(file: &[u8]) -> Result<Cells, Refusal>
    ensures checked { check result ≡ rule.lattice_head_check file.now }
    ensures read { IfOk result (λ cells. counts cells ≡ file_cells file.now) }
{
    records::record(file, 0, 6, LH)?;
    let m = codec::u16_at(file, 2) as usize;
    let n = codec::u16_at(file, 4) as usize;
    if !checks::within(1, 512, m) {
        return Err(Refusal::Field(2));
    }
    if !checks::within(1, 512, n) {
        return Err(Refusal::Field(4));
    }
    Ok(Cells { m, n })
}

// The first of the values of a row that is out of range; they stand from byte s on.
fn values(file: &[u8], cells: Cells, s: usize) -> Result<(), Refusal>
    requires { s + 8 * (cells.m + 3) ≤ length file.now }
    ensures { check result ≡ first_of (cells.m + 3) (value_check file.now s) }
{
    for c in 0..cells.width() {
        let at = s + 8 * c;
        if !range::in_range(codec::value_at(file, at)) {
            return Err(Refusal::Field(at));
        }
    }
    Ok(())
}

// "LR" with its row number and its values
fn row(file: &[u8], cells: Cells, r: usize) -> Result<(), Refusal>
    requires { r ≤ 514 }
    ensures { check result ≡ rule.row_check cells.m file.now r }
{
    let s = lattice_layout::row_start(cells, r);
    records::record(file, s, lattice_layout::row_length(cells), LR)?;
    if codec::u16_at(file, s + 2) as usize != r {
        return Err(Refusal::Field(s + 2));
    }
    values(file, cells, s + 4)
}

// All n + 3 rows.
pub fn rows(file: &[u8], cells: Cells) -> Result<(), Refusal>
    ensures { check result ≡ first_of (cells.n + 3) (rule.row_check cells.m file.now) }
{
    for r in 0..cells.rows() {
        row(file, cells, r)?;
    }
    Ok(())
}

// "LE" with its count, and nothing after it
pub fn end(file: &[u8], cells: Cells) -> Result<(), Refusal>
    ensures { check result ≡ rule.end_check cells.m cells.n file.now }
{
    let s = lattice_layout::row_start(cells, cells.rows());
    records::record(file, s, 4, LE)?;
    if codec::u16_at(file, s + 2) as usize != cells.rows() {
        return Err(Refusal::Field(s + 2));
    }
    if file.len() != s + 4 {
        return Err(Refusal::Trailing(s + 4));
    }
    Ok(())
}
