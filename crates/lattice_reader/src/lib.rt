// The lattice file's reader: it accepts exactly the files of lattices in bounds.
#![tactic(auto)]

ghost use Rattle.std.specs.Prelude.{◌≡◌, ◌+◌, ◌*◌, ◌≤◌, length};
ghost use Rattle.algebra.specs.Table.{over};
ghost use Rattle.rules.specs.Grid.{controls};
ghost use Rattle.rules.specs.Answers.{outcome};
ghost use Rattle.rules.specs.LatticeFile as rule;
ghost use Rattle.answers.specs.Told.{told_as};
ghost use Rattle.grid.specs.Counts.{counts};
ghost use Rattle.lattice_reader.specs.Read.{values_from, lattice_from};

use answers::Refusal;
use grid::Cells;

// One row of values, from byte s on.
fn copy_row(file: &[u8], s: usize, row: &mut [i64])
    requires { s + 8 * length row.old ≤ length file.now }
    ensures { row.new ≡ over (values_from file.now s (length row.old)) row.old }
{
    for (c, z) in row.iter_mut().enumerate() {
        *z = codec::value_at(file, s + 8 * c);
    }
}

// The control values of a file that has been accepted. Each row is a range of the output, since no proof knows what stands in it after `chunks_mut`.
fn copy(file: &[u8], cells: Cells, output: &mut [i64])
    requires { (rule.row_start cells.m (cells.n + 3) ≤ length file.now) × (controls cells.m cells.n ≤ length output.old) }
    ensures { output.new ≡ over (lattice_from cells.m cells.n file.now) output.old }
{
    let width = cells.width();
    for r in 0..cells.rows() {
        let from = r * width;
        copy_row(
            file,
            lattice_layout::row_start(cells, r) + 4,
            &mut output[from..from + width],
        );
    }
}

// The whole file is judged before a value is written.
pub fn read_lattice(file: &[u8], output: &mut [i64]) -> Result<Cells, Refusal>
    ensures { outcome (told_as counts result) output.new ≡ rule.read_lattice_call file.now output.old }
{
    let cells = lattice_records::head(file)?;
    lattice_records::rows(file, cells)?;
    lattice_records::end(file, cells)?;
    if output.len() < cells.controls() {
        return Err(Refusal::Short);
    }
    copy(file, cells, output);
    Ok(cells)
}
