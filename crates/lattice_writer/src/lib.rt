// The lattice file's writer.
#![tactic(auto)]

ghost use Rattle.std.specs.Prelude.{◌≡◌, ◌+◌, ◌*◌, ◌≤◌, length};
ghost use Rattle.algebra.specs.Table.{over, joined, laid};
ghost use Rattle.rules.specs.Grid.{controls};
ghost use Rattle.rules.specs.Answers.{outcome};
ghost use Rattle.rules.specs.LatticeFile as rule;
ghost use Rattle.answers.specs.Told.{told};
ghost use Rattle.lattice_writer.specs.Written.{bytes_of_values};

use answers::Refusal;
use grid::Cells;
use records::{LE, LH, LR};

// The bytes of values, from byte s on.
fn put_values(values: &[i64], s: usize, output: &mut [u8])
    requires { s + 8 * length values.now ≤ length output.old }
    ensures { output.new ≡ laid s (bytes_of_values values.now (length values.now)) output.old }
{
    for (c, z) in values.iter().enumerate() {
        codec::put_value(output, s + 8 * c, *z);
    }
}

// Row record r.
fn put_row(lattice: &[i64], cells: Cells, r: usize, output: &mut [u8])
    requires { (r ≤ 514) × (r * (cells.m + 3) + (cells.m + 3) ≤ length lattice.now) × (rule.row_start cells.m r + rule.row_length cells.m ≤ length output.old) }
    ensures { output.new ≡ laid (rule.row_start cells.m r) (rule.row_record cells.m lattice.now r) output.old }
{
    let s = lattice_layout::row_start(cells, r);
    records::put_mark(output, s, LR);
    codec::put_u16(output, s + 2, r as u16);
    let width = cells.width();
    let from = r * width;
    put_values(&lattice[from..from + width], s + 4, output);
}

// All n + 3 row records.
fn put_rows(lattice: &[i64], cells: Cells, output: &mut [u8])
    requires { (controls cells.m cells.n ≤ length lattice.now) × (rule.row_start cells.m (cells.n + 3) ≤ length output.old) }
    ensures { output.new ≡ laid 6 (joined (cells.n + 3) (rule.row_record cells.m lattice.now)) output.old }
{
    for r in 0..cells.rows() {
        put_row(lattice, cells, r, output);
    }
}

// The file of a lattice, into an output that is long enough.
pub fn put_lattice(cells: Cells, lattice: &[i64], output: &mut [u8]) -> usize
    requires { (controls cells.m cells.n ≤ length lattice.now) × (rule.lattice_file_length cells.m cells.n ≤ length output.old) }
    ensures bytes_written { result ≡ rule.lattice_file_length cells.m cells.n }
    ensures output_after { output.new ≡ over (rule.lattice_file cells.m cells.n lattice.now) output.old }
{
    records::put_mark(output, 0, LH);
    codec::put_u16(output, 2, cells.m as u16);
    codec::put_u16(output, 4, cells.n as u16);
    put_rows(lattice, cells, output);
    let rows = cells.rows();
    let s = lattice_layout::row_start(cells, rows);
    records::put_mark(output, s, LE);
    codec::put_u16(output, s + 2, rows as u16);
    s + 4
}

// The lattice and the room for its file are judged before a byte is written.
pub fn write_lattice(
    m: usize,
    n: usize,
    lattice: &[i64],
    output: &mut [u8],
) -> Result<usize, Refusal>
    ensures { outcome (told result) output.new ≡ rule.write_lattice_call m n lattice.now output.old }
{
    checks::cells(512, m, n)?;
    let cells = Cells { m, n };
    if lattice.len() < cells.controls() {
        return Err(Refusal::Short);
    }
    if output.len() < lattice_layout::row_start(cells, cells.rows()) + 4 {
        return Err(Refusal::Short);
    }
    checks::lattice(cells, lattice)?;
    Ok(put_lattice(cells, lattice, output))
}
