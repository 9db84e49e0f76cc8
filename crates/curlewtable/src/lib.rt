// The C boundary: every call of documents 01 and 02 on numbers and slices, with the contract of the function below it. The header is include/curlewtable.h.
#![tactic(auto)]

ghost use Rattle.std.specs.Prelude.{◌≡◌};
ghost use Rattle.rules.specs.Fit.{shape, survey};
ghost use Rattle.rules.specs.Calls as calls;
ghost use Rattle.rules.specs.Above as rule;
ghost use Rattle.rules.specs.Storage as pond;
ghost use Rattle.rules.specs.Stage.{LowestStage, stage_for_answer};
ghost use Rattle.rules.specs.Demand3.{CloseEverywhere};
ghost use Rattle.rules.specs.LatticeFile as lattice_file;
ghost use Rattle.rules.specs.PointFile as point_file;
ghost use Rattle.storage.specs.Sampled.{Sampled, sampled_answer};
ghost use Rattle.fields.specs.Fields.{handed, in_fields, cells_fields, height_fields, slope_fields, count_fields, header_fields, above_fields, storage_fields, stage_fields};

use fields::{
    AboveAnswer, CellsAnswer, CountAnswer, HeaderAnswer, HeightAnswer, SlopeAnswer, StageAnswer,
    StorageAnswer,
};
use nodes::Nodes;
use survey::Shape;

#[unsafe(no_mangle)]
pub extern "C" fn curlew_fit(
    m0: usize,
    n0: usize,
    h: usize,
    x: &[u16],
    y: &[u16],
    z: &[i64],
    q: &[u8],
    lattice: &mut [i64],
    residual: &mut [i64],
    whole: &mut [i64],
    floats: &mut [f64],
) -> CellsAnswer
    ensures answer { handed result (calls.lent lattice.new residual.new whole.new floats.new) ≡ in_fields cells_fields (calls.fit_call (shape m0 n0 h) (survey x.now y.now z.now q.now) (calls.lent lattice.old residual.old whole.old floats.old)) }
    ensures close_everywhere { result.number ≡ 0 → CloseEverywhere (shape m0 n0 h) (survey x.now y.now z.now q.now) (record { m = result.m; n = result.n }) lattice.new }
{
    let shape = Shape { m0, n0, h };
    fit::fit(shape, x, y, z, q, lattice, residual, whole, floats).into()
}

#[unsafe(no_mangle)]
pub extern "C" fn curlew_height_at(
    m: usize,
    n: usize,
    unit: usize,
    lattice: &[i64],
    x: usize,
    y: usize,
) -> HeightAnswer
    ensures { result ≡ height_fields (calls.height_answer m n unit lattice.now x y) }
{
    heights::height(m, n, unit, lattice, x, y).into()
}

#[unsafe(no_mangle)]
pub extern "C" fn curlew_slope_at(
    m: usize,
    n: usize,
    unit: usize,
    lattice: &[i64],
    x: usize,
    y: usize,
) -> SlopeAnswer
    ensures { result ≡ slope_fields (calls.slope_answer m n unit lattice.now x y) }
{
    slopes::slope(m, n, unit, lattice, x, y).into()
}

#[unsafe(no_mangle)]
pub extern "C" fn curlew_refine(
    m: usize,
    n: usize,
    lattice: &[i64],
    output: &mut [i64],
) -> CellsAnswer
    ensures { handed result output.new ≡ in_fields cells_fields (calls.refine_call m n lattice.now output.old) }
{
    refinement::refine(m, n, lattice, output).into()
}

#[unsafe(no_mangle)]
pub extern "C" fn curlew_raster(
    m: usize,
    n: usize,
    unit: usize,
    lattice: &[i64],
    x0: usize,
    y0: usize,
    step: usize,
    columns: usize,
    rows: usize,
    output: &mut [i64],
) -> CountAnswer
    ensures { handed result output.new ≡ in_fields count_fields (calls.raster_call m n unit lattice.now (calls.nodes x0 y0 step columns rows) output.old) }
{
    let nodes = Nodes {
        x0,
        y0,
        step,
        columns,
        rows,
    };
    raster::raster(m, n, unit, lattice, nodes, output).into()
}

#[unsafe(no_mangle)]
pub extern "C" fn curlew_any_above(
    m: usize,
    n: usize,
    unit: usize,
    lattice: &[i64],
    x0: usize,
    y0: usize,
    step: usize,
    columns: usize,
    rows: usize,
    stage: i64,
) -> AboveAnswer
    ensures { result ≡ above_fields (rule.above_answer m n unit lattice.now (calls.nodes x0 y0 step columns rows) stage) }
{
    let nodes = Nodes {
        x0,
        y0,
        step,
        columns,
        rows,
    };
    above::any_above(m, n, unit, lattice, nodes, stage).into()
}

// Of the heights that an accepted raster left none is refused: only the side and the stage can be.
#[unsafe(no_mangle)]
pub extern "C" fn curlew_storage_at(
    columns: usize,
    rows: usize,
    heights: &[i64],
    stage: i64,
    side: usize,
) -> StorageAnswer
    ensures answer { result ≡ storage_fields (pond.storage_answer columns rows heights.now stage side) }
    ensures sampled { Sampled columns rows heights.now → result ≡ storage_fields (sampled_answer columns rows heights.now stage side) }
{
    storage::storage(columns, rows, heights, stage, side).into()
}

// What is accepted is the lowest stage in range that stores at least the wanted litres.
#[unsafe(no_mangle)]
pub extern "C" fn curlew_stage_for(
    columns: usize,
    rows: usize,
    heights: &[i64],
    wanted: u64,
    side: usize,
) -> StageAnswer
    ensures answer { result ≡ stage_fields (stage_for_answer columns rows heights.now wanted side) }
    ensures lowest_stage { result.number ≡ 0 → LowestStage columns rows heights.now wanted side result.stage }
{
    stages::stage_for(columns, rows, heights, wanted, side).into()
}

#[unsafe(no_mangle)]
pub extern "C" fn curlew_read_lattice(file: &[u8], output: &mut [i64]) -> CellsAnswer
    ensures { handed result output.new ≡ in_fields cells_fields (lattice_file.read_lattice_call file.now output.old) }
{
    lattice_reader::read_lattice(file, output).into()
}

#[unsafe(no_mangle)]
pub extern "C" fn curlew_write_lattice(
    m: usize,
    n: usize,
    lattice: &[i64],
    output: &mut [u8],
) -> CountAnswer
    ensures { handed result output.new ≡ in_fields count_fields (lattice_file.write_lattice_call m n lattice.now output.old) }
{
    lattice_writer::write_lattice(m, n, lattice, output).into()
}

#[unsafe(no_mangle)]
pub extern "C" fn curlew_read_points(
    file: &[u8],
    x: &mut [u16],
    y: &mut [u16],
    z: &mut [i64],
    q: &mut [u8],
) -> HeaderAnswer
    ensures { handed result (survey x.new y.new z.new q.new) ≡ in_fields header_fields (point_file.read_points_call file.now (survey x.old y.old z.old q.old)) }
{
    point_reader::read_points(file, x, y, z, q).into()
}

#[unsafe(no_mangle)]
pub extern "C" fn curlew_write_points(
    m0: usize,
    n0: usize,
    h: usize,
    x: &[u16],
    y: &[u16],
    z: &[i64],
    q: &[u8],
    output: &mut [u8],
) -> CountAnswer
    ensures { handed result output.new ≡ in_fields count_fields (point_file.write_points_call (shape m0 n0 h) (survey x.now y.now z.now q.now) output.old) }
{
    let shape = Shape { m0, n0, h };
    point_writer::write_points(shape, x, y, z, q, output).into()
}
