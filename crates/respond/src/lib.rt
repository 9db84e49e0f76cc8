// The program's answer to the bytes of its standard input: the lattice file, or one line "refused N P".
#![tactic(auto)]

ghost use Rattle.std.specs.Prelude.{◌≡◌, ◌≤◌, length, replicate};
ghost use Rattle.rules.specs.Fit.{survey};
ghost use Rattle.rules.specs.Program.{program_output};
ghost use Rattle.survey.specs.Survey.{shape_of};
ghost use Rattle.refused_line.specs.Wrote.{Wrote};
ghost use Rattle.respond.specs.Taken.{Taken, Answers, answer_text};

use answers::Refusal;
use survey::Shape;

// The most points that a file of the program's has, control values of their fit, and bytes of an answer.
const POINTS: usize = 535;

const CONTROLS: usize = 361;

const BYTES: usize = 2_974;

// The lattice file of points that are taken, at the start of output, and its length.
fn fit_and_write(
    shape: Shape,
    xs: &[u16],
    ys: &[u16],
    zs: &[i64],
    qs: &[u8],
    output: &mut [u8],
) -> Result<usize, Refusal>
    requires { Taken (shape_of shape) (survey xs.now ys.now zs.now qs.now) × (2_974 ≤ length output.old) }
    ensures { Answers (answer_text (shape_of shape) (survey xs.now ys.now zs.now qs.now)) output.old result output.new }
{
    let mut lattice = [0i64; CONTROLS];
    let mut residual = [0i64; POINTS];
    let mut whole = [0i64; 3 * CONTROLS + POINTS];
    let mut floats = [0.0f64; 2 * CONTROLS];
    let cells = fit::fit(
        shape,
        xs,
        ys,
        zs,
        qs,
        &mut lattice,
        &mut residual,
        &mut whole,
        &mut floats,
    )?;
    Ok(lattice_writer::put_lattice(cells, &lattice, output))
}

// The lattice file of what the input holds, at the start of output, and its length.
fn read_and_fit(input: &[u8], output: &mut [u8]) -> Result<usize, Refusal>
    requires { 2_974 ≤ length output.old }
    ensures { Answers (program_output input.now) output.old result output.new }
{
    if !limits::few_bytes(input.len()) {
        return Err(Refusal::Short);
    }
    let mut xs = [0u16; POINTS];
    let mut ys = [0u16; POINTS];
    let mut zs = [0i64; POINTS];
    let mut qs = [0u8; POINTS];
    let header = point_reader::read_points(input, &mut xs, &mut ys, &mut zs, &mut qs)?;
    if !limits::few_cells(header.shape) {
        return Err(Refusal::Short);
    }
    let p = header.points;
    fit_and_write(header.shape, &xs[..p], &ys[..p], &zs[..p], &qs[..p], output)
}

// The whole answer at the start of output; answers its length.
fn write(input: &[u8], output: &mut [u8]) -> usize
    requires { 2_974 ≤ length output.old }
    ensures { Wrote (program_output input.now) output.old result output.new }
{
    match read_and_fit(input, output) {
        Ok(len) => len,
        Err(r) => refused_line::put_refused(r, output),
    }
}

// What the program writes: the first len bytes. The others are 0.
#[derive(Drop)]
pub struct Response {
    pub len: usize,
    pub bytes: [u8; BYTES],
    ghost within: { len ≤ 2_974 },
}

// The answer to the bytes of the program's standard input.
pub fn respond(input: &[u8]) -> Response
    ensures { Wrote (program_output input.now) (replicate 2_974 0) result.len result.bytes }
{
    let mut bytes = [0u8; BYTES];
    let len = write(input, &mut bytes);
    Response { len, bytes }
}
