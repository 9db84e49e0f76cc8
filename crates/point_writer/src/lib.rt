// The point file's writer: it writes PQ records.
#![tactic(auto)]

ghost use Rattle.std.specs.Prelude.{◌≡◌, ◌+◌, ◌*◌, ◌≤◌, ◌<◌, length};
ghost use Rattle.algebra.specs.Table.{over, joined, laid};
ghost use Rattle.rules.specs.Answers.{outcome};
ghost use Rattle.rules.specs.Fit.{survey};
ghost use Rattle.rules.specs.PointFile as rule;
ghost use Rattle.rules.specs.Laws.PointFields.{record_of};
ghost use Rattle.answers.specs.Told.{told};
ghost use Rattle.survey.specs.Survey.{shape_of, survey_of};

use answers::Refusal;
use grid::Cells;
use records::{PH, PQ};
use survey::{Points, Shape};

// The file's head.
fn put_head(shape: Shape, p: usize, output: &mut [u8])
    requires { (shape.m0 < 256) × (shape.n0 < 256) × (shape.h < 256) × (p < 65_536) × (8 ≤ length output.old) }
    ensures { output.new ≡ over (rule.point_head (shape_of shape) p) output.old }
{
    records::put_mark(output, 0, PH);
    output[2] = shape.m0 as u8;
    output[3] = shape.n0 as u8;
    output[4] = shape.h as u8;
    output[5] = 0;
    codec::put_u16(output, 6, p as u16);
}

// One point record.
fn put_point(x: u16, y: u16, z: i64, q: u8, s: usize, output: &mut [u8])
    requires { s + 15 ≤ length output.old }
    ensures { output.new ≡ laid s (rule.point_record rule.pq (record { x = x; y = y; z = z; q = q })) output.old }
{
    records::put_mark(output, s, PQ);
    codec::put_u16(output, s + 2, x);
    codec::put_u16(output, s + 4, y);
    codec::put_value(output, s + 6, z);
    output[s + 14] = q;
}

// All point records.
fn put_points(points: &Points, output: &mut [u8])
    requires { 8 + 15 * length points.now.xs.now ≤ length output.old }
    ensures { output.new ≡ laid 8 (joined (length points.now.xs.now) (record_of rule.pq (survey_of points.now))) output.old }
{
    for i in 0..points.len() {
        put_point(
            points.xs[i],
            points.ys[i],
            points.zs[i],
            points.qs[i],
            8 + 15 * i,
            output,
        );
    }
}

pub fn write_points(
    shape: Shape,
    xs: &[u16],
    ys: &[u16],
    zs: &[i64],
    qs: &[u8],
    output: &mut [u8],
) -> Result<usize, Refusal>
    ensures { outcome (told result) output.new ≡ rule.write_points_call (shape_of shape) (survey xs.now ys.now zs.now qs.now) output.old }
{
    let points = survey::head(shape, xs, ys, zs, qs)?;
    let p = points.len();
    let len = 8 + 15 * p;
    if output.len() < len {
        return Err(Refusal::Short);
    }
    let cells = Cells {
        m: shape.m0 << shape.h,
        n: shape.n0 << shape.h,
    };
    point_checks::points(cells, &points)?;
    put_head(shape, p, output);
    put_points(&points, output);
    Ok(len)
}
