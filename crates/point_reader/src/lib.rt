// The point file's reader: it accepts exactly the files of point lists in bounds.
#![tactic(auto)]

ghost use Rattle.std.specs.Prelude.{◌≡◌, ◌≤◌, length};
ghost use Rattle.algebra.specs.Table.{over, tabulate};
ghost use Rattle.rules.specs.Answers.{outcome};
ghost use Rattle.rules.specs.Fit.{survey};
ghost use Rattle.rules.specs.PointFile as rule;
ghost use Rattle.answers.specs.Told.{told_as};
ghost use Rattle.point_records.specs.Read.{header_of, Held};

use answers::Refusal;
use point_records::{Header, Kind};

// The fields of the first p point records. By itself its loop has registers enough.
#[inline(never)]
fn copy(
    file: &[u8],
    kind: Kind,
    p: usize,
    xs: &mut [u16],
    ys: &mut [u16],
    zs: &mut [i64],
    qs: &mut [u8],
)
    requires { Held file.now kind p × (p ≤ length xs.old) × (p ≤ length ys.old) × (p ≤ length zs.old) × (p ≤ length qs.old) }
    ensures x { xs.new ≡ over (tabulate p (rule.file_x file.now)) xs.old }
    ensures y { ys.new ≡ over (tabulate p (rule.file_y file.now)) ys.old }
    ensures z { zs.new ≡ over (tabulate p (rule.file_z file.now)) zs.old }
    ensures q { qs.new ≡ over (tabulate p (rule.file_q file.now)) qs.old }
{
    for i in 0..p {
        let s = kind.start(i);
        xs[i] = codec::u16_at(file, s + 2);
        ys[i] = codec::u16_at(file, s + 4);
        zs[i] = codec::value_at(file, s + 6);
        qs[i] = kind.confidence(file, s);
    }
}

pub fn read_points(
    file: &[u8],
    xs: &mut [u16],
    ys: &mut [u16],
    zs: &mut [i64],
    qs: &mut [u8],
) -> Result<Header, Refusal>
    ensures { outcome (told_as header_of result) (survey xs.new ys.new zs.new qs.new) ≡ rule.read_points_call file.now (survey xs.old ys.old zs.old qs.old) }
{
    let header = point_records::judge(file)?;
    let p = header.points;
    if xs.len() < p || ys.len() < p || zs.len() < p || qs.len() < p {
        return Err(Refusal::Short);
    }
    copy(file, point_records::kind_of(file), p, xs, ys, zs, qs);
    Ok(header)
}
