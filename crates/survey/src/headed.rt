// The checks of a survey's head, which stand apart from the types because their contract cites the rules' view of those.

ghost use Rattle.std.specs.Prelude.{◌≡◌, length, IfOk};
ghost use Rattle.rules.specs.Fit.{survey};
ghost use Rattle.rules.specs.Calls.{survey_check};
ghost use Rattle.answers.specs.Cause.{check};
ghost use Rattle.survey.specs.Survey.{shape_of, survey_of};

use crate::{Points, Shape};
use answers::Refusal;

// 1, 2 and 3: the cell counts, the levels and the lists
pub fn head<'a>(
    shape: Shape,
    xs: &'a [u16],
    ys: &'a [u16],
    zs: &'a [i64],
    qs: &'a [u8],
) -> Result<Points<'a>, Refusal>
    ensures checked { check result ≡ survey_check (shape_of shape) (survey xs.now ys.now zs.now qs.now) }
    ensures points { IfOk result (λ p. survey_of p ≡ survey xs.now ys.now zs.now qs.now) }
{
    checks::cells(16, shape.m0, shape.n0)?;
    if 5 < shape.h {
        return Err(Refusal::Levels);
    }
    if xs.len() != ys.len() || xs.len() != zs.len() || xs.len() != qs.len() || 65_535 < xs.len() {
        return Err(Refusal::Lists);
    }
    Ok(Points { xs, ys, zs, qs })
}
