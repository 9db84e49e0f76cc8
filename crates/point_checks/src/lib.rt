// The checks of a survey's points, which the fit and the point writer share: each one's position, height and confidence. The fit's base is taken from the pass over the heights.
#![tactic(auto)]

ghost use Rattle.std.specs.Prelude.{◌≡◌, true, false, ℕ, ◌<◌, ◌≤◌, length, slice_index};
ghost use Rattle.rules.specs.Grid.{confident};
ghost use Rattle.rules.specs.Answers.{answer, first_of};
ghost use Rattle.rules.specs.Fit.{total};
ghost use Rattle.rules.specs.Calls.{points_check};
ghost use Rattle.survey.specs.Survey.{survey_of};
ghost use Rattle.point_checks.specs.Spots.{spot_at};
ghost use Rattle.point_checks.specs.Sure.{all_sure, FirstUnsure};
ghost use Rattle.answers.specs.Told.{told};

use answers::Refusal;
use grid::Cells;
use survey::Points;

// Whether every confidence is above 0. The loop tests none by itself, so that the compiler takes many at a time: `all` would stop at the first.
fn all_sure(qs: &[u8]) -> bool
    ensures told { result ≡ all_sure (length qs.now) qs.now }
    ensures confident { result ≡ true → (i : ℕ) → i < length qs.now → confident (slice_index qs.now i) ≡ true }
{
    let mut sure = true;
    for q in qs {
        sure = sure & (*q != 0);
    }
    sure
}

// The first point with a confidence of 0. That there is one is what it asks. The loop tests for the end all the same: without that test the compiler calls
// the C library's strlen, and how far that reads is not proved.
fn first_unsure(qs: &[u8]) -> usize
    requires { all_sure (length qs.now) qs.now ≡ false }
    ensures { FirstUnsure result qs.now }
{
    for (i, q) in qs.iter().enumerate() {
        if *q == 0 {
            return i;
        }
    }
    qs.len()
}

// 5 and 6 in a point, points in list order; right and top are the last positions of the cells, of 16 a side. It asks nothing of confidences. By itself it has
// registers enough: within the fit its loop took a quarter longer.
#[inline(never)]
fn spots(cells: Cells, xs: &[u16], ys: &[u16], zs: &[i64]) -> Result<i64, Refusal>
    requires { (length ys.now ≡ length xs.now) × (length zs.now ≡ length xs.now) × (length xs.now ≤ 65_535) }
    ensures { told result ≡ answer (first_of (length xs.now) (spot_at cells.m cells.n xs.now ys.now zs.now)) (total (length xs.now) zs.now) }
{
    let right = 16 * cells.m;
    let top = 16 * cells.n;
    let mut sum = 0;
    for i in 0..xs.len() {
        if right < xs[i] as usize {
            return Err(Refusal::Position(i));
        }
        if top < ys[i] as usize {
            return Err(Refusal::Position(i));
        }
        let z = zs[i];
        if !range::in_range(z) {
            return Err(Refusal::Range(i));
        }
        sum += z;
    }
    Ok(sum)
}

// 5, 6 and 17 in a point, points in list order. Confidences are looked over first, many at a time: where one is 0, its point is the last whose position and
// height are asked.
pub fn points(cells: Cells, points: &Points) -> Result<i64, Refusal>
    ensures { told result ≡ answer (points_check 16 cells.m cells.n (survey_of points.now)) (total (length points.now.xs.now) points.now.zs.now) }
{
    if all_sure(points.qs) {
        return spots(cells, points.xs, points.ys, points.zs);
    }
    let unsure = first_unsure(points.qs);
    let end = unsure + 1;
    spots(
        cells,
        &points.xs[..end],
        &points.ys[..end],
        &points.zs[..end],
    )?;
    Err(Refusal::Confidence(unsure))
}
