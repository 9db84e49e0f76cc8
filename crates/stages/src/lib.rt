// Stage for a wanted storage: the lowest stage in range that stores at least the wanted litres. It stands above the storage: that a higher stage never
// stores less is what makes a search find it. Stages go by their numbers, 0 for -4,000,000,000 and so on.
#![tactic(auto)]

ghost use Rattle.std.specs.Prelude.{◌≡◌, ℕ, ◌+◌, ◌-◌, ◌*◌, ◌/◌, ◌≤◌, ◌<◌, leb, ℤ, pos, nat_abs, length, get_or, ◌≤ℤ◌};
ghost use Rattle.rules.specs.Answers.{accepted};
ghost use Rattle.rules.specs.Grid.{limit};
ghost use Rattle.rules.specs.Storage.{depths, litres as litres_of};
ghost use Rattle.rules.specs.Stage.{LowestStage, lowest_of, stage_at, stage_for_answer};
ghost use Rattle.rules.specs.Laws.Checks.{AllInRange};
ghost use Rattle.rules.specs.Laws.Stage.{wets, needed_sum};
ghost use Rattle.answers.specs.Told.{told};
ghost use Rattle.stages.specs.Numbered.{stage_numbered};

use answers::Refusal;

// What stands in a raster at a stage: the sum of depths, and how many nodes are wet.
#[derive(Drop)]
struct Pond {
    sum: u64,
    wet: u64,
}

// What the nodes of a block, 64 at most, add to the pond: their depths, and 2^40 for each that is wet. 64 depths are below 2^40.
fn block_at(block: &[i64], stage: i64) -> u64
    requires { (length block.now ≤ 64) × AllInRange (length block.now) block.now × (nat_abs stage ≤ limit) }
    ensures { result ≡ depths (length block.now) block.now stage + wets (length block.now) block.now stage * 1_099_511_627_776 }
{
    let mut sum = 0u64;
    for height in block {
        sum += storage::marked_depth(stage, *height);
    }
    sum
}

// The pond of heights that have passed their checks, 64 at a time.
fn pond_at(heights: &[i64], stage: i64) -> Pond
    requires { (length heights.now ≤ 8_193 * 8_193) × AllInRange (length heights.now) heights.now × (nat_abs stage ≤ limit) }
    ensures sum_of_depths { result.sum ≡ depths (length heights.now) heights.now stage }
    ensures wet_count { result.wet ≡ wets (length heights.now) heights.now stage }
{
    let mut sum = 0u64;
    let mut wet = 0u64;
    let blocks = heights.chunks_exact(64);
    let rest = block_at(blocks.remainder(), stage);
    for block in blocks {
        let marked = block_at(block, stage);
        sum += marked % 1_099_511_627_776;
        wet += marked / 1_099_511_627_776;
    }
    Pond {
        sum: sum + rest % 1_099_511_627_776,
        wet: wet + rest / 1_099_511_627_776,
    }
}

// The number of a stage at which no node is wet. It is below the first height by the "or" of all depths below that height, which is no less than any of them
// and at most twice the greatest: plain x86-64 has no instruction for the lesser of two such numbers, and the lowest height would take twice as long.
fn dry_number(heights: &[i64]) -> u64
    requires { AllInRange (length heights.now) heights.now × (0 < length heights.now) }
    ensures { (result ≤ 8_000_000_000) × ((i : ℕ) → i < length heights.now → stage_at result ≤ℤ get_or heights.now i (pos 0)) }
{
    let first = heights[0];
    let mut deepest = 0u64;
    for height in heights {
        deepest |= storage::depth(first, *height);
    }
    let number = (first + 4_000_000_000) as u64;
    number.saturating_sub(deepest)
}

// The least sum of depths that stores the wanted litres, in two parts: the whole product can leave 64 bits.
fn needed_sum(wanted: u64, side: usize) -> u64
    requires { (0 < side) × (side ≤ 100) × (wanted ≤ litres_of 537_001_992_000_000_000 side) }
    ensures { result ≡ needed_sum wanted side }
{
    let square = (side * side) as u64;
    wanted / square * 100_000 + (wanted % square * 100_000).div_ceil(square)
}

// The lowest stage whose sum of depths is at least the needed one, where there is one, in at most 33 sums over the raster: `left` counts them down.
// Stages below both `low` and `high` sum up to less, and `high` doesn't or is past the last. One between them is tried, and tells more than its own side: a
// micrometre more or less changes a sum by the nodes that are wet, of which there are `most` at most below `high`. The loop counts no index: it closes a bracket.
fn search(heights: &[i64], needed: u64) -> Option<i64>
    requires { (length heights.now ≤ 8_193 * 8_193) × AllInRange (length heights.now) heights.now × (0 < length heights.now) × (0 < needed) × (needed ≤ 537_001_992_000_000_000) }
    ensures { result ≡ stage_numbered (lowest_of 8_000_000_001 (λ k. leb needed (depths (length heights.now) heights.now (stage_at k)))) }
{
    let mut left = 33u64;
    let mut most = heights.len() as u64;
    let mut low = dry_number(heights) + needed.div_ceil(most);
    let mut high = 8_000_000_001u64;
    while low < high {
        left -= 1;
        let k = (low + high) / 2;
        let stage = k as i64 - 4_000_000_000;
        let tried = pond_at(heights, stage);
        if tried.sum < needed {
            low = k + (needed - tried.sum).div_ceil(most);
        } else {
            let spare = tried.sum - needed;
            if spare < tried.wet {
                return Some(stage);
            }
            most = tried.wet;
            high = k - spare / most;
        }
    }
    if high == 8_000_000_001 {
        return None;
    }
    Some(high as i64 - 4_000_000_000)
}

// The lowest stage that stores the wanted litres, where one does.
fn lowest_stage(heights: &[i64], wanted: u64, side: usize) -> Option<i64>
    requires { (length heights.now ≤ 8_193 * 8_193) × AllInRange (length heights.now) heights.now × (0 < side) × (side ≤ 100) }
    ensures { result ≡ stage_numbered (lowest_of 8_000_000_001 (λ k. leb wanted (litres_of (depths (length heights.now) heights.now (stage_at k)) side))) }
{
    if wanted == 0 {
        return Some(-4_000_000_000);
    }
    if storage::litres(heights.len() as u64 * 8_000_000_000, side) < wanted {
        return None;
    }
    search(heights, needed_sum(wanted, side))
}

// What is accepted is the lowest stage that stores at least the wanted litres.
pub fn stage_for(
    columns: usize,
    rows: usize,
    heights: &[i64],
    wanted: u64,
    side: usize,
) -> Result<i64, Refusal>
    ensures answer { told result ≡ stage_for_answer columns rows heights.now wanted side }
    ensures lowest_stage { (z : ℤ) → told result ≡ accepted z → LowestStage columns rows heights.now wanted side z }
{
    storage::pond_checks(columns, rows, heights, side)?;
    let raster = &heights[..columns * rows];
    if let Some(k) = range::first_out(raster, raster.len()) {
        return Err(Refusal::Range(k + 1));
    }
    lowest_stage(raster, wanted, side).ok_or(Refusal::NoStage)
}
