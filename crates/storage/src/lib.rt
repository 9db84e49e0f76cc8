// Pond storage: the litres that a raster of heights holds below a stage. It stands above the surface engine: of rasters it knows what they promise.
#![tactic(auto)]

ghost use Rattle.std.specs.Prelude.{◌≡◌, ◌+◌, ◌*◌, ◌≤◌, min, length, unsigned_abs};
ghost use Rattle.rules.specs.Answers.{answer};
ghost use Rattle.rules.specs.Grid.{limit};
ghost use Rattle.rules.specs.Storage as rule;
ghost use Rattle.rules.specs.Laws.Checks.{AllInRange};
ghost use Rattle.answers.specs.Cause.{check};
ghost use Rattle.storage.specs.Over.{Over};
ghost use Rattle.answers.specs.Told.{told};
ghost use Rattle.storage.specs.Sampled.{Sampled, sampled_answer};

use answers::Refusal;

// 64 bits of how far a height is over the stage: the top one is 1 exactly where the node is wet.
fn over(stage: i64, height: i64) -> u64
    requires { (unsigned_abs stage ≤ limit) × (unsigned_abs height ≤ limit) }
    ensures { Over stage height result }
{
    codec::to_bits(height).wrapping_sub(codec::to_bits(stage))
}

// 64 ones where the node is wet, and else none: 0 less the top bit.
fn wet_mask(stage: i64, height: i64) -> u64
    requires { (unsigned_abs stage ≤ limit) × (unsigned_abs height ≤ limit) }
    ensures { result ≡ min 1 (rule.depth stage height) * 18_446_744_073_709_551_615 }
{
    0u64.wrapping_sub(over(stage, height) >> 63)
}

// "Depth at a node is stage less height where positive, else 0". No sign is tested, so that a sum of depths is fast: the mask keeps all bits of height less
// stage where it is negative, and else none. The other way round, and with signed numbers, the compiler makes the greater of it and 0, for which plain
// x86-64 has no instruction two at a time.
pub fn depth(stage: i64, height: i64) -> u64
    requires { (unsigned_abs stage ≤ limit) × (unsigned_abs height ≤ limit) }
    ensures { result ≡ rule.depth stage height }
{
    0u64.wrapping_sub(over(stage, height) & wet_mask(stage, height))
}

// A depth, and 2^40 with it where the node is wet: a sum of few has both the sum of depths and how many nodes are wet. `depth` stands by itself and not as
// this with a mark of 0: that would be a third function, with a bound on its mark.
pub fn marked_depth(stage: i64, height: i64) -> u64
    requires { (unsigned_abs stage ≤ limit) × (unsigned_abs height ≤ limit) }
    ensures { result ≡ rule.depth stage height + min 1 (rule.depth stage height) * 1_099_511_627_776 }
{
    let marked = over(stage, height).wrapping_sub(1_099_511_627_776);
    0u64.wrapping_sub(marked & wet_mask(stage, height))
}

// The sum of depths over a raster that has passed its checks.
pub fn depth_sum(heights: &[i64], stage: i64) -> u64
    requires { (length heights.now ≤ 8_193 * 8_193) × AllInRange (length heights.now) heights.now × (unsigned_abs stage ≤ limit) }
    ensures { result ≡ rule.depths (length heights.now) heights.now stage }
{
    let mut sum = 0u64;
    for height in heights {
        sum += depth(stage, *height);
    }
    sum
}

// "the floor of (sum of depths × s²) / 100,000 litres", in two parts: the whole product can leave 64 bits
pub fn litres(sum: u64, side: usize) -> u64
    requires { (sum ≤ 537_001_992_000_000_000) × (side ≤ 100) }
    ensures { result ≡ rule.litres sum side }
{
    let square = (side * side) as u64;
    sum / 100_000 * square + sum % 100_000 * square / 100_000
}

// 6 over the heights, and the sum of depths where they are all in range: 64 at a time are looked over and then added up, so that the raster is fetched
// once.
fn checked_sum(heights: &[i64], stage: i64) -> Result<u64, Refusal>
    requires { (length heights.now ≤ 8_193 * 8_193) × (unsigned_abs stage ≤ limit) }
    ensures { told result ≡ answer (rule.heights_check (length heights.now) heights.now) (rule.depths (length heights.now) heights.now stage) }
{
    let mut sum = 0u64;
    for (b, block) in heights.chunks(64).enumerate() {
        if let Some(k) = range::first_out(block, block.len()) {
            return Err(Refusal::Range(64 * b + k + 1));
        }
        sum += depth_sum(block, stage);
    }
    Ok(sum)
}

// 8, 4 and 16: what does not depend on the stage or on any height. A raster tests its columns and rows by itself (`Nodes::sizes`): a function for both
// gives the raster's loops other registers, and they are slower. The four are no struct: three functions take them once.
pub fn pond_checks(columns: usize, rows: usize, heights: &[i64], side: usize) -> Result<(), Refusal>
    ensures { check result ≡ rule.pond_check columns rows heights.now side }
{
    if 8_193 < columns {
        return Err(Refusal::Size);
    }
    if 8_193 < rows {
        return Err(Refusal::Size);
    }
    if heights.len() < columns * rows {
        return Err(Refusal::Short);
    }
    if !checks::within(1, 100, side) {
        return Err(Refusal::Side);
    }
    Ok(())
}

// Of the heights that an accepted raster left none is refused: only the side and the stage can be.
pub fn storage(
    columns: usize,
    rows: usize,
    heights: &[i64],
    stage: i64,
    side: usize,
) -> Result<u64, Refusal>
    ensures answer { told result ≡ rule.storage_answer columns rows heights.now stage side }
    ensures sampled { Sampled columns rows heights.now → told result ≡ sampled_answer columns rows heights.now stage side }
{
    pond_checks(columns, rows, heights, side)?;
    if !range::in_range(stage) {
        return Err(Refusal::Range(0));
    }
    let sum = checked_sum(&heights[..columns * rows], stage)?;
    Ok(litres(sum, side))
}
