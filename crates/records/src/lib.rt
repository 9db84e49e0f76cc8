// The records of both files: their marks, and the check that each begins with.
#![tactic(auto)]

ghost use Rattle.std.specs.Prelude.{◌≡◌, ◌+◌, ◌≤◌, ◌<◌, ◌^◌, length, take, drop};
ghost use Rattle.algebra.specs.Table.{laid};
ghost use Rattle.rules.specs.Bytes.{same, record_check};
ghost use Rattle.answers.specs.Cause.{check};

use answers::Refusal;

// The letters of the marks.
pub const L: u8 = 0x4C;

pub const P: u8 = 0x50;

pub const H: u8 = 0x48;

pub const R: u8 = 0x52;

pub const E: u8 = 0x45;

pub const T: u8 = 0x54;

pub const Q: u8 = 0x51;

// The marks of a lattice file's head, rows and end.
pub const LH: [u8; 2] = [L, H];

pub const LR: [u8; 2] = [L, R];

pub const LE: [u8; 2] = [L, E];

// The marks of a point file's head, and of its points without and with a confidence.
pub const PH: [u8; 2] = [P, H];

pub const PT: [u8; 2] = [P, T];

pub const PQ: [u8; 2] = [P, Q];

// A mark, written and compared.
pub fn put_mark(output: &mut [u8], at: usize, mark: [u8; 2])
    requires { at + 2 ≤ length output.old }
    ensures { output.new ≡ laid at mark output.old }
{
    output[at..at + 2].copy_from_slice(&mark);
}

// Whether this mark stands at s. There is none past the end of the file.
pub fn marked(file: &[u8], s: usize, mark: [u8; 2]) -> bool
    requires { s < 2 ^ 32 }
    ensures { result ≡ same (take 2 (drop s file.now)) mark }
{
    s + 2 <= file.len() && file[s] == mark[0] && file[s + 1] == mark[1]
}

// A record of n bytes that starts at s: incomplete, then a wrong mark.
pub fn record(file: &[u8], s: usize, n: usize, mark: [u8; 2]) -> Result<(), Refusal>
    requires { (s < 2 ^ 32) × (n < 2 ^ 32) }
    ensures { check result ≡ record_check mark file.now s n }
{
    if file.len() < s + n {
        return Err(Refusal::Incomplete(s));
    }
    if !marked(file, s, mark) {
        return Err(Refusal::Mark(s));
    }
    Ok(())
}
