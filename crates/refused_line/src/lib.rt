// The program's line for a refusal, "refused N P".
#![tactic(auto)]

ghost use Rattle.std.specs.Prelude.{◌≡◌, ◌+◌, ◌≤◌, length};
ghost use Rattle.algebra.specs.Table.{laid};
ghost use Rattle.rules.specs.Program.{refused_line};
ghost use Rattle.answers.specs.Cause.{cause};
ghost use Rattle.refused_line.specs.Wrote.{Wrote};

use answers::Refusal;
use itoa::Buffer;

// A text from byte at on; answers the byte after it.
fn put(output: &mut [u8], at: usize, text: &[u8]) -> usize
    requires { at + length text.now ≤ length output.old }
    ensures end_place { result ≡ at + length text.now }
    ensures output_after { output.new ≡ laid at text.now output.old }
{
    let end = at + text.len();
    output[at..end].copy_from_slice(text);
    end
}

// "refused N P" and a newline, at the start of output; answers its length. Each number has at most 20 digits.
// By itoa, since std's `write!` into a buffer does not promise an Ok where there is room.
pub fn put_refused(r: Refusal, output: &mut [u8]) -> usize
    requires { 50 ≤ length output.old }
    ensures { Wrote (refused_line (cause r)) output.old result output.new }
{
    let mut digits = Buffer::new();
    let number = put(output, 0, b"refused ");
    let space = put(output, number, digits.format(r.number()).as_bytes());
    let place = put(output, space, b" ");
    let newline = put(output, place, digits.format(r.place()).as_bytes());
    put(output, newline, b"\n")
}
