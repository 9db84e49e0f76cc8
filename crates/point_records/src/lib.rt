// The records of a point file, judged, and what its head says.
#![tactic(auto)]

ghost use Rattle.std.specs.Prelude.{◌≡◌, ◌+◌, ◌^◌, ◌≤◌, ◌<◌, length, IfOk};
ghost use Rattle.rules.specs.Answers.{answer, first_of};
ghost use Rattle.rules.specs.Bytes.{record_check};
ghost use Rattle.rules.specs.PointFile as rule;
ghost use Rattle.answers.specs.Cause.{check};
ghost use Rattle.answers.specs.Told.{told_as};
ghost use Rattle.survey.specs.Survey.{shape_of};
ghost use Rattle.point_records.specs.Read.{header_of, header, ruled, Measured};

use answers::Refusal;
use records::{PH, PQ, PT};
use survey::Shape;

// What a point file's head says: the shape and the number of points.
#[derive(Clone, Copy)]
pub struct Header {
    pub shape: Shape,
    pub points: usize,
}

// A file's point records are all alike: "PT", or "PQ".
#[derive(Clone, Copy)]
pub enum Kind {
    Pt,
    Pq,
}

impl Kind {
    // The bytes of a record.
    fn size(self) -> usize
        ensures { result ≡ rule.size_of (ruled self) }
    {
        match self {
            Kind::Pt => 14,
            Kind::Pq => 15,
        }
    }

    // A record of this kind that starts at s: incomplete, then a wrong mark. The kind is told first, so that the compiler makes a loop over a file's
    // records for each kind.
    fn record(self, file: &[u8], s: usize) -> Result<(), Refusal>
        requires { s < 2 ^ 32 }
        ensures { check result ≡ record_check (rule.mark_of (ruled self)) file.now s (rule.size_of (ruled self)) }
    {
        match self {
            Kind::Pt => records::record(file, s, 14, PT),
            Kind::Pq => records::record(file, s, 15, PQ),
        }
    }

    // Where record i starts.
    pub fn start(self, i: usize) -> usize
        requires { rule.point_start (ruled self) i < 2 ^ 64 }
        ensures value { result ≡ rule.point_start (ruled self) i }
        ensures small { i < 65_536 → result ≤ 983_033 }
    {
        8 + self.size() * i
    }

    // The confidence in the record that starts at s: its last byte, and 1 in a PT record.
    pub fn confidence(self, file: &[u8], s: usize) -> u8
        requires { s + rule.size_of (ruled self) ≤ length file.now }
        ensures { result ≡ rule.last_number (ruled self) file.now (s + 14) }
    {
        match self {
            Kind::Pt => 1,
            Kind::Pq => file[s + 14],
        }
    }
}

// The first record sets the kind.
pub fn kind_of(file: &[u8]) -> Kind
    ensures { ruled result ≡ rule.kind_of file.now }
{
    if records::marked(file, 8, PQ) {
        Kind::Pq
    } else {
        Kind::Pt
    }
}

// "PH" with m0, n0, h and a zero byte
fn head(file: &[u8]) -> Result<Shape, Refusal>
    ensures checked { check result ≡ rule.point_head_check file.now }
    ensures read { IfOk result (λ shape. shape_of shape ≡ rule.file_shape file.now) }
{
    records::record(file, 0, 8, PH)?;
    let shape = Shape {
        m0: file[2] as usize,
        n0: file[3] as usize,
        h: file[4] as usize,
    };
    if !checks::within(1, 16, shape.m0) {
        return Err(Refusal::Field(2));
    }
    if !checks::within(1, 16, shape.n0) {
        return Err(Refusal::Field(3));
    }
    if 5 < shape.h {
        return Err(Refusal::Field(4));
    }
    if file[5] != 0 {
        return Err(Refusal::Field(5));
    }
    Ok(shape)
}

// What a file's point records are judged by: their kind, and the last positions of the grid along x and y.
#[derive(Clone, Copy)]
struct Measure<'a> {
    file: &'a [u8],
    kind: Kind,
    right: usize,
    top: usize,
    ghost measured: { Measured file.now kind right top },
}

impl Measure<'_> {
    // A point's record with x, y, z and q
    fn point(&self, i: usize) -> Result<(), Refusal>
        requires { i < 65_536 }
        ensures { check result ≡ rule.point_record_check (rule.file_shape self.now.file.now) self.now.file.now i }
    {
        let s = self.kind.start(i);
        self.kind.record(self.file, s)?;
        if self.right < codec::u16_at(self.file, s + 2) as usize {
            return Err(Refusal::Field(s + 2));
        }
        if self.top < codec::u16_at(self.file, s + 4) as usize {
            return Err(Refusal::Field(s + 4));
        }
        if !range::in_range(codec::value_at(self.file, s + 6)) {
            return Err(Refusal::Field(s + 6));
        }
        if self.kind.confidence(self.file, s) == 0 {
            return Err(Refusal::Field(s + 14));
        }
        Ok(())
    }

    // All p point records. By itself its loop has registers enough.
    #[inline(never)]
    fn points(&self, p: usize) -> Result<(), Refusal>
        requires { p < 65_536 }
        ensures { check result ≡ first_of p (rule.point_record_check (rule.file_shape self.now.file.now) self.now.file.now) }
    {
        for i in 0..p {
            self.point(i)?;
        }
        Ok(())
    }
}

// The whole file, and the header of one that is accepted.
pub fn judge(file: &[u8]) -> Result<Header, Refusal>
    ensures { told_as header_of result ≡ answer (rule.point_file_check file.now) (header file.now) }
{
    let shape = head(file)?;
    let p = codec::u16_at(file, 6) as usize;
    let kind = kind_of(file);
    let right = 16 * (shape.m0 << shape.h);
    let top = 16 * (shape.n0 << shape.h);
    let measure = Measure {
        file,
        kind,
        right,
        top,
    };
    measure.points(p)?;
    let end = kind.start(p);
    if file.len() != end {
        return Err(Refusal::Trailing(end));
    }
    Ok(Header { shape, points: p })
}
