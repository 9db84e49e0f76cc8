// What the caller is told: the refusals of documents 01 and 02, as a type of the code, with the number and the place of each.
#![tactic(auto)]

ghost use Rattle.std.specs.Prelude.{◌≡◌};
ghost use Rattle.rules.specs.Answers as rule;
ghost use Rattle.answers.specs.Cause.{cause};

// The causes, in the rules' order. One that has a place holds it.
#[derive(Clone, Copy)]
pub enum Refusal {
    Cells,
    Levels,
    Unit,
    Lists,
    Short,
    Position(usize),
    Range(usize),
    Confidence(usize),
    Difference(usize),
    Quotient(usize),
    Residual(usize),
    Sum(usize),
    Size,
    Side,
    NoStage,
    Incomplete(usize),
    Mark(usize),
    Field(usize),
    Trailing(usize),
}

impl Refusal {
    pub fn number(self) -> usize
        ensures { result ≡ rule.number (cause self) }
    {
        match self {
            Refusal::Cells => 1,
            Refusal::Levels => 2,
            Refusal::Unit => 2,
            Refusal::Lists => 3,
            Refusal::Short => 4,
            Refusal::Position(_) => 5,
            Refusal::Range(_) => 6,
            Refusal::Confidence(_) => 17,
            Refusal::Difference(_) => 15,
            Refusal::Quotient(_) => 7,
            Refusal::Residual(_) => 13,
            Refusal::Sum(_) => 14,
            Refusal::Size => 8,
            Refusal::Side => 16,
            Refusal::NoStage => 18,
            Refusal::Incomplete(_) => 9,
            Refusal::Mark(_) => 10,
            Refusal::Field(_) => 11,
            Refusal::Trailing(_) => 12,
        }
    }

    pub fn place(self) -> usize
        ensures { result ≡ rule.place (cause self) }
    {
        match self {
            Refusal::Cells => 0,
            Refusal::Levels => 0,
            Refusal::Unit => 0,
            Refusal::Lists => 0,
            Refusal::Short => 0,
            Refusal::Position(i) => i,
            Refusal::Range(i) => i,
            Refusal::Confidence(i) => i,
            Refusal::Difference(i) => i,
            Refusal::Quotient(k) => k,
            Refusal::Residual(k) => k,
            Refusal::Sum(k) => k,
            Refusal::Size => 0,
            Refusal::Side => 0,
            Refusal::NoStage => 0,
            Refusal::Incomplete(b) => b,
            Refusal::Mark(b) => b,
            Refusal::Field(b) => b,
            Refusal::Trailing(b) => b,
        }
    }
}
