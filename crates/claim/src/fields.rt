// One field of the file: a number of some bytes, and what becomes of it.
ghost use Rattle.std.specs.Prelude.{◌≡◌, ◌+◌, ◌≤◌, ◌<◌, length, IfOk, IsTrue};
ghost use Rattle.model.specs.File.{◌then◌, byte, number, within, field};
ghost use Rattle.model.specs.Verdict.{answer, unreadable, answer_of};
ghost use Rattle.claim.specs.Answers.{fault_of, reading_of};

use std::fmt;

// What can be wrong with a file: refusals 1 to 6.
#[derive(Clone, Copy, Debug, PartialEq, Eq)]
pub enum Fault {
    CutShort,
    WrongMark,
    WrongVersion,
    BeyondLimit,
    WrongPoint,
    WrongShape,
}

// A row of the table of answers, by numbers: C gets it and the programs print it.
#[derive(Clone, Copy, Debug, PartialEq, Eq)]
pub struct Row {
    pub number: usize,
    pub a: usize,
    pub b: usize,
}

impl Fault {
    // The paper's number, a and b for a fault at a place.
    pub fn row(self, place: usize) -> Row
        ensures { answer result.number result.a result.b ≡ answer_of (unreadable (fault_of self) place) }
    {
        let (number, a) = match self {
            Fault::CutShort => (1, place),
            Fault::WrongMark => (2, 0),
            Fault::WrongVersion => (3, 3),
            Fault::BeyondLimit => (4, place),
            Fault::WrongPoint => (5, place),
            Fault::WrongShape => (6, place),
        };
        Row { number, a, b: 0 }
    }
}

// What a file is refused for: a fault at a place.
#[derive(Clone, Copy, Debug, PartialEq, Eq)]
pub struct Refusal {
    pub fault: Fault,
    pub place: usize,
}

impl Refusal {
    // The paper's number, a and b.
    pub fn row(self) -> Row
        ensures { answer result.number result.a result.b ≡ answer_of (unreadable (fault_of self.fault) self.place) }
    {
        self.fault.row(self.place)
    }
}

impl fmt::Display for Row {
    ghost use Rattle.std.specs.Prelude.{Some};
    ghost use Rattle.claim.specs.Printed.{row_text};

    ghost output = { λ r. Some (row_text r) };

    fn fmt<W: fmt::Write>(&self, f: &mut fmt::Formatter<W>) -> fmt::Result {
        let Row { number, a, b } = *self;
        write!(f, "{number} {a} {b}")
    }
}

// The byte at a place; 0 beyond the end, as in the definitions.
pub fn byte(file: &[u8], place: usize) -> usize
    ensures is { result ≡ byte file.now place }
    ensures low { result < 256 }
{
    file.get(place).map_or(0, |b| usize::from(*b))
}

// A number of up to two bytes, low byte first.
pub fn number(file: &[u8], place: usize, width: usize) -> usize
    requires { width ≤ 2 }
    ensures is { result ≡ number width file.now place }
    ensures low { result < 65536 }
{
    match width {
        0 => 0,
        1 => byte(file, place),
        _ => byte(file, place) + 256 * byte(file, place.saturating_add(1)),
    }
}

// From low to high.
pub fn within(low: usize, v: usize, high: usize) -> bool
    ensures { result ≡ within low v high }
{
    (low..=high).contains(&v)
}

// A field of so many bytes at a place, which is right or not.
#[tactic(auto, using(crate::proofs::Steps::one_field))]
pub fn field(
    file: &[u8],
    place: usize,
    width: usize,
    fault: Fault,
    right: bool,
) -> Result<(), Refusal>
    ensures reading { reading_of result ≡ field file.now place width (fault_of fault) right }
    ensures there { IfOk result (λ _. place + width ≤ length file.now) }
    ensures right { IfOk result (λ _. IsTrue right) }
{
    let length = file.len();
    if length < place || length - place < width {
        return Err(Refusal {
            fault: Fault::CutShort,
            place: length,
        });
    }
    if right {
        Ok(())
    } else {
        Err(Refusal { fault, place })
    }
}
