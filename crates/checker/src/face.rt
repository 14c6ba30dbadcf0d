// The library's face for other languages: numbers and byte slices only. `checker_c` exports it to C, as an export stands in a
// static library of its own.
ghost use Rattle.std.specs.Prelude.{◌≡◌, length, Ok, Err};
ghost use Rattle.model.specs.Verdict.{answer, answer_of, verdict, buffer_after};
ghost use Rattle.checker.specs.Meaning.{verdict_of, handed_place};

use crate::{Accepted, Refused, Verdict, check};
use claim::fields::Row;

impl Accepted {
    fn row(self) -> Row
        ensures { answer result.number result.a result.b ≡ answer_of (verdict_of (Ok self)) }
    {
        Row {
            number: 0,
            a: self.shapes,
            b: self.open_points,
        }
    }
}

impl Refused {
    fn row(self) -> Row
        ensures { answer result.number result.a result.b ≡ answer_of (verdict_of (Err self)) }
    {
        match self {
            Refused::Unreadable(refusal) => refusal.row(),
            Refused::NoEntry => Row {
                number: 7,
                a: 0,
                b: 0,
            },
            Refused::ShortBuffer(points) => Row {
                number: 9,
                a: points,
                b: 0,
            },
            Refused::Uncovered(shape, successor) => Row {
                number: 8,
                a: shape,
                b: successor,
            },
        }
    }
}

// The paper's number, a and b.
pub fn row(verdict: Verdict) -> Row
    ensures { answer result.number result.a result.b ≡ answer_of (verdict_of verdict) }
{
    verdict.map_or_else(Refused::row, Accepted::row)
}

// Decides on a file: the number, with a and b, and the answer bytes where it is 0.
pub fn claim_check(file: &[u8], out: &mut [u8], a: &mut usize, b: &mut usize) -> usize
    ensures exact { (answer result a.new b.new ≡ answer_of (verdict file.now (length out.old))) × (out.new ≡ buffer_after file.now out.old) }
{
    let row = row(check(file, out));
    *a = row.a;
    *b = row.b;
    row.number
}

// The part of a file that holds a record, as C gets it: its start and length, 0 and 0 where there is none.
#[derive(Clone, Copy)]
pub struct Part {
    pub start: usize,
    pub length: usize,
}

pub fn place(file: &[u8], number: usize) -> Part
    ensures exact { (result.start, result.length) ≡ handed_place file.now number }
{
    let part = claim::place(file, number).unwrap_or(0..0);
    Part {
        start: part.start,
        length: part.len(),
    }
}

pub fn claim_record(file: &[u8], number: usize, start: &mut usize) -> usize
    ensures exact { (start.new, result) ≡ handed_place file.now number }
{
    let part = place(file, number);
    *start = part.start;
    part.length
}
