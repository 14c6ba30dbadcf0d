// Steps shapes and prints their outcomes. Each line of the input has op, x, y, s1, s2 and a shape as its record has it
// (k, mask and flags of each, the link values row by row); after it the output has each outcome, successor and record.
#![tactic(auto)]

ghost use Rattle.std.specs.Prelude.{◌<◌, ◌≤◌};
ghost use Rattle.model.specs.Step.{edge};

use input::ROOM;
use shape::stepping::Statement;
use shape::{EDGE, Outcome, Shape, records, stepping};
use std::io;
use std::io::Write;

// The longest record: k is at most 10.
const LONGEST: usize = 122;

// ---- reading

// The numbers of a text; whatever is no digit sets them apart.
#[derive(Clone, Copy)]
struct Numbers<'a> {
    rest: &'a [u8],
}

impl Numbers<'_> {
    // Whether there is one more. What stands before it is passed over.
    fn more(&mut self) -> bool {
        let length = self.rest.len();
        let gap = self
            .rest
            .iter()
            .position(|b| b.is_ascii_digit())
            .unwrap_or(length);
        self.rest = &self.rest[gap..];
        gap < length
    }

    // The next one, modulo 256; 0 at the end.
    fn number(&mut self) -> u8 {
        self.more();
        let length = self.rest.len();
        let digits = self
            .rest
            .iter()
            .position(|b| !b.is_ascii_digit())
            .unwrap_or(length);
        let (number, rest) = self.rest.split_at(digits);
        self.rest = rest;
        number.iter().fold(0u8, |v, b| {
            v.wrapping_mul(10).wrapping_add(b.wrapping_sub(b'0'))
        })
    }

    // A record's k individuals and link values; its point is 0. Of one that is too large there is only k.
    fn record(&mut self) -> [u8; LONGEST] {
        let mut bytes = [0u8; LONGEST];
        let k = self.number();
        bytes[1] = k;
        if k < 11 {
            let k = usize::from(k);
            for byte in &mut bytes[2..2 + 2 * k + k * k] {
                *byte = self.number();
            }
        }
        bytes
    }
}

// The shape of a record, or none if it is too large, which is asked again: of the bytes no more is known here.
fn shape_of(bytes: &[u8; LONGEST]) -> Shape
    ensures { result.n < edge }
{
    if bytes[1] < 11 {
        return records::read(bytes, 1);
    }
    Shape::empty()
}

// ---- writing

fn word<W: Write>(out: &mut W, v: usize) -> io::Result<()> {
    write!(out, " {v}")
}

fn words<W: Write>(out: &mut W, s: &Shape) -> io::Result<()>
    requires { s.now.n ≤ edge }
{
    let n = s.n;
    word(out, n)?;
    for (mask, flags) in s.masks[..n].iter().zip(&s.flags[..n]) {
        word(out, usize::from(*mask))?;
        word(out, usize::from(*flags))?;
    }
    // row by row of the flat matrix, of which only the first n links are a shape's
    for a in 0..n {
        for v in &s.links[a * EDGE..a * EDGE + n] {
            word(out, usize::from(*v))?;
        }
    }
    Ok(())
}

fn show<W: Write>(out: &mut W, outcome: &Outcome) -> io::Result<()>
    requires { outcome.now.shape.n ≤ edge }
{
    let successor = outcome.successor;
    write!(out, " ; {successor} :")?;
    words(out, &outcome.shape)
}

// ---- steps

fn outcomes<W: Write>(out: &mut W, here: Statement, s: &Shape) -> io::Result<()>
    requires { s.now.n < edge }
{
    for j in 0..stepping::places(here.op, s.n) {
        if let Some(outcome) = stepping::outcome(here, s, j) {
            show(out, &outcome)?;
        }
    }
    Ok(())
}

fn line<W: Write>(out: &mut W, numbers: &mut Numbers) -> io::Result<()> {
    let op = numbers.number();
    let x = numbers.number();
    let y = numbers.number();
    let s1 = numbers.number();
    let s2 = numbers.number();
    let s = shape_of(&numbers.record());
    write!(out, "{op} {x} {y} {s1} {s2} ;")?;
    words(out, &s)?;
    let here = Statement {
        op,
        x: x % 16,
        y: y % 16,
        s1: usize::from(s1),
        s2: usize::from(s2),
    };
    outcomes(out, here, &s)?;
    writeln!(out)
}

// There are at most as many lines as bytes.
fn lines<W: Write>(out: &mut W, text: &[u8]) -> io::Result<()> {
    let mut numbers = Numbers { rest: text };
    for _ in 0..text.len() {
        if !numbers.more() {
            break;
        }
        line(out, &mut numbers)?;
    }
    Ok(())
}

fn main(rt: HostRuntime) -> io::Result<()> {
    let mut text = [0u8; ROOM];
    let n = input::fill(&mut rt.stdin(), &mut text)?;
    lines(&mut rt.stdout(), &text[..n])
}
