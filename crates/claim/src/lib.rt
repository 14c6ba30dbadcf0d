// The claim file, read a field at a time: refusals 1 to 6 with their places, where each record starts, and the part of
// the file that holds a record. One pass over the bytes.
#![tactic(auto)]

ghost use Rattle.std.specs.Prelude.{◌≡◌, IfOk, IfSome};
ghost use Rattle.format.specs.Meaning.{meaning};
ghost use Rattle.model.specs.Format.{format};
ghost use Rattle.model.specs.File.{version, marked, preamble, reading, handed_back};
ghost use Rattle.claim.specs.Answers.{reading_of};
ghost use Rattle.claim.specs.Reads.{Reads, place_of, Inside};

use crate::fields::{Fault, Refusal, byte, field, number};
pub use crate::parts::{Claim, STARTS};
use crate::reader::Reader;
use format::Format;
use std::ops::Range;

pub mod fields;
mod parts;
mod program;
mod reader;
mod shapes;

#[tactic(auto, unfolding(model::specs::File::marked))]
fn marked(file: &[u8]) -> bool
    ensures { result ≡ marked file.now }
{
    file.starts_with(b"SHC")
}

// Mark and version; hands on the format of the version.
#[tactic(auto, using(crate::proofs::Steps::steps), unfolding(model::specs::File::preamble))]
fn preamble(file: &[u8]) -> Result<Format, Refusal>
    ensures reading { reading_of result ≡ preamble file.now }
    ensures form { IfOk result (λ form. meaning form ≡ format (version file.now)) }
{
    field(file, 0, 3, Fault::WrongMark, marked(file))?;
    let version = number(file, 3, 2);
    field(file, 3, 2, Fault::WrongVersion, Format::known(version))?;
    Ok(Format::of(version))
}

// Reads a file.
#[tactic(auto, using(crate::proofs::Steps::steps), unfolding(model::specs::File::reading, model::specs::File::body))]
pub fn scan(file: &[u8]) -> Result<Claim, Refusal>
    ensures { Reads (format (version file.now)) file.now (reading file.now) result }
{
    let reader = Reader::new(preamble(file)?, file)?;
    reader.program()?;
    reader.records()
}

// Where the record of a number stands; there is none in a file that is refused, and none beyond M.
pub fn place(file: &[u8], number: usize) -> Option<Range<usize>>
    ensures is { result ≡ place_of file.now number }
    ensures inside { IfSome result (Inside file.now) }
{
    scan(file).ok()?.part(number)
}

// The part of the file that holds a record.
pub fn record(file: &[u8], number: usize) -> &[u8]
    ensures { result.now ≡ handed_back file.now number }
{
    match place(file, number) {
        Some(part) => &file[part],
        None => &[],
    }
}
