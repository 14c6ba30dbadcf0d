// The decision on a claim file: whether every outcome of every listed shape is covered where it leads, and what then holds
// at each point. The promises stand on `check` and `record`.
#![tactic(auto)]

ghost use Rattle.std.specs.Prelude.{◌≡◌, length};
ghost use Rattle.model.specs.File.{handed_back};
ghost use Rattle.model.specs.Verdict.{verdict, buffer_after};
ghost use Rattle.checker.specs.Meaning.{verdict_of, SafeIfAccepted};

use crate::answers::open_points;
use crate::records::Listed;
use claim::fields::Refusal;

mod answers;
pub mod face;
mod records;
mod search;

// The rows of document 01's table. 0: M and the open points.
#[derive(Clone, Copy, Debug, PartialEq, Eq)]
pub struct Accepted {
    pub shapes: usize,
    pub open_points: usize,
}

// 1 to 6 with what reading found, 7, 9 with N, 8 with the shape's number and the successor.
#[derive(Clone, Copy, Debug, PartialEq, Eq)]
pub enum Refused {
    Unreadable(Refusal),
    NoEntry,
    ShortBuffer(usize),
    Uncovered(usize, usize),
}

impl From<Refusal> for Refused {
    ghost use Rattle.checker.specs.declared.Refused.TheVariants.{Unreadable};

    ghost from_gives = { λ r e. e ≡ Unreadable r };

    fn from(refusal: Refusal) -> Refused {
        Refused::Unreadable(refusal)
    }
}

pub type Verdict = Result<Accepted, Refused>;

// Decides on a file. Acceptance writes the answer's first N bytes; a refusal writes nothing.
pub fn check(file: &[u8], answer: &mut [u8]) -> Verdict
    ensures exact { (verdict_of result ≡ verdict file.now (length answer.old)) × (answer.new ≡ buffer_after file.now answer.old) }
    ensures safe { SafeIfAccepted result file.now }
{
    let claim = claim::scan(file)?;
    let points = claim.points;
    let listed = Listed {
        file,
        starts: &claim.starts,
        shapes: claim.shapes,
    };
    if !listed.lists_some(0) {
        return Err(Refused::NoEntry);
    }
    if answer.len() < points {
        return Err(Refused::ShortBuffer(points));
    }
    if let Some((shape, successor)) = listed.first_lost() {
        return Err(Refused::Uncovered(shape, successor));
    }
    listed.fill(points, answer);
    let accepted = Accepted {
        shapes: claim.shapes,
        open_points: open_points(&answer[..points]),
    };
    Ok(accepted)
}

// Hands back the part of the file that holds a record.
pub fn record(file: &[u8], number: usize) -> &[u8]
    ensures exact { result.now ≡ handed_back file.now number }
{
    claim::record(file, number)
}
