// The answer bytes: what holds at each point of an accepted claim. Bytes are written and counted as the definition has them.
ghost use Rattle.std.specs.Prelude.{◌≡◌, cond, not, Bool, ◌||◌, ◌++◌, ◌%◌, ◌<◌, ◌≤◌, eqb, length, drop, count_by};
ghost use Rattle.std.specs.Fn.{FnReturnsAt};
ghost use Rattle.model.specs.Finite.{at};
ghost use Rattle.model.specs.Store.{goes_through};
ghost use Rattle.model.specs.Shape as M;
ghost use Rattle.model.specs.Step.{edge};
ghost use Rattle.model.specs.File.{points};
ghost use Rattle.model.specs.Claim.{claim};
ghost use Rattle.model.specs.Verdict.{none_shared, all_listed, low_part, answer_byte, table};
ghost use Rattle.shape.specs.Meaning.{meaning};
ghost use Rattle.checker.specs.Meaning.{Computes};

use crate::records::Listed;
use shape::{Place, Shape, variables};

fn none_shared(s: &Shape) -> bool
    requires { s.now.n ≤ edge }
    ensures { result ≡ none_shared (meaning s.now) }
{
    (0..s.n).all(|a| !s.shared(a))
}

impl Listed<'_> {
    // Every shape listed at p passes the test. A loop, since `all` over a closure that calls the test was tried and left its
    // calls unproved.
    fn all_listed<F: Fn(&Shape) -> bool>(&self, p: usize, test: F) -> bool
        requires { (s : _) → s.now.n ≤ edge → F.pre test s }
        ensures { (T : M.Shape → Bool) → Computes (FnReturnsAt F.Fn test) T → result ≡ all_listed (claim self.now.file.now) p T }
    {
        for i in 0..self.shapes {
            if self.point(i) != p {
                continue;
            }
            if !test(&self.shape(i)) {
                return false;
            }
        }
        true
    }

    // The low part of a point that goes through x: 1 if every listed shape has it set, 2 if some has it null.
    fn set_or_open(&self, p: usize, x: u8) -> u8
        requires { x < 16 }
        ensures { result ≡ low_part (claim self.now.file.now) p (at x) }
    {
        if self.all_listed(p, |s| variables::holder(s, x) != Place::Null) {
            1
        } else {
            2
        }
    }

    fn low_part(&self, p: usize) -> u8
        requires { p < points self.now.file.now }
        ensures is { result ≡ low_part (claim self.now.file.now) p (goes_through ((claim self.now.file.now).op p)) }
        ensures low { result ≤ 2 }
    {
        let here = self.statement(p);
        match here.op {
            5 => self.set_or_open(p, here.y),
            6..=7 => self.set_or_open(p, here.x),
            _ => 0,
        }
    }

    fn byte(&self, p: usize) -> u8
        requires { p < points self.now.file.now }
        ensures { result ≡ answer_byte (claim self.now.file.now) p }
    {
        if !self.lists_some(p) {
            return 3;
        }
        let low = self.low_part(p);
        if self.all_listed(p, none_shared) {
            return low + 4;
        }
        low
    }

    // Writes the bytes of the points at the front of the answer.
    pub fn fill(&self, n: usize, answer: &mut [u8])
        requires { (n ≡ points self.now.file.now) × (n ≤ length answer.old) }
        ensures { answer.new ≡ table (answer_byte (claim self.now.file.now)) n ++ drop n answer.old }
    {
        for (p, byte) in answer[..n].iter_mut().enumerate() {
            *byte = self.byte(p);
        }
    }
}

// How many bytes have the low part 2.
pub fn open_points(answer: &[u8]) -> usize
    ensures { result ≡ count_by (λ byte. eqb (byte % 4) 2) answer.now }
{
    answer.iter().filter(|byte| **byte % 4 == 2).count()
}
