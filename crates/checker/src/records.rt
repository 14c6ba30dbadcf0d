// The records of a file that was read, where they stand: the statement at a point, the point and the shape of a record.
ghost use Rattle.std.specs.Prelude.{◌≡◌, ◌<◌, ◌≤◌};
ghost use Rattle.model.specs.Format.{version_1};
ghost use Rattle.model.specs.File.{points, part};
ghost use Rattle.model.specs.Claim.{claim};
ghost use Rattle.model.specs.Verdict.{lists_some};
ghost use Rattle.model.specs.Step.{edge};
ghost use Rattle.checker.specs.Laid.{Laid, Holds, stated, covers_it};

use claim::STARTS;
use shape::stepping::Statement;
use shape::{Outcome, Shape};

// A file that was read, with so many shapes, and where the record of each starts: an array with a count beside it, as memory
// is fixed.
#[derive(Clone, Copy)]
pub struct Listed<'a> {
    pub file: &'a [u8],
    pub starts: &'a [usize; STARTS],
    pub shapes: usize,
    ghost laid: { Laid file.now starts.now shapes },
}

// Points and numbers of shapes are plain numbers, bounded where they are taken: outcomes and records bring them as such.
impl Listed<'_> {
    // The statement at a point.
    pub fn statement(&self, p: usize) -> Statement
        requires { p < points self.now.file.now }
        ensures { stated result ≡ (claim self.now.file.now).op p }
    {
        let at = 7 + 5 * p;
        let record = &self.file[at..at + 5];
        Statement {
            op: record[0],
            x: record[1],
            y: record[2],
            s1: usize::from(record[3]),
            s2: usize::from(record[4]),
        }
    }

    // The point that lists shape i.
    pub fn point(&self, i: usize) -> usize
        requires { i < self.now.shapes }
        ensures is { result ≡ (claim self.now.file.now).point i }
        ensures low { result < points self.now.file.now }
    {
        usize::from(self.file[self.starts[i]])
    }

    // The part of the file that holds the record of shape i.
    fn part(&self, i: usize) -> &[u8]
        requires { i < self.now.shapes }
        ensures { result.now ≡ part version_1 self.now.file.now i }
    {
        &self.file[self.starts[i]..self.starts[i + 1]]
    }

    pub fn shape(&self, i: usize) -> Shape
        requires { i < self.now.shapes }
        ensures { Holds ((claim self.now.file.now).shape i) result }
    {
        shape::records::read(self.part(i), 1)
    }

    // Shape i is listed where the outcome leads, and covers it.
    pub fn covers(&self, i: usize, outcome: &Outcome) -> bool
        requires { (i < self.now.shapes) × (outcome.now.shape.n ≤ edge) }
        ensures { result ≡ covers_it (claim self.now.file.now) outcome.now i }
    {
        self.point(i) == outcome.successor
            && shape::covering::covered(&outcome.shape, self.part(i), 1)
    }

    // Some shape is listed at p.
    pub fn lists_some(&self, p: usize) -> bool
        ensures { result ≡ lists_some (claim self.now.file.now) p }
    {
        (0..self.shapes).any(|i| self.point(i) == p)
    }
}
