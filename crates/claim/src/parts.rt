// What reading a file hands on.
ghost use Rattle.std.specs.Prelude.{◌≤◌};

use std::ops::Range;

// Room for where each of 512 records starts, and where the last one ends.
pub const STARTS: usize = 513;

// V, N and M, and where each record starts; record i ends where i + 1 starts, or would. Memory is fixed, so the starts stand
// in an array with M beside it.
#[derive(Clone, Copy)]
pub struct Claim {
    pub vars: usize,
    pub points: usize,
    pub shapes: usize,
    pub starts: [usize; STARTS],
    pub ghost few: { shapes ≤ 512 },
}

impl Claim {
    ghost use Rattle.std.specs.Prelude.{◌≡◌};
    ghost use Rattle.claim.specs.Reads.{part_of};

    // Where a record starts and where it ends; there is none beyond M.
    pub fn part(&self, number: usize) -> Option<Range<usize>>
        ensures { result ≡ part_of self.now number }
    {
        if number < self.shapes {
            Some(self.starts[number]..self.starts[number + 1])
        } else {
            None
        }
    }
}
