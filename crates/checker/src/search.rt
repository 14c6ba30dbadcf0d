// The search for an outcome that isn't covered where it leads.
ghost use Rattle.model.specs.Claim.{claim};
ghost use Rattle.checker.specs.Meaning.{Says};

use crate::records::Listed;
use shape::stepping;

impl Listed<'_> {
    // The lowest shape number with an uncovered outcome, and where its first one leads.
    pub fn first_lost(&self) -> Option<(usize, usize)>
        ensures { Says result (claim self.now.file.now) }
    {
        let mut found = None;
        'claim: for i in 0..self.shapes {
            let shape = self.shape(i);
            let here = self.statement(self.point(i));
            let count = stepping::places(here.op, shape.n);
            'result: for j in 0..count {
                let Some(outcome) = stepping::outcome(here, &shape, j) else {
                    continue 'result;
                };
                'listed: for t in 0..self.shapes {
                    if self.covers(t, &outcome) {
                        continue 'result;
                    }
                }
                found = Some((i, outcome.successor));
                break 'claim;
            }
        }
        found
    }
}
