// One step: the outcomes of a statement on a shape, one by one by a place number, in the definition's order.
ghost use Rattle.std.specs.Prelude.{◌≡◌, cond, Some, [], ◌∷◌, map, ◌*◌, ◌/◌, ◌<◌, ◌≤◌, eqb};
ghost use Rattle.model.specs.Finite.{null, null_ref, equal};
ghost use Rattle.model.specs.Shape as M;
ghost use Rattle.model.specs.Step as S;
ghost use Rattle.model.specs.Step.{edge, folded_result};
ghost use Rattle.model.specs.Claim.{op_of};
ghost use Rattle.shape.specs.Meaning.{meaning, trimmed_result, Gives};
ghost use Rattle.shape.specs.Slots.{load_slot, clear_slot, store_slot, through_slot, places_of, outcome_slot, Yields};

use super::{Outcome, Place, Shape, clearing, folding, linking, opening, variables};

// A statement as the file has it: the number of its op, since ranges of the op pick the step (a form of document 01), its
// variables, which the masks have room for, and its successors.
#[derive(Clone, Copy, Debug, PartialEq, Eq)]
pub struct Statement {
    pub op: u8,
    pub x: u8,
    pub y: u8,
    pub s1: usize,
    pub s2: usize,
    pub ghost x_low: { x < 16 },
    pub ghost y_low: { y < 16 },
}

// How many places a statement has for a shape of n individuals.
pub fn places(op: u8, n: usize) -> usize
    requires { n ≤ edge }
    ensures { result ≡ places_of op n }
{
    match op {
        5 => 2 * n + 1,
        6 => 2 * (2 * n + 1),
        7 => 4 * (2 * n + 1),
        1..=9 => 1,
        _ => 0,
    }
}

// Folding ends every step.
fn finished(s: Shape, successor: usize) -> Outcome
    requires { s.n ≤ edge }
    ensures { Yields (map trimmed_result (map folded_result ((successor, meaning s) ∷ []))) (Some result) }
{
    Outcome {
        successor,
        shape: folding::fold(s),
    }
}

// What goes through a link takes the place of its variable apart by let else, each in its step: a form of document 01.
impl Statement {
    // Ops 2 and 3: the variable moves, by its value before the step.
    fn assigned(self, s: &Shape) -> Shape
        requires { s.now.n ≤ edge }
        ensures { meaning result ≡ S.moved (meaning s.now) self.x (cond (eqb self.op 2) null (M.holder (meaning s.now) self.y)) }
    {
        let place = if self.op == 2 {
            Place::Null
        } else {
            variables::holder(s, self.y)
        };
        variables::moved(*s, self.x, place)
    }

    // Op 5: x moves to the target of opening y's individual.
    fn load(self, s: &Shape, j: usize) -> Option<Shape>
        requires { (s.now.n < edge) × (j ≤ 2 * s.now.n) }
        ensures { Gives (S.at_holder (M.holder (meaning s.now) self.y) (λ u. load_slot (meaning s.now) u self.x j)) result }
    {
        let Place::At(u) = variables::holder(s, self.y) else {
            return None;
        };
        let opened = opening::open(s, u, j)?;
        Some(variables::moved(opened.shape, self.x, opened.target))
    }

    // Op 6: x's individual is cleared.
    fn cut(self, s: &Shape, j: usize) -> Option<Shape>
        requires { (s.now.n < edge) × (j / 2 ≤ 2 * s.now.n) }
        ensures { Gives (S.at_holder (M.holder (meaning s.now) self.x) (λ u. clear_slot (meaning s.now) u j)) result }
    {
        let Place::At(u) = variables::holder(s, self.x) else {
            return None;
        };
        clearing::clear(s, u, j)
    }

    // Op 7: x's individual is cleared, then linked to y's.
    fn store(self, s: &Shape, j: usize) -> Option<Shape>
        requires { (s.now.n < edge) × (j / 2 / 2 ≤ 2 * s.now.n) }
        ensures { Gives (S.at_holder (M.holder (meaning s.now) self.x) (λ u. store_slot (meaning s.now) u (M.holder (meaning s.now) self.y) j)) result }
    {
        let Place::At(u) = variables::holder(s, self.x) else {
            return None;
        };
        linking::store(s, u, variables::holder(s, self.y), j)
    }

    // Ops 5 to 7, which go through a link.
    fn through(self, s: &Shape, j: usize) -> Option<Shape>
        requires { (s.now.n < edge) × (4 < self.op) × (self.op < 8) × (j < places_of self.op s.now.n) }
        ensures { Gives (through_slot self.op self.x self.y (meaning s.now) j) result }
    {
        match self.op {
            5 => self.load(s, j),
            6 => self.cut(s, j),
            _ => self.store(s, j),
        }
    }

    // Ops 8 and 9: what the shape decides.
    fn decided(self, s: &Shape) -> bool
        requires { s.now.n ≤ edge }
        ensures { result ≡ cond (eqb self.op 8) (null_ref (M.holder (meaning s.now) self.x)) (equal (M.holder (meaning s.now) self.x) (M.holder (meaning s.now) self.y)) }
    {
        let place = variables::holder(s, self.x);
        if self.op == 8 {
            return place == Place::Null;
        }
        place == variables::holder(s, self.y)
    }
}

// The outcome of a statement at place j.
pub fn outcome(here: Statement, s: &Shape, j: usize) -> Option<Outcome>
    requires { (s.now.n < edge) × (j < places_of here.op s.now.n) }
    ensures { Yields (outcome_slot (op_of here.op here.x here.y here.s1 here.s2) (meaning s.now) j) result }
{
    match here.op {
        1 => Some(finished(*s, here.s1)),
        2..=3 => Some(finished(here.assigned(s), here.s1)),
        4 => Some(finished(variables::fresh(*s, here.x), here.s1)),
        5..=7 => Some(finished(here.through(s, j)?, here.s1)),
        8..=9 => {
            let successor = if here.decided(s) { here.s1 } else { here.s2 };
            Some(finished(*s, successor))
        }
        _ => None,
    }
}
