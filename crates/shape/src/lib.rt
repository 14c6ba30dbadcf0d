// The engine: a shape by value, what a statement makes of it, and its record in the file. Each function equals its
// definition in `model`. What only looks at a shape borrows it; whether a place can be opened is found out before anything
// is copied, and the stages of a result pass their one copy on by value.
#![tactic(auto)]

mod bits;
pub mod clearing;
pub mod covering;
mod firsts;
pub mod folding;
pub mod linking;
mod links;
pub mod opening;
pub mod records;
pub mod stepping;
pub mod truth;
pub mod variables;
pub mod writing;

ghost use Rattle.std.specs.Prelude.{◌≡◌, ◌<◌};
ghost use Rattle.model.specs.Shape as M;
ghost use Rattle.model.specs.Step.{edge, with_n, into, sharing, from_u};
ghost use Rattle.shape.specs.Meaning.{meaning, none, truth_of};

use truth::Truth;

// A working shape has at most so many individuals and link values. Individuals, variables and places of a step are plain
// numbers, each bounded where it is taken: a type for them would change what the public functions are handed.
pub const EDGE: usize = 11;

pub const CELLS: usize = EDGE * EDGE;

// Individual a has the variables masks[a]; flags[a] is 1 if it is shared, plus 2 if it is a summary; its link to b has
// the value links[a * EDGE + b]. A count beside arrays is the form of document 01. That n is at most EDGE is asked where it
// is needed, and not by the type: `link`, `key` and `moved` take a shape of any n, and may not ask more.
#[derive(Clone, Copy, Debug, PartialEq, Eq)]
pub struct Shape {
    pub n: usize,
    pub masks: [u16; EDGE],
    pub flags: [u8; EDGE],
    pub links: [u8; CELLS],
}

// Where a variable is held. An enum of its own, and no Option: the form of document 01.
#[derive(Clone, Copy, Debug, PartialEq, Eq)]
pub enum Place {
    At(usize),
    Null,
}

// An outcome of a step: where it goes on, and the folded shape.
#[derive(Clone, Copy, Debug, PartialEq, Eq)]
pub struct Outcome {
    pub successor: usize,
    pub shape: Shape,
}

impl Shape {
    // No individuals.
    pub fn empty() -> Shape
        ensures { meaning result ≡ none }
    {
        Shape {
            n: 0,
            masks: [0; EDGE],
            flags: [0; EDGE],
            links: [0; CELLS],
        }
    }

    // The link from a to b.
    pub fn link(&self, a: usize, b: usize) -> Truth
        requires { (a < edge) × (b < edge) }
        ensures { truth_of result ≡ (meaning self.now).n.link a b }
    {
        Truth(self.links[a * EDGE + b])
    }

    // The link from a to b becomes v.
    pub fn set_link(&mut self, a: usize, b: usize, v: Truth)
        requires { (a < edge) × (b < edge) }
        ensures { meaning self.new ≡ with_n (meaning self.old) (into b (from_u a (truth_of v)) (meaning self.old).n) }
    {
        self.links[a * EDGE + b] = v.0;
    }

    // Individual a is shared.
    pub fn shared(&self, a: usize) -> bool
        requires { a < edge }
        ensures { result ≡ (meaning self.now).n.shared a }
    {
        self.flags[a] % 2 == 1
    }

    // Individual a becomes shared, or unshared.
    pub fn set_shared(&mut self, a: usize, shared: bool)
        requires { a < edge }
        ensures { meaning self.new ≡ with_n (meaning self.old) (sharing a shared (meaning self.old).n) }
    {
        let f = self.flags[a];
        self.flags[a] = f - f % 2 + u8::from(shared);
    }

    // Individual a is a summary.
    pub fn summary(&self, a: usize) -> bool
        requires { a < edge }
        ensures { result ≡ (meaning self.now).summary a }
    {
        self.flags[a] / 2 % 2 == 1
    }

    // The individual's key: its shared bit weighs more than any mask.
    pub fn key(&self, a: usize) -> u32
        requires { a < edge }
        ensures { result ≡ M.key 65536 (meaning self.now) a }
    {
        bits::key(self.masks[a], self.flags[a])
    }
}
