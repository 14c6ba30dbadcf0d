// Truth values: 0, 1 and 1/2, which is written 2, how two of them join, and which lies under which.
ghost use Rattle.std.specs.Prelude.{◌≡◌, Bool};
ghost use Rattle.model.specs.Truth as M;
ghost use Rattle.model.specs.Truth.{truth, may, must, half, join, under};

// A byte as the file has it, and no enum: the matrix is read and written by bytes, of which whatever is above 1 is 1/2.
#[derive(Clone, Copy, Debug, PartialEq, Eq)]
pub struct Truth(pub u8);

impl Truth {
    pub const ZERO: Truth = Truth(0);

    pub const ONE: Truth = Truth(1);

    pub const HALF: Truth = Truth(2);

    // The common value, or 1/2.
    pub fn join(self, other: Truth) -> Truth
        ensures { truth result.0 ≡ join (truth self.0) (truth other.0) }
    {
        if self == other { self } else { Truth::HALF }
    }

    // It is the other value, or that is 1/2.
    pub fn under(self, other: Truth) -> bool
        ensures { result ≡ under (truth self.0) (truth other.0) }
    {
        self == other || other.half()
    }

    // A nonzero link.
    pub fn may(self) -> bool
        ensures { result ≡ may (truth self.0) }
    {
        0 < self.0
    }

    // Link 1.
    pub fn must(self) -> bool
        ensures { result ≡ must (truth self.0) }
    {
        self.0 == 1
    }

    // A link that there may be or not.
    pub fn half(self) -> bool
        ensures { result ≡ half (truth self.0) }
    {
        1 < self.0
    }
}

// How sure a link has to be.
pub trait Certainty {
    ghost test: { M.Truth → Bool };

    fn met(v: Truth) -> bool
        ensures { result ≡ test (truth v.0) };
}

// There may be one.
pub struct May;

impl Certainty for May {
    ghost test = { may };

    fn met(v: Truth) -> bool {
        v.may()
    }
}

// There must be one.
pub struct Must;

impl Certainty for Must {
    ghost test = { must };

    fn met(v: Truth) -> bool {
        v.must()
    }
}
