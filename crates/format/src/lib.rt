// A version of the claim file by value: its limits and widths. Reader, engine and checker take one, and have no limit of
// their own, so that a later version is a further value.
#![tactic(auto)]

ghost use Rattle.std.specs.Prelude.{◌≤◌};

#[derive(Clone, Copy)]
pub struct Format {
    // V is at most this; N is from 1 to this; M is at most this
    pub vars: usize,
    pub points: usize,
    pub shapes: usize,
    // k is at most V and this
    pub spare: usize,
    // the highest op
    pub ops: usize,
    // the bytes of a mask
    pub width: usize,
    // the weight of the shared bit in a key
    pub weight: usize,
    // flags are at most this
    pub flags: usize,
    // what the arrays and numbers of the code have room for
    pub ghost vars_room: { vars ≤ 12 },
    pub ghost shapes_room: { shapes ≤ 512 },
    pub ghost spare_room: { spare ≤ 255 },
    pub ghost width_room: { width ≤ 2 },
    pub ghost weight_room: { weight ≤ 4096 },
}

impl Format {
    ghost use Rattle.std.specs.Prelude.{◌≡◌};
    ghost use Rattle.format.specs.Meaning.{meaning};
    ghost use Rattle.model.specs.Format.{version_1, known, format};

    // The versions that there are, and the format of each. Two functions and no Option: `of` is public and never failed.
    pub fn known(version: usize) -> bool
        ensures { result ≡ known version }
    {
        version == 1
    }

    pub fn of(version: usize) -> Format
        ensures { meaning result ≡ format version }
    {
        Format::version_1()
    }

    pub fn version_1() -> Format
        ensures { meaning result ≡ version_1 }
    {
        Format {
            vars: 8,
            points: 64,
            shapes: 512,
            spare: 2,
            ops: 9,
            width: 1,
            weight: 256,
            flags: 3,
        }
    }
}
