// A shape's record, read from a part of the file.
ghost use Rattle.std.specs.Prelude.{◌≡◌, cond, ◌&&◌, ◌+◌, ◌*◌, ◌≤◌, ltb, length};
ghost use Rattle.model.specs.Truth.{truth, 𝟘};
ghost use Rattle.model.specs.Step.{edge};
ghost use Rattle.model.specs.File.{byte, number};
ghost use Rattle.model.specs.Claim.{shape_of};
ghost use Rattle.shape.specs.Meaning.{meaning, grid};
ghost use Rattle.shape.specs.Records.{sized, Readable};

use super::{CELLS, EDGE, Shape};

// ---- places and numbers. The width of a mask, 1 or 2, is a number, as it is counted with; a part and its width are tied by
// `Readable` where a record is read or covered, and elsewhere each is used without the other.

// Where individual a stands, or, for a the number of individuals, the first link value.
pub(crate) fn individual_at(width: usize, a: usize) -> usize
    requires { (width ≤ 2) × (a ≤ edge) }
    ensures { result ≡ 2 + (width + 1) * a }
{
    2 + (width + 1) * a
}

// A mask of one byte or two, low byte first.
pub fn mask_at(part: &[u8], at: usize, width: usize) -> u16
    requires { (1 ≤ width) × (width ≤ 2) × (at + width ≤ length part.now) }
    ensures { result ≡ number width part.now at }
{
    if width == 1 {
        return u16::from(part[at]);
    }
    u16::from_le_bytes([part[at], part[at + 1]])
}

// ---- reading

// The k times k link values that stand from a place on. The matrix starts as zeros and is filled row by row (a form of
// document 01), by number, which says where a row stands in the flat matrix and in the part.
fn links_of(part: &[u8], place: usize, k: usize) -> [u8; CELLS]
    requires { (k ≤ edge) × (place + k * k ≤ length part.now) }
    ensures { grid result ≡ (λ a b. cond (ltb a k && ltb b k) (truth (byte part.now (place + k * a + b))) 𝟘) }
{
    let mut r = [0; CELLS];
    for a in 0..k {
        let from = place + k * a;
        r[a * EDGE..a * EDGE + k].copy_from_slice(&part[from..from + k]);
    }
    r
}

// The shape of a record, the point's byte first; each individual's flags stand after its mask. Both arrays are filled in
// a loop: made by `from_fn` their values were copied one by one with the shape, and the steps after it were a twentieth
// slower when that was tried.
pub fn read(part: &[u8], width: usize) -> Shape
    requires { Readable part.now width }
    ensures { meaning result ≡ shape_of (sized width) part.now }
{
    let n = usize::from(part[1]);
    let mut masks = [0; EDGE];
    let mut flags = [0; EDGE];
    // By index: over `chunks_exact(width + 1)` the proof didn't close, and the arrays need the index anyway.
    for a in 0..n {
        let at = individual_at(width, a);
        masks[a] = mask_at(part, at, width);
        flags[a] = part[at + width];
    }
    Shape {
        n,
        masks,
        flags,
        links: links_of(part, individual_at(width, n), n),
    }
}
