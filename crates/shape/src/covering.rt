// Covering: a shape against a listed record where it stands in the file. Keys and flags are looked at before any link.
ghost use Rattle.std.specs.Prelude.{◌≡◌, ◌+◌, ◌*◌, ◌<◌, ◌≤◌, length};
ghost use Rattle.model.specs.Truth.{truth, under};
ghost use Rattle.model.specs.Finite.{every};
ghost use Rattle.model.specs.Shape as M;
ghost use Rattle.model.specs.Step.{edge};
ghost use Rattle.model.specs.File.{byte, number};
ghost use Rattle.model.specs.Claim.{shape_of};
ghost use Rattle.shape.specs.Meaning.{meaning, grid, mask};
ghost use Rattle.shape.specs.Records.{sized, Readable, keys_agree};

use super::truth::Truth;
use super::{Shape, records};

// The same key, and a summary only if the other is one.
fn agrees(m: u16, f: u8, q: u16, g: u8) -> bool
    ensures { result ≡ keys_agree m f q g }
{
    m == q && f % 2 == g % 2 && (f / 2 % 2 != 1 || g / 2 % 2 == 1)
}

fn keys_covered(s: &Shape, part: &[u8], width: usize) -> bool
    requires few { s.now.n ≤ edge }
    requires some { 1 ≤ width }
    requires narrow { width ≤ 2 }
    requires whole { 2 + (width + 1) * s.now.n ≤ length part.now }
    ensures { result ≡ every s.now.n (λ a. keys_agree (mask s.now.masks a) (mask s.now.flags a) (number width part.now (2 + (width + 1) * a)) (byte part.now (2 + (width + 1) * a + width))) }
{
    (0..s.n).all(|a| {
        let at = records::individual_at(width, a);
        agrees(
            s.masks[a],
            s.flags[a],
            records::mask_at(part, at, width),
            part[at + width],
        )
    })
}

// The links of a lie under those from a place on.
fn row_covered(s: &Shape, a: usize, part: &[u8], at: usize) -> bool
    requires few { s.now.n ≤ edge }
    requires low { a < edge }
    requires whole { at + s.now.n ≤ length part.now }
    ensures { result ≡ every s.now.n (λ b. under (grid s.now.links a b) (truth (byte part.now (at + b)))) }
{
    (0..s.n).all(|b| s.link(a, b).under(Truth(part[at + b])))
}

fn links_covered(s: &Shape, part: &[u8], place: usize) -> bool
    requires few { s.now.n ≤ edge }
    requires whole { place + s.now.n * s.now.n ≤ length part.now }
    ensures { result ≡ every s.now.n (λ a. every s.now.n (λ b. under (grid s.now.links a b) (truth (byte part.now (place + s.now.n * a + b))))) }
{
    (0..s.n).all(|a| row_covered(s, a, part, place + s.n * a))
}

// The shape is covered by the record's.
pub fn covered(s: &Shape, part: &[u8], width: usize) -> bool
    requires { (s.now.n ≤ edge) × Readable part.now width }
    ensures { result ≡ M.covered (meaning s.now) (shape_of (sized width) part.now) }
{
    if s.n != usize::from(part[1]) {
        return false;
    }
    keys_covered(s, part, width) && links_covered(s, part, records::individual_at(width, s.n))
}
