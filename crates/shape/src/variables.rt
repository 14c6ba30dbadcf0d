// Variables: who holds one, moving one, and a new individual for one.
ghost use Rattle.std.specs.Prelude.{◌≡◌, ◌<◌, ◌≤◌, length};
ghost use Rattle.model.specs.Finite.{is, put};
ghost use Rattle.model.specs.Shape as M;
ghost use Rattle.model.specs.Step as S;
ghost use Rattle.model.specs.Step.{edge};
ghost use Rattle.shape.specs.Meaning.{meaning, mask, ref, index, Masks};

use super::{EDGE, Place, Shape, bits, links};

// The individual that holds x.
pub fn holder(s: &Shape, x: u8) -> Place
    requires { (x < 16) × (s.now.n ≤ edge) }
    ensures is { ref result ≡ M.holder (meaning s.now) x }
    ensures low { index result < edge }
{
    let held = s.masks[..s.n].iter().position(|m| bits::holds(*m, x));
    held.map_or(Place::Null, Place::At)
}

// x is in the mask at p alone.
fn move_bit(masks: &mut [u16; EDGE], x: u8, p: Place)
    requires { (x < 16) × (index p < edge) }
    ensures { Masks masks.new (λ a. put x (is (ref p) a) (mask masks.old a)) }
{
    for (a, m) in masks.iter_mut().enumerate() {
        *m = bits::with_bit(*m, x, p == Place::At(a));
    }
}

// x moves to p.
pub fn moved(mut s: Shape, x: u8, p: Place) -> Shape
    requires { (x < 16) × (index p < edge) }
    ensures { meaning result ≡ S.moved (meaning s) x (ref p) }
{
    move_bit(&mut s.masks, x, p);
    s
}

// A new individual that holds x alone.
pub fn fresh(mut s: Shape, x: u8) -> Shape
    requires { (x < 16) × (s.n < edge) }
    ensures { meaning result ≡ S.fresh (meaning s) x }
{
    let n = s.n;
    move_bit(&mut s.masks, x, Place::Null);
    links::zero_column(&mut s.links, n);
    links::zero_row(&mut s.links, n);
    s.masks[n] = bits::alone(x);
    s.flags[n] = 0;
    s.n = n + 1;
    s
}
