// Linking an individual to another after its link was cleared: the results one by one, by a place number.
ghost use Rattle.std.specs.Prelude.{◌≡◌, ◌*◌, ◌/◌, ◌<◌, ◌≤◌};
ghost use Rattle.model.specs.Step.{edge};
ghost use Rattle.shape.specs.Meaning.{meaning, ref, index, Gives};
ghost use Rattle.shape.specs.Slots.{tie_slot, store_slot};

use super::truth::{May, Must, Truth};
use super::{EDGE, Place, Shape, clearing, links};

// The link from u to w becomes 1: the first result, or the `second`, in which w becomes shared. A flag tells which, as in the
// definition that it equals.
fn tie(mut s: Shape, u: usize, w: usize, second: bool) -> Option<Shape>
    requires { (s.n ≤ edge) × (u < edge) × (w < edge) }
    ensures { Gives (tie_slot second u (meaning s) w) result }
{
    if s.shared(w) {
        s.set_link(u, w, Truth::ONE);
        return (!second).then_some(s);
    }
    if second {
        let held = s.any_into::<May>(w, EDGE);
        s.set_shared(w, true);
        s.set_link(u, w, Truth::ONE);
        return held.then_some(s);
    }
    let free = !s.any_into::<Must>(w, EDGE);
    links::zero_column(&mut s.links, w);
    s.set_link(u, w, Truth::ONE);
    free.then_some(s)
}

// The result at place j of storing y's place into the link of u: from the result j / 2 of clearing first and second.
pub fn store(s: &Shape, u: usize, y: Place, j: usize) -> Option<Shape>
    requires { (s.now.n < edge) × (u < edge) × (index y < edge) × (j / 2 / 2 ≤ 2 * s.now.n) }
    ensures { Gives (store_slot (meaning s.now) u (ref y) j) result }
{
    let second = j % 2 == 1;
    let cleared = clearing::clear(s, u, j / 2)?;
    let Place::At(w) = y else {
        return (!second).then_some(cleared);
    };
    tie(cleared, u, w, second)
}
