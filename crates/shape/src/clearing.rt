// Clearing an individual's link: its results one by one, by a place number.
ghost use Rattle.std.specs.Prelude.{◌≡◌, ◌*◌, ◌/◌, ◌<◌, ◌≤◌};
ghost use Rattle.model.specs.Step as S;
ghost use Rattle.model.specs.Step.{edge};
ghost use Rattle.shape.specs.Meaning.{meaning, Gives};
ghost use Rattle.shape.specs.Slots.{cut_slot, clear_slot};

use super::truth::{May, Must, Truth};
use super::{EDGE, Place, Shape, links, opening};

// t stays shared, after a link into it has gone.
fn still_shared(s: Shape, t: usize) -> Option<Shape>
    requires { (s.n ≤ edge) × (t < edge) }
    ensures { Gives (S.still_shared (meaning s) t) result }
{
    let shared = 1 < s.count_into::<May>(t) || s.summary_into(t);
    shared.then_some(s)
}

// t is unshared, after a link into it has gone.
fn now_unshared(mut s: Shape, t: usize) -> Option<Shape>
    requires { (s.n ≤ edge) × (t < edge) }
    ensures { Gives (S.now_unshared (meaning s) t) result }
{
    let ones = s.count_into::<Must>(t);
    if 1 < ones {
        return None;
    }
    if ones == 1 {
        links::sure_column(&mut s.links, t, EDGE);
    }
    s.set_shared(t, false);
    Some(s)
}

// The link from u to t is gone: t unshared, or `still` shared. A flag tells which, as in the definition that it equals.
fn cut(mut s: Shape, u: usize, t: usize, still: bool) -> Option<Shape>
    requires { (s.n ≤ edge) × (u < edge) × (t < edge) }
    ensures { Gives (cut_slot still u (meaning s) t) result }
{
    s.set_link(u, t, Truth::ZERO);
    if !s.shared(t) {
        return (!still).then_some(s);
    }
    if still {
        return still_shared(s, t);
    }
    now_unshared(s, t)
}

// The result of clearing u at place j: from the result j / 2 of opening t unshared, then t still shared.
pub fn clear(s: &Shape, u: usize, j: usize) -> Option<Shape>
    requires { (s.now.n < edge) × (u < edge) × (j / 2 ≤ 2 * s.now.n) }
    ensures { Gives (clear_slot (meaning s.now) u j) result }
{
    let still = j % 2 == 1;
    let opened = opening::open(s, u, j / 2)?;
    let Place::At(t) = opened.target else {
        return (!still).then_some(opened.shape);
    };
    cut(opened.shape, u, t, still)
}
