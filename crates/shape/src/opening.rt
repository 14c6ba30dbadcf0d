// Opening an individual: its results one by one, by a place number.
ghost use Rattle.std.specs.Prelude.{◌≡◌, ◌*◌, ◌<◌, ◌≤◌};
ghost use Rattle.model.specs.Truth.{𝟘};
ghost use Rattle.model.specs.Step as S;
ghost use Rattle.model.specs.Step.{edge};
ghost use Rattle.shape.specs.Meaning.{meaning, Opens};
ghost use Rattle.shape.specs.Slots.{open_slot, opens};

use super::truth::{May, Must, Truth};
use super::{EDGE, Place, Shape, links};

// A result of opening: the shape and its target.
#[derive(Clone, Copy, Debug, PartialEq, Eq)]
pub struct Opened {
    pub shape: Shape,
    pub target: Place,
}

// v is no summary now, its link from u is 1, other links of u are 0.
fn whole(mut s: Shape, u: usize, v: usize) -> Shape
    requires { (u < edge) × (v < edge) }
    ensures { meaning result ≡ S.whole (meaning s) u v }
{
    s.flags[v] %= 2;
    links::zero_row(&mut s.links, u);
    s.set_link(u, v, Truth::ONE);
    s
}

// A second individual like v, the last one.
fn divided(mut s: Shape, v: usize) -> Shape
    requires { (s.n < edge) × (v < s.n) }
    ensures { meaning result ≡ S.divided (meaning s) v }
{
    let n = s.n;
    s.masks[n] = s.masks[v];
    s.flags[n] = s.flags[v];
    links::copy_links(&mut s.links, n, v);
    s.n = n + 1;
    s
}

// The result with target t, if any.
fn settle(mut s: Shape, u: usize, t: usize) -> Option<Opened>
    requires { (s.n ≤ edge) × (t < edge) }
    ensures { Opens (S.settled (meaning s) u t) result }
{
    let target = Place::At(t);
    if s.shared(t) {
        let held = s.any_into::<May>(t, u);
        return held.then_some(Opened { shape: s, target });
    }
    if s.any_into::<Must>(t, u) {
        return None;
    }
    links::sure_column(&mut s.links, t, u);
    Some(Opened { shape: s, target })
}

// All links of u become 0.
fn unlinked(mut s: Shape, u: usize) -> Shape
    requires { u < edge }
    ensures { meaning result ≡ S.with_n (meaning s) (S.from u (λ b. 𝟘) (meaning s).n) }
{
    links::zero_row(&mut s.links, u);
    s
}

// v may be the target.
fn possible(s: &Shape, u: usize, v: usize) -> bool
    requires { (s.now.n ≤ edge) × (u < edge) × (v < edge) }
    ensures { result ≡ S.possible (meaning s.now) u v }
{
    s.link(u, v).may() && !s.any_from::<Must>(u, v)
}

// A summary with link 1/2 is divided too.
fn divides(s: &Shape, u: usize, v: usize) -> bool
    requires { (u < edge) × (v < edge) }
    ensures { result ≡ S.divides (meaning s.now) u v }
{
    s.summary(v) && s.link(u, v).half()
}

// Whether place j can have a result: a look that costs no copy of the shape.
pub fn opens(s: &Shape, u: usize, j: usize) -> bool
    requires { (s.now.n < edge) × (u < edge) × (j ≤ 2 * s.now.n) }
    ensures { result ≡ opens (meaning s.now) u j }
{
    if j == 0 {
        return !s.any_from::<Must>(u, EDGE);
    }
    let v = (j - 1) / 2;
    (j % 2 == 1 || divides(s, u, v)) && possible(s, u, v)
}

// The result of opening u at place j: 0 without target, 1 + 2 v with v whole, 2 + 2 v with v divided.
pub fn open(s: &Shape, u: usize, j: usize) -> Option<Opened>
    requires { (s.now.n < edge) × (u < edge) × (j ≤ 2 * s.now.n) }
    ensures { Opens (open_slot (meaning s.now) u j) result }
{
    if !opens(s, u, j) {
        return None;
    }
    if j == 0 {
        return Some(Opened {
            shape: unlinked(*s, u),
            target: Place::Null,
        });
    }
    let v = (j - 1) / 2;
    if j % 2 == 1 {
        return settle(whole(*s, u, v), u, v);
    }
    settle(whole(divided(*s, v), u, v), u, v)
}
