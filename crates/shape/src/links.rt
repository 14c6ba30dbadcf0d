// The matrix of link values: changes of a row or a column, and what stands in one.
ghost use Rattle.std.specs.Prelude.{◌≡◌, not, ◌&&◌, ◌<◌, ◌≤◌, eqb};
ghost use Rattle.model.specs.Truth.{truth, 𝟘, may, must};
ghost use Rattle.model.specs.Finite.{any, count};
ghost use Rattle.model.specs.Step.{edge, copy, sure_but, all_zero};
ghost use Rattle.shape.specs.Meaning.{grid, row, column, summary, Matrix};

use super::truth::Certainty;
use super::{CELLS, EDGE, Shape};

// ---- changes

// All links of u become 0.
pub fn zero_row(links: &mut [u8; CELLS], u: usize)
    requires { u < edge }
    ensures { Matrix links.new (row u (λ b. 𝟘) (grid links.old)) }
{
    links[u * EDGE..(u + 1) * EDGE].fill(0);
}

// All links into t become 0.
pub fn zero_column(links: &mut [u8; CELLS], t: usize)
    requires { t < edge }
    ensures { Matrix links.new (column t all_zero (grid links.old)) }
{
    // By index: a column is no slice, and after a loop over `chunks_exact_mut` a proof knows no element of the array.
    for a in 0..EDGE {
        links[a * EDGE + t] = 0;
    }
}

// What is left of the value from a when every 1/2 from another than u becomes 0.
fn sure_value(v: u8, u: usize, a: usize) -> u8
    ensures { truth result ≡ sure_but u a (truth v) }
{
    if a == u || v == 1 { v } else { 0 }
}

// Every 1/2 into t from another than u becomes 0.
pub fn sure_column(links: &mut [u8; CELLS], t: usize, u: usize)
    requires { t < edge }
    ensures { Matrix links.new (column t (sure_but u) (grid links.old)) }
{
    // By index, as in zero_column.
    for a in 0..EDGE {
        let k = a * EDGE + t;
        links[k] = sure_value(links[k], u, a);
    }
}

// The individual n gets the links of v, to itself too.
pub fn copy_links(links: &mut [u8; CELLS], n: usize, v: usize)
    requires { (n < edge) × (v < n) }
    ensures { Matrix links.new (λ a b. grid links.old (copy n v a) (copy n v b)) }
{
    links.copy_within(v * EDGE..(v + 1) * EDGE, n * EDGE);
    // By index, as in zero_column.
    for c in 0..EDGE {
        links[c * EDGE + n] = links[c * EDGE + v];
    }
}

// ---- what stands in a row or a column: links that may be there, or must; `but` is left out, and EDGE leaves out none (a
// number like the others, since an Option would be compared at each turn). A row and a column by one chain each: a function
// for both would be told by a closure which link is meant, in as many words.

impl Shape {
    // Some link of u.
    pub(crate) fn any_from<C: Certainty>(&self, u: usize, but: usize) -> bool
        requires { (self.now.n ≤ edge) × (u < edge) }
        ensures { result ≡ any self.now.n (λ b. not (eqb b but) && C.test (grid self.now.links u b)) }
    {
        (0..self.n).any(|b| b != but && C::met(self.link(u, b)))
    }

    // Some link into t.
    pub(crate) fn any_into<C: Certainty>(&self, t: usize, but: usize) -> bool
        requires { (self.now.n ≤ edge) × (t < edge) }
        ensures { result ≡ any self.now.n (λ a. not (eqb a but) && C.test (grid self.now.links a t)) }
    {
        (0..self.n).any(|a| a != but && C::met(self.link(a, t)))
    }

    // How many links into t.
    pub(crate) fn count_into<C: Certainty>(&self, t: usize) -> usize
        requires { (self.now.n ≤ edge) × (t < edge) }
        ensures { result ≡ count self.now.n (λ a. C.test (grid self.now.links a t)) }
    {
        (0..self.n).filter(|a| C::met(self.link(*a, t))).count()
    }

    // A summary has a nonzero link into t.
    pub(crate) fn summary_into(&self, t: usize) -> bool
        requires { (self.now.n ≤ edge) × (t < edge) }
        ensures { result ≡ any self.now.n (λ a. summary self.now.flags a && may (grid self.now.links a t)) }
    {
        (0..self.n).any(|a| self.summary(a) && self.link(a, t).may())
    }
}
