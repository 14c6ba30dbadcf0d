// A shape's record, written as bytes into the front of a lent buffer.
ghost use Rattle.std.specs.Prelude.{◌≡◌, ◌∷◌, [], ◌++◌, ◌+◌, ◌*◌, ◌%◌, ◌<◌, ◌≤◌, length, drop};
ghost use Rattle.model.specs.Finite.{each};
ghost use Rattle.model.specs.Step.{edge};
ghost use Rattle.model.specs.Claim.{bytes, record_of};
ghost use Rattle.shape.specs.Meaning.{meaning};
ghost use Rattle.shape.specs.Records.{sized};
ghost use Rattle.shape.specs.Writing.{laid, individual_bytes, link_byte};

use super::records::individual_at;
use super::{CELLS, EDGE, Shape};

// ---- parts of the record, each from a place on

// A mask of one byte or two, low byte first, and its flags.
fn individual(m: u16, f: u8, width: usize, at: usize, out: &mut [u8])
    requires { (1 ≤ width) × (width ≤ 2) × (at + (width + 1) ≤ length out.old) }
    ensures { out.new ≡ laid out.old at (bytes width m ++ ((f % 4) ∷ [])) }
{
    let [low, high] = m.to_le_bytes();
    out[at] = low;
    if width == 2 {
        out[at + 1] = high;
    }
    out[at + width] = f % 4;
}

// The individuals, from byte 2 on.
fn individuals(s: &Shape, width: usize, out: &mut [u8])
    requires { (1 ≤ width) × (width ≤ 2) × (s.now.n ≤ edge) × (2 + (width + 1) * s.now.n ≤ length out.old) }
    ensures { out.new ≡ laid out.old 2 (each s.now.n (individual_bytes width s.now.masks s.now.flags)) }
{
    // By index, which says where an individual stands: a chain needs `zip` and `enumerate` and counts a all the same.
    for a in 0..s.n {
        individual(s.masks[a], s.flags[a], width, individual_at(width, a), out);
    }
}

// The links from a to the k individuals; whatever is above 1 stands for 1/2 and is written 2. Plain numbers say which and
// where: a struct for one loop would be no plainer.
fn row(links: &[u8; CELLS], a: usize, k: usize, at: usize, out: &mut [u8])
    requires { (a < edge) × (k ≤ edge) × (at + k ≤ length out.old) }
    ensures { out.new ≡ laid out.old at (each k (link_byte links.now a)) }
{
    // By index: after a loop over `iter_mut().zip(..)` a proof knows the length of what was written, and no element.
    for (b, v) in links[a * EDGE..a * EDGE + k].iter().enumerate() {
        out[at + b] = (*v).min(2);
    }
}

// The k rows of links, by number, which says where a row stands in the flat matrix and in the buffer.
fn rows(links: &[u8; CELLS], k: usize, place: usize, out: &mut [u8])
    requires { (k ≤ edge) × (place + k * k ≤ length out.old) }
    ensures { out.new ≡ laid out.old place (each k (λ a. each k (link_byte links.now a))) }
{
    for a in 0..k {
        row(links, a, k, place + k * a, out);
    }
}

// ---- the record

// Writes the record of the shape at a point, and gives its length. The bytes after it stay as they were.
pub fn write(s: &Shape, point: u8, width: usize, out: &mut [u8]) -> usize
    requires { (s.now.n ≤ edge) × (1 ≤ width) × (width ≤ 2) × (2 + (width + 1) * s.now.n + s.now.n * s.now.n ≤ length out.old) }
    ensures record { out.new ≡ record_of (sized width) point (meaning s.now) ++ drop result out.old }
    ensures length { result ≡ length (record_of (sized width) point (meaning s.now)) }
{
    out[0] = point;
    // No plainer: `u8::try_from` needs an `unwrap`, and the cast is proved to lose nothing.
    out[1] = s.n as u8;
    individuals(s, width, out);
    let place = individual_at(width, s.n);
    rows(&s.links, s.n, place, out);
    place + s.n * s.n
}
