// The shape records: each with its point, its k, its individuals and its link values.
ghost use Rattle.std.specs.Prelude.{◌≡◌, ◌&&◌, eqb, ltb, leb, length, ◌+◌, ◌*◌, ◌%◌, ◌^◌, ◌≤◌, ◌<◌, IfOk};
ghost use Rattle.std.specs.Int.Bits.{bit_and};
ghost use Rattle.format.specs.Meaning.{meaning};
ghost use Rattle.model.specs.File.{◌then◌, size_at, shapes, past, individual_at, plain, individuals, link_values, shape_record, shape_count, shape_records, ended, start};
ghost use Rattle.model.specs.Verdict.{table};
ghost use Rattle.claim.specs.Answers.{reading_of};
ghost use Rattle.claim.specs.Reads.{Reads, first_records};

use crate::fields::{Fault, Refusal, byte, field, number, within};
use crate::parts::{Claim, STARTS};
use crate::reader::Reader;

// A mask is below the bound, 2 to the V, and has no bit that is held already.
fn mask_right(mask: usize, bound: usize, held: usize) -> bool
    ensures { result ≡ (ltb mask bound && eqb (bit_and mask held) 0) }
{
    mask < bound && mask & held == 0
}

// An individual that holds a variable is no summary.
fn plain(mask: usize, flags: usize) -> bool
    ensures { result ≡ plain mask flags }
{
    mask == 0 || flags / 2 % 2 == 0
}

fn key(weight: usize, mask: usize, flags: usize) -> usize
    requires weight_bound { weight ≤ 4096 }
    requires mask_bound { mask < 65536 }
    ensures is { result ≡ weight * (flags % 2) + mask }
    ensures low { result ≤ 69631 }
{
    weight * (flags % 2) + mask
}

// Flags are in their range, no variable is on a summary, and the key is at least the floor.
fn flags_right(high: usize, mask: usize, flags: usize, floor: usize, key: usize) -> bool
    ensures { result ≡ (leb flags high && (plain mask flags && leb floor key)) }
{
    flags <= high && plain(mask, flags) && floor <= key
}

// Link values, each 0, 1 or 2; hands on where they end. By j, for place + n need not fit a number before all are there.
#[tactic(auto, using(crate::proofs::Steps::turns), unfolding(model::specs::File::link_values))]
fn links(file: &[u8], place: usize, n: usize) -> Result<usize, Refusal>
    requires { place ≤ length file.now }
    ensures reading { reading_of result ≡ link_values file.now place n }
    ensures past { IfOk result (λ end. end ≡ place + n) }
{
    for j in 0..n {
        let value = byte(file, place + j);
        field(file, place + j, 1, Fault::WrongShape, value <= 2)?;
    }
    Ok(place + n)
}

// 2 to the number of variables: each mask is below it.
fn bound(vars: usize) -> usize
    requires { vars ≤ 12 }
    ensures { result ≡ 2 ^ vars }
{
    1 << vars
}

impl Reader<'_> {
    // k times mask and flags; hands on where they end. Floor is the least key that the next individual may have.
    #[tactic(auto, using(crate::proofs::Next::individuals), unfolding(model::specs::File::individuals, model::specs::File::individual, model::specs::File::held, model::specs::File::floor))]
    fn individuals(&self, place: usize, k: usize) -> Result<usize, Refusal>
        ensures reading { reading_of result ≡ individuals (meaning self.now.form) self.now.file.now (2 ^ self.now.vars) place k }
        ensures past { IfOk result (λ end. end ≡ individual_at (meaning self.now.form) place k) }
        ensures in_file { place ≤ length self.now.file.now → IfOk result (λ end. end ≤ length self.now.file.now) }
    {
        let width = self.form.width;
        let bound = bound(self.vars);
        let mut here = place;
        let mut held: usize = 0;
        let mut floor: usize = 0;
        // k turns, of which the proof names the number passed; the place goes on by the fields' widths
        for _i in 0..k {
            let mask = number(self.file, here, width);
            let mask_right = mask_right(mask, bound, held);
            field(self.file, here, width, Fault::WrongShape, mask_right)?;
            here += width;
            let flags = byte(self.file, here);
            let key = key(self.form.weight, mask, flags);
            let flags_right = flags_right(self.form.flags, mask, flags, floor, key);
            field(self.file, here, 1, Fault::WrongShape, flags_right)?;
            here += 1;
            held |= mask;
            floor = key + 1;
        }
        Ok(here)
    }

    // A shape record, after one whose point is least; hands on where it ends.
    #[tactic(auto, using(crate::proofs::Steps::steps), unfolding(model::specs::File::shape_record))]
    fn shape(&self, least: usize, place: usize) -> Result<usize, Refusal>
        ensures reading { reading_of result ≡ shape_record (meaning self.now.form) self.now.file.now self.now.vars self.now.points least place }
        ensures past { IfOk result (λ end. end ≡ past (meaning self.now.form) place (size_at self.now.file.now place)) }
    {
        let point = byte(self.file, place);
        let point_right = least <= point && point < self.points;
        field(self.file, place, 1, Fault::WrongShape, point_right)?;
        let k = byte(self.file, place + 1);
        field(
            self.file,
            place + 1,
            1,
            Fault::BeyondLimit,
            within(0, k, self.vars + self.form.spare),
        )?;
        let links_at = self.individuals(place + 2, k)?;
        links(self.file, links_at, k * k)
    }

    // M.
    #[tactic(auto, using(crate::proofs::Steps::steps), unfolding(model::specs::File::shape_count))]
    fn count(&self) -> Result<usize, Refusal>
        ensures reading { reading_of result ≡ shape_count (meaning self.now.form) self.now.file.now }
        ensures is { IfOk result (λ m. m ≡ shapes self.now.file.now) }
        ensures limit { IfOk result (λ m. m ≤ self.now.form.shapes) }
        ensures few { IfOk result (λ m. m ≤ 512) }
    {
        let place = 7 + 5 * self.points;
        let shapes = number(self.file, place, 2);
        field(
            self.file,
            place,
            2,
            Fault::BeyondLimit,
            within(0, shapes, self.form.shapes),
        )?;
        Ok(shapes)
    }

    // Shape records, as many as there are starts to write; hands on where the last one ends.
    #[tactic(auto, using(crate::proofs::Next::records), unfolding(model::specs::File::start))]
    fn fill_starts(&self, starts: &mut [usize]) -> Result<usize, Refusal>
        ensures reading { reading_of result ≡ first_records (meaning self.now.form) self.now.file.now (length starts.old) }
        ensures starts { IfOk result (λ _. starts.new ≡ table (start (meaning self.now.form) self.now.file.now) (length starts.old)) }
        ensures past { IfOk result (λ end. end ≡ start (meaning self.now.form) self.now.file.now (length starts.old)) }
    {
        let mut here = 9 + 5 * self.points;
        let mut least = 0;
        for start in starts.iter_mut() {
            *start = here;
            let next = self.shape(least, here)?;
            least = byte(self.file, here);
            here = next;
        }
        Ok(here)
    }

    // M and the shape records; nothing follows.
    #[tactic(auto, using(crate::proofs::Steps::steps))]
    pub fn records(&self) -> Result<Claim, Refusal>
        ensures { let F = meaning self.now.form in let f = self.now.file.now in Reads F f (shape_count F f then shape_records F f then ended F f) result }
    {
        let shapes = self.count()?;
        let mut starts = [0; STARTS];
        let end = self.fill_starts(&mut starts[..shapes])?;
        starts[shapes] = end;
        if end < self.file.len() {
            return Err(Refusal {
                fault: Fault::CutShort,
                place: end,
            });
        }
        Ok(Claim {
            vars: self.vars,
            points: self.points,
            shapes,
            starts,
        })
    }
}
