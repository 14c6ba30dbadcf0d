// The point records: which operands an op has, and their ranges.
ghost use Rattle.std.specs.Prelude.{◌≡◌, ◌≤◌};
ghost use Rattle.format.specs.Meaning.{meaning};
ghost use Rattle.model.specs.File.{field, byte, wrong_point, operand_right, uses_x, uses_y, uses_s1, uses_s2, point_record, point_records};
ghost use Rattle.claim.specs.Answers.{reading_of};

use crate::fields::{Fault, Refusal, byte, field};
use crate::reader::Reader;

// Which fields an op uses.
#[derive(Clone, Copy, Default)]
struct Operands {
    x: bool,
    y: bool,
    s1: bool,
    s2: bool,
}

// Ops 2 to 7 have y where they are odd; so has 9. Ranges of the op, for that is a form of document 01.
fn used_by(op: usize) -> Operands
    ensures x { result.x ≡ uses_x op }
    ensures y { result.y ≡ uses_y op }
    ensures s1 { result.s1 ≡ uses_s1 op }
    ensures s2 { result.s2 ≡ uses_s2 op }
{
    match op {
        0 => Operands::default(),
        1 => Operands {
            s1: true,
            ..Operands::default()
        },
        2..=7 => Operands {
            x: true,
            y: op % 2 == 1,
            s1: true,
            s2: false,
        },
        _ => Operands {
            x: true,
            y: op == 9,
            s1: true,
            s2: true,
        },
    }
}

// A field of a point record: below its bound if it is used, else 0.
fn operand(file: &[u8], place: usize, used: bool, bound: usize) -> Result<(), Refusal>
    ensures { reading_of result ≡ field file.now place 1 wrong_point (operand_right used (byte file.now place) bound) }
{
    let v = byte(file, place);
    let right = if used { v < bound } else { v == 0 };
    field(file, place, 1, Fault::WrongPoint, right)
}

impl Reader<'_> {
    // A point record: op, x, y, s1 and s2.
    #[tactic(auto, using(crate::proofs::Steps::steps), unfolding(model::specs::File::point_record))]
    fn point(&self, place: usize) -> Result<(), Refusal>
        requires { place ≤ 65536 }
        ensures { reading_of result ≡ point_record (meaning self.now.form) self.now.file.now self.now.vars self.now.points place }
    {
        let code = byte(self.file, place);
        let has = used_by(code);
        field(
            self.file,
            place,
            1,
            Fault::WrongPoint,
            code <= self.form.ops,
        )?;
        operand(self.file, place + 1, has.x, self.vars)?;
        operand(self.file, place + 2, has.y, self.vars)?;
        operand(self.file, place + 3, has.s1, self.points)?;
        operand(self.file, place + 4, has.s2, self.points)
    }

    // The point records, which stand after N.
    #[tactic(auto, using(crate::proofs::Steps::turns), unfolding(model::specs::File::point_records))]
    pub fn program(&self) -> Result<(), Refusal>
        ensures { reading_of result ≡ point_records (meaning self.now.form) self.now.file.now }
    {
        for p in 0..self.points {
            self.point(7 + 5 * p)?;
        }
        Ok(())
    }
}
