// A file whose V and N are read and within the limits of its version's format.
ghost use Rattle.std.specs.Prelude.{◌≡◌, ◌≤◌, ◌<◌};
ghost use Rattle.model.specs.File.{vars as v_of, points as n_of};

use crate::fields::{Fault, Refusal, byte, field, within};
use format::Format;

#[derive(Clone, Copy)]
pub struct Reader<'a> {
    pub form: Format,
    pub file: &'a [u8],
    pub vars: usize,
    pub points: usize,
    pub ghost vars_is: { vars ≡ v_of file.now },
    pub ghost points_is: { points ≡ n_of file.now },
    pub ghost vars_low: { vars ≤ form.vars },
    pub ghost points_low: { points < 256 },
}

impl<'a> Reader<'a> {
    ghost use Rattle.std.specs.Prelude.{IfOk};
    ghost use Rattle.format.specs.Meaning.{meaning};
    ghost use Rattle.model.specs.File.{head};
    ghost use Rattle.claim.specs.Answers.{reading_of};

    // V and N.
    #[tactic(auto, using(crate::proofs::Steps::steps), unfolding(model::specs::File::head))]
    pub fn new(form: Format, file: &'a [u8]) -> Result<Reader<'a>, Refusal>
        ensures reading { reading_of result ≡ head (meaning form) file.now }
        ensures form { IfOk result (λ r. r.form ≡ form) }
        ensures file { IfOk result (λ r. r.file.now ≡ file.now) }
    {
        let vars = byte(file, 5);
        field(file, 5, 1, Fault::BeyondLimit, within(0, vars, form.vars))?;
        let points = byte(file, 6);
        field(
            file,
            6,
            1,
            Fault::BeyondLimit,
            within(1, points, form.points),
        )?;
        Ok(Reader {
            form,
            file,
            vars,
            points,
        })
    }
}
