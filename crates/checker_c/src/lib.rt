// The library's face for C: `checker`'s two functions under the names that outside/claims.h declares.
#![tactic(auto)]

ghost use Rattle.std.specs.Prelude.{◌≡◌, length};
ghost use Rattle.model.specs.Verdict.{answer, answer_of, verdict, buffer_after};
ghost use Rattle.checker.specs.Meaning.{handed_place};

use checker::face;

// Decides on a file: the number, with a and b, and the answer bytes where it is 0.
#[unsafe(no_mangle)]
pub extern "C" fn claim_check(file: &[u8], out: &mut [u8], a: &mut usize, b: &mut usize) -> usize
    ensures exact { (answer result a.new b.new ≡ answer_of (verdict file.now (length out.old))) × (out.new ≡ buffer_after file.now out.old) }
{
    face::claim_check(file, out, a, b)
}

// The part of a file that holds a record, by its start and its length, which is returned; 0 and 0 where there is none.
#[unsafe(no_mangle)]
pub extern "C" fn claim_record(file: &[u8], number: usize, start: &mut usize) -> usize
    ensures exact { (start.new, result) ≡ handed_place file.now number }
{
    face::claim_record(file, number, start)
}
