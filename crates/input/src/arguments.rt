// The files that a program's arguments name.
ghost use Rattle.std.specs.Prelude.{◌≤◌, IfOk, OnOk, length};
ghost use Rattle.input.specs.Calls.{AllOk};

use super::{ROOM, fill};
use std::env::{Env, FillError};
use std::rt::Files;
use std::{fs, io, str};

// Room for a path.
const PATH: usize = 4_096;

fn contents(rt: &impl Files, path: &str, room: &mut [u8]) -> io::Result<usize>
    ensures { IfOk result (λ n. n ≤ length room.new) }
{
    fill(&mut fs::open(rt, path)?, room)
}

// Hands over the path and the contents of each file that an argument names. What can't be read is named on standard
// error, and the next one follows. A call that fails ends it, so where it ends well all have answered Ok.
pub fn each_file<F: FnMut(&str, &[u8]) -> io::Result<()>>(
    rt: &(impl Env + Files + Eprint),
    each: &mut F,
) -> io::Result<()>
    requires { F.IsAlwaysCallable each.old }
    ensures { OnOk result (AllOk F.step each.old each.new) }
{
    for i in 1..usize::MAX {
        let mut path = [0u8; PATH];
        match rt.arg(i, &mut path) {
            Ok(n) => match str::from_utf8(&path[..n]) {
                Ok(path) => {
                    let mut file = [0u8; ROOM];
                    match contents(rt, path, &mut file) {
                        Ok(n) => each(path, &file[..n])?,
                        Err(error) => eprintln!(rt; "{path}: {error}")?,
                    }
                }
                Err(_) => eprintln!(rt; "argument {i}: not UTF-8")?,
            },
            Err(FillError::TooLong) => eprintln!(rt; "argument {i}: too long")?,
            Err(FillError::NotPresent) => return Ok(()),
        }
    }
    Ok(())
}
