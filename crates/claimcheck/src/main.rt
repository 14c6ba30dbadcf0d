// The program: reads a claim file from standard input and prints the answer.
#![tactic(auto)]

use input::ROOM;
use std::io;

fn main(rt: HostRuntime) -> io::Result<()> {
    let mut file = [0u8; ROOM];
    let n = input::fill(&mut rt.stdin(), &mut file)?;
    report::report(&mut rt.stdout(), &file[..n])?;
    Ok(())
}
