// Runs the checker on the files that the arguments name, and prints for each its name and the answer.
#![tactic(auto)]

use input::arguments;
use std::io;

fn main(rt: HostRuntime) -> io::Result<()> {
    arguments::each_file(
        &rt,
        &mut |path, file| {
            println!(rt; "{path}")?;
            report::report(&mut io::writer(&rt), file)?;
            Ok(())
        },
    )
}
