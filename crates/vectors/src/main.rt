// Runs the reader on file F of document 01, on each of its prefixes, on F with one byte changed, and on the files that the
// arguments name. Prints for each the number, a and b of refusals 1 to 6, or `read`.
#![tactic(auto)]

use input::arguments;
use std::io;
use std::io::Write;

// "File F, hexadecimal"
const FILE_F: [u8; 26] = [
    0x53, 0x48, 0x43, 0x01, 0x00, 0x01, 0x02, 0x04, 0x00, 0x00, 0x01, 0x00, 0x00, 0x00, 0x00, 0x00,
    0x00, 0x02, 0x00, 0x00, 0x00, 0x01, 0x01, 0x01, 0x00, 0x00,
];

// What a byte of it is changed to.
const CHANGES: [u8; 8] = [0, 1, 2, 3, 9, 10, 65, 255];

// The line of a file: what was read goes before the colon.
fn line<W: Write>(out: &mut W, file: &[u8]) -> io::Result<()> {
    match claim::scan(file) {
        Ok(_) => writeln!(out, ": read"),
        Err(refusal) => {
            let row = refusal.row();
            writeln!(out, ": {row}")
        }
    }
}

fn prefixes<W: Write>(out: &mut W) -> io::Result<()> {
    for n in 0..=FILE_F.len() {
        write!(out, "the first {n}")?;
        line(out, &FILE_F[..n])?;
    }
    Ok(())
}

fn changes<W: Write>(out: &mut W) -> io::Result<()> {
    for place in 0..FILE_F.len() {
        for to in CHANGES {
            let mut f = FILE_F;
            f[place] = to;
            write!(out, "byte {place} to {to}")?;
            line(out, &f)?;
        }
    }
    Ok(())
}

fn main(rt: HostRuntime) -> io::Result<()> {
    let mut out = rt.stdout();
    prefixes(&mut out)?;
    changes(&mut out)?;
    arguments::each_file(
        &rt,
        &mut |path, file| {
            print!(rt; "{path}")?;
            line(&mut io::writer(&rt), file)
        },
    )
}
