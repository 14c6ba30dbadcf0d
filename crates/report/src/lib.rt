// Prints the answer on a claim file: `accept a b` and the bytes of the points in decimal on a line of their own, or
// `refuse number a b`.
#![tactic(auto)]

ghost use Rattle.std.specs.Prelude.{◌≡◌, ◌≤◌, ◌++◌, min, codes, decimal, slice_index, length, IfOk, OnOk, OnErr};
ghost use Rattle.std.specs.Io.KnownBytes.{Appends};
ghost use Rattle.model.specs.File.{points};
ghost use Rattle.model.specs.Verdict.{answer_of, verdict};
ghost use Rattle.report.specs.Text.{AppendsFront, heading, verdict_line, piece, spaced, text_of};

use claim::fields::Row;
use itoa::Buffer;
use std::io;
use std::io::Write;

// N, the number of points, of a file that was accepted.
fn points(file: &[u8]) -> usize
    ensures most { result ≤ 64 }
    ensures value { result ≡ min (points file.now) 64 }
{
    file.get(6).map_or(0, |n| usize::from(*n).min(64))
}

// Writes all the bytes. The text is written piece by piece, and not by `write!`, which says nothing of what an error leaves
// (the clauses `err`).
fn put<W: Write>(out: &mut W, bytes: &[u8]) -> io::Result<()>
    ensures ok { OnOk result (Appends (W.contents out.old) (W.contents out.new) bytes.now) }
    ensures err { OnErr result (AppendsFront (W.contents out.old) (W.contents out.new) bytes.now) }
{
    let mut rest = bytes;
    while !rest.is_empty() {
        let more = out.write(rest)?;
        if more == 0 {
            return Err(io::Error::from(io::ErrorKind::WriteZero));
        }
        rest = &rest[more..];
    }
    Ok(())
}

// Writes a number in decimal.
fn decimal<W: Write>(out: &mut W, n: usize) -> io::Result<()>
    ensures ok { OnOk result (Appends (W.contents out.old) (W.contents out.new) (decimal n)) }
    ensures err { OnErr result (AppendsFront (W.contents out.old) (W.contents out.new) (decimal n)) }
{
    put(out, Buffer::new().format(n).as_bytes())
}

// The byte of point p, after a space unless it is the first.
fn piece<W: Write>(out: &mut W, p: usize, byte: u8) -> io::Result<()>
    ensures ok { OnOk result (Appends (W.contents out.old) (W.contents out.new) (piece p byte)) }
    ensures err { OnErr result (AppendsFront (W.contents out.old) (W.contents out.new) (piece p byte)) }
{
    let n = usize::from(byte);
    if p == 0 {
        return decimal(out, n);
    }
    put(out, b" ")?;
    decimal(out, n)
}

// The bytes of the points, on a line.
fn bytes<W: Write>(out: &mut W, answer: &[u8]) -> io::Result<()>
    ensures ok { OnOk result (Appends (W.contents out.old) (W.contents out.new) (spaced (slice_index answer.now) (length answer.now) ++ codes "\n")) }
    ensures err { OnErr result (AppendsFront (W.contents out.old) (W.contents out.new) (spaced (slice_index answer.now) (length answer.now) ++ codes "\n")) }
{
    for (p, byte) in answer.iter().enumerate() {
        piece(out, p, *byte)?;
    }
    put(out, b"\n")
}

// What the verdict's line begins with, by the number, by which the text is defined.
fn heading<W: Write>(out: &mut W, number: usize) -> io::Result<()>
    ensures ok { OnOk result (Appends (W.contents out.old) (W.contents out.new) (heading number)) }
    ensures err { OnErr result (AppendsFront (W.contents out.old) (W.contents out.new) (heading number)) }
{
    if number == 0 {
        return put(out, b"accept ");
    }
    put(out, b"refuse ")?;
    decimal(out, number)?;
    put(out, b" ")
}

// The verdict's line.
fn line<W: Write>(out: &mut W, row: Row) -> io::Result<()>
    ensures ok { OnOk result (Appends (W.contents out.old) (W.contents out.new) (verdict_line row.number row.a row.b)) }
    ensures err { OnErr result (AppendsFront (W.contents out.old) (W.contents out.new) (verdict_line row.number row.a row.b)) }
{
    heading(out, row.number)?;
    decimal(out, row.a)?;
    put(out, b" ")?;
    decimal(out, row.b)?;
    put(out, b"\n")
}

// Prints the answer and returns its number. Where the writer fails, a front of the text has been written.
pub fn report<W: Write>(out: &mut W, file: &[u8]) -> io::Result<usize>
    ensures number { IfOk result (λ n. n ≡ (answer_of (verdict file.now 64)).number) }
    ensures text { OnOk result (Appends (W.contents out.old) (W.contents out.new) (text_of (verdict file.now 64) file.now)) }
    ensures err { OnErr result (AppendsFront (W.contents out.old) (W.contents out.new) (text_of (verdict file.now 64) file.now)) }
{
    let mut answer = [0u8; 64];
    let row = checker::face::row(checker::check(file, &mut answer));
    line(out, row)?;
    if row.number == 0 {
        bytes(out, &answer[..points(file)])?;
    }
    Ok(row.number)
}

#[cfg(test)]
mod tests {
    use super::*;
    use std::test::Fail;

    // A writer with room for so many bytes more, which it takes one at a time.
    #[derive(Drop)]
    struct Short {
        room: usize,
    }

    impl Write for Short {
        fn write(&mut self, buf: &[u8]) -> io::Result<usize> {
            if buf.is_empty() {
                return Ok(0);
            }
            if self.room == 0 {
                return Err(io::Error::from(io::ErrorKind::StorageFull));
            }
            self.room -= 1;
            Ok(1)
        }

        fn flush(&mut self) -> io::Result<()> {
            Ok(())
        }
    }

    // The answer on an empty file, `refuse 1 0 0`, takes 13 bytes; every shorter room ends in the writer's error.
    #[test]
    fn short_room(rt: HostRuntime) -> Result<(), Fail> {
        for room in 0..13 {
            match report(&mut Short { room }, b"") {
                Ok(_) => assert!(rt; false, "no error with room for {room}"),
                Err(error) => assert_eq!(rt; error.kind(), io::ErrorKind::StorageFull),
            }
        }
        assert_eq!(rt; report(&mut Short { room: 13 }, b"")?, 1);
        Ok(())
    }

    #[test]
    fn text_of_empty_file(rt: HostRuntime) -> Result<(), Fail> {
        let mut out = Vec::new(rt.alloc());
        report(&mut out, b"")?;
        assert_eq!(rt; out.as_slice(), b"refuse 1 0 0\n".as_slice());
        Ok(())
    }
}
