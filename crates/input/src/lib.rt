// What the programs read of an input, into memory of their own. The longest claim file has 62,793 bytes, so the first 65,536
// bytes decide: every field lies among them, and so does the first extra byte.
#![tactic(auto)]

ghost use Rattle.std.specs.Prelude.{◌≤◌, ◌<◌, IfOk, OnErr, length, take};
ghost use Rattle.std.specs.Io.KnownBytes.{Consumes, IsAtEnd};
ghost use Rattle.input.specs.Front.{ConsumesFront};

pub mod arguments;

use std::io;
use std::io::Read;

// Room for the bytes that decide.
pub const ROOM: usize = 65_536;

// Reads until the buffer is full or the input ends, and returns how many bytes now stand at its front. Where a read fails,
// those that were read stand there.
pub fn fill<R: Read>(from: &mut R, buffer: &mut [u8]) -> io::Result<usize>
    ensures within { IfOk result (λ n. n ≤ length buffer.new) }
    ensures bytes { IfOk result (λ n. Consumes (R.remaining from.old) (R.remaining from.new) (take n buffer.new)) }
    ensures end { IfOk result (λ n. n < length buffer.new → IsAtEnd (R.remaining from.new)) }
    ensures err { OnErr result (ConsumesFront (R.remaining from.old) (R.remaining from.new) buffer.new) }
{
    // by count, which is the result; the library's `read_exact` says too little where the input is shorter
    let mut done = 0;
    while done < buffer.len() {
        let more = from.read(&mut buffer[done..])?;
        if more == 0 {
            return Ok(done);
        }
        done += more;
    }
    Ok(done)
}

#[cfg(test)]
mod tests {
    use super::*;
    use std::test::Fail;

    // Gives one byte at a time, counted down from `left`, and then the end or a failure.
    #[derive(Drop)]
    struct Drip {
        left: u8,
        fails: bool,
    }

    impl Read for Drip {
        fn read(&mut self, buf: &mut [u8]) -> io::Result<usize> {
            if buf.is_empty() {
                return Ok(0);
            }
            if self.left == 0 {
                if self.fails {
                    return Err(io::Error::from(io::ErrorKind::BrokenPipe));
                }
                return Ok(0);
            }
            buf[0] = self.left;
            self.left -= 1;
            Ok(1)
        }
    }

    fn read_from(left: u8, fails: bool, buffer: &mut [u8]) -> io::Result<usize> {
        fill(&mut Drip { left, fails }, buffer)
    }

    #[test]
    fn fills(rt: HostRuntime) -> Result<(), Fail> {
        let mut buffer = [9u8; 4];
        assert_eq!(rt; read_from(3, false, &mut buffer)?, 3);
        assert_eq!(rt; buffer, [3, 2, 1, 9]);
        assert_eq!(rt; read_from(5, true, &mut buffer)?, 4);
        assert_eq!(rt; buffer, [5, 4, 3, 2]);
        Ok(())
    }

    // A failure in mid-stream is told, not taken for the end; what was read stands at the front.
    #[test]
    fn failure_is_told(rt: HostRuntime) -> Result<(), Fail> {
        let mut buffer = [9u8; 4];
        match read_from(2, true, &mut buffer) {
            Ok(n) => assert!(rt; false, "no error, but {n}"),
            Err(error) => assert_eq!(rt; error.kind(), io::ErrorKind::BrokenPipe),
        }
        assert_eq!(rt; buffer, [2, 1, 9, 9]);
        Ok(())
    }
}
