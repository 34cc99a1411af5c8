// Bytes from a reader, put into lent room.
#![tactic(auto)]

ghost use Rattle.std.specs.Prelude.{◌≡◌, ◌<◌, length, take, IfOk, IsOk};
ghost use Rattle.std.specs.Io.KnownBytes.{Consumes, IsAtEnd};
ghost use Rattle.io.specs.Counts.{IsPrefixLen};

use std::io;
use std::io::Read;

// Reads until the room is full or the input ends, and answers how many bytes it put at the start of the room: what was taken from the
// reader, all of it if there is room left. On an empty room it makes no call. A loop by hand: of an input that ends early std's `read_exact`
// promises nothing, and `read_to_end` wants the heap.
pub fn read_full<R: Read>(input: &mut R, room: &mut [u8]) -> io::Result<usize>
    ensures prefix_len { IfOk result (λ n. IsPrefixLen n room.new) }
    ensures bytes { IfOk result (λ n. Consumes (R.remaining input.old) (R.remaining input.new) (take n room.new)) }
    ensures whole { IfOk result (λ n. n < length room.new → IsAtEnd (R.remaining input.new)) }
    ensures no_room { length room.old ≡ 0 → IsOk result }
{
    let mut done = 0;
    while done < room.len() {
        let n = input.read(&mut room[done..])?;
        if n == 0 {
            break;
        }
        done += n;
    }
    Ok(done)
}

#[cfg(test)]
mod tests {
    use super::*;
    use std::io::ErrorKind;
    use std::test::Fail;

    // Gives its bytes two at a time, and then fails.
    #[derive(Drop)]
    struct Failing<'a> {
        left: &'a [u8],
    }

    impl Read for Failing<'_> {
        fn read(&mut self, buf: &mut [u8]) -> io::Result<usize> {
            let n = self.left.len().min(buf.len()).min(2);
            if n == 0 {
                return Err(io::Error::from(ErrorKind::BrokenPipe));
            }
            let (given, left) = self.left.split_at(n);
            buf[..n].copy_from_slice(given);
            self.left = left;
            Ok(n)
        }
    }

    #[test]
    fn reads_on_after_short_reads(rt: HostRuntime) -> Result<(), Fail> {
        let mut input = Failing { left: b"abcdefgh" };
        let mut room = [0u8; 5];
        assert_eq!(rt; read_full(&mut input, &mut room)?, 5);
        assert_eq!(rt; room, *b"abcde");
        Ok(())
    }

    #[test]
    fn tells_that_a_read_failed(rt: HostRuntime) {
        let mut input = Failing { left: b"abcdefgh" };
        let mut room = [0u8; 9];
        let got = read_full(&mut input, &mut room);
        assert!(rt; got.is_err());
    }

    #[test]
    fn ends_with_the_input(rt: HostRuntime) -> Result<(), Fail> {
        let mut input = b"abc".as_slice();
        let mut room = [46u8; 5];
        assert_eq!(rt; read_full(&mut input, &mut room)?, 3);
        assert_eq!(rt; room, *b"abc..");
        Ok(())
    }
}
