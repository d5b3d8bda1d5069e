// How the programs read: until a buffer is full or the input ends. A read that fails is an error, and one that a signal interrupts is made again.
#![tactic(auto)]

mod descriptor;

ghost use Rattle.std.specs.Prelude.{◌≡◌, ◌+◌, ◌<◌, ◌≤◌, ℕ, List, length, take, IfOk, OnErr, IfSome};
ghost use Rattle.std.specs.Io.KnownBytes.{Consumes, ReadConsumes, ConsumesCount, IsAtEnd};
ghost use Rattle.streams.specs.Filled.{Filled, FilledOn, following, Stopped};

pub use descriptor::read_descriptor;
use std::io;
use std::io::{ErrorKind, Read};

// Fills the buffer from its start; how many bytes there were: fewer than there is room for only at the end of the input. What the reader may have
// written behind them, no clause of `Read` says.
pub fn read_full<R: Read>(from: &mut R, buf: &mut [u8]) -> io::Result<usize>
    ensures bound { IfOk result (λ n. n ≤ length buf.new) }
    ensures known { IfOk result (λ n. IfSome (R.remaining from.old) (λ xs. Filled xs buf.new n)) }
    ensures taken { IfOk result (λ n. Consumes (R.remaining from.old) (R.remaining from.new) (take n buf.new)) }
    ensures end { IfOk result (λ n. n < length buf.new → IsAtEnd (R.remaining from.new)) }
    ensures failed { OnErr result (Stopped (R.remaining from.old) (R.remaining from.new) buf.new) }
{
    let mut done = 0;
    while done < buf.len() {
        let n = read_once(from, &mut buf[done..])?;
        if n == 0 {
            return Ok(done);
        }
        done += n;
    }
    Ok(done)
}

// One read, made again where a signal interrupts it.
fn read_once<R: Read>(from: &mut R, buf: &mut [u8]) -> io::Result<usize>
    ensures bound { IfOk result (λ n. n ≤ length buf.new) }
    ensures bytes { ReadConsumes (R.remaining from.old) (R.remaining from.new) result buf.new }
{
    for _ in 0..u64::MAX {
        match from.read(buf) {
            Ok(n) => return Ok(n),
            Err(e) => {
                if e.kind() != ErrorKind::Interrupted {
                    return Err(e);
                }
            }
        }
    }
    Err(io::Error::from(ErrorKind::Interrupted))
}

// Whether a text that fills its buffer, of so many bytes, goes on: 1 if a byte follows, which is then read.
pub fn read_on<R: Read>(from: &mut R, length: usize, room: usize) -> io::Result<usize>
    ensures bound { IfOk result (λ n. n ≤ 1) }
    ensures known { IfOk result (λ n. IfSome (R.remaining from.old) (λ xs. n ≡ following length room xs)) }
    ensures taken { ConsumesCount (R.remaining from.old) (R.remaining from.new) result }
{
    if length < room {
        return Ok(0);
    }
    let mut byte = [0u8; 1];
    read_once(from, &mut byte)
}

// Fills the buffer from a text; how many bytes there were, and one more if the text goes on.
pub fn read_text<R: Read>(from: &mut R, buf: &mut [u8]) -> io::Result<usize>
    ensures bound { IfOk result (λ n. n ≤ length buf.new + 1) }
    ensures known { IfOk result (λ n. IfSome (R.remaining from.old) (λ xs. FilledOn xs buf.new n)) }
    ensures failed { OnErr result (Stopped (R.remaining from.old) (R.remaining from.new) buf.new) }
{
    let length = read_full(from, buf)?;
    let more = read_on(from, length, buf.len())?;
    Ok(length + more)
}

#[cfg(test)]
mod tests {
    use super::*;

    // Gives two bytes at a time, and is interrupted before each.
    #[derive(Drop)]
    struct Drips<'a> {
        rest: &'a [u8],
        is_ready: bool,
    }

    impl<'a> Read for Drips<'a> {
        fn read(&mut self, buf: &mut [u8]) -> io::Result<usize> {
            self.is_ready = !self.is_ready;
            if self.is_ready {
                return Err(io::Error::from(ErrorKind::Interrupted));
            }
            let most = self.rest.len().min(buf.len()).min(2);
            let (now, later) = self.rest.split_at(most);
            buf[..most].copy_from_slice(now);
            self.rest = later;
            Ok(most)
        }
    }

    fn dripping(rest: &[u8]) -> Drips<'_> {
        Drips {
            rest,
            is_ready: false,
        }
    }

    #[test]
    fn fills_in_parts(rt: HostRuntime) -> io::Result<()> {
        let mut buf = [9u8; 5];
        let mut from = dripping(b"abcdefg");
        assert_eq!(rt; read_full(&mut from, &mut buf)?, 5);
        assert!(rt; buf == *b"abcde");
        assert_eq!(rt; read_full(&mut from, &mut buf)?, 2);
        assert!(rt; buf == *b"fgcde");
        assert_eq!(rt; read_full(&mut from, &mut buf)?, 0);
        Ok(())
    }

    #[test]
    fn tells_a_text_that_goes_on(rt: HostRuntime) -> io::Result<()> {
        let mut buf = [0u8; 3];
        for (text, length) in [
            (&b"ab"[..], 2),
            (&b"abc"[..], 3),
            (&b"abcd"[..], 4),
            (&b"abcde"[..], 4),
        ] {
            assert_eq!(rt; read_text(&mut dripping(text), &mut buf)?, length);
        }
        Ok(())
    }

    #[test]
    fn closed_descriptor_is_empty(rt: HostRuntime) -> io::Result<()> {
        let mut buf = [0u8; 3];
        assert_eq!(rt; read_descriptor(1_000_000, &mut buf), 0);
        Ok(())
    }
}
