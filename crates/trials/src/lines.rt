// The lines of the input, each with its answer.
ghost use Rattle.std.specs.Prelude.{◌≤◌, length};

use crate::answers::bad_case;
use crate::cases::answer;
use std::io;
use std::io::{Read, Write};

// No line that is answered is so long, its end left out.
pub const LONGEST: usize = 65536;

// The line that has begun, in a lent buffer. One that fills it is too long; it has its answer then, and its rest is passed over.
#[derive(Drop)]
pub struct Lines<'a> {
    bytes: &'a mut [u8],
    count: usize,
    too_long: bool,
    ghost in_bounds: { count ≤ length bytes.now },
}

impl<'a> Lines<'a> {
    pub fn new(bytes: &'a mut [u8]) -> Lines<'a> {
        Lines {
            bytes,
            count: 0,
            too_long: false,
        }
    }

    // A piece of a line, with its end or without.
    fn take<W: Write>(&mut self, piece: &[u8], out: &mut W) -> io::Result<()> {
        match piece.strip_suffix(b"\n") {
            None => self.grow(piece, out),
            Some(rest) => {
                self.grow(rest, out)?;
                self.end(out)
            }
        }
    }

    fn grow<W: Write>(&mut self, piece: &[u8], out: &mut W) -> io::Result<()> {
        if self.too_long {
            return Ok(());
        }
        if self.bytes.len() - self.count <= piece.len() {
            self.too_long = true;
            bad_case(out)?;
            return out.flush();
        }
        let end = self.count + piece.len();
        self.bytes[self.count..end].copy_from_slice(piece);
        self.count = end;
        Ok(())
    }

    // What a host waits for is written out at each line's end.
    fn end<W: Write>(&mut self, out: &mut W) -> io::Result<()> {
        if !self.too_long {
            answer(&self.bytes[..self.count], out)?;
            out.flush()?;
        }
        self.count = 0;
        self.too_long = false;
        Ok(())
    }
}

// A proved loop has to end, and nothing says that the input does. So the reads are counted, to a number that no run uses
// up. The last line may lack its end.
pub(crate) fn serve<R: Read, W: Write>(
    input: &mut R,
    lines: &mut Lines<'_>,
    chunk: &mut [u8],
    out: &mut W,
) -> io::Result<()> {
    for _ in 0..u64::MAX {
        let got = input.read(chunk)?;
        if got == 0 {
            if 0 < lines.count {
                lines.end(out)?;
            }
            return Ok(());
        }
        for piece in chunk[..got].split_inclusive(|byte| *byte == b'\n') {
            lines.take(piece, out)?;
        }
    }
    Ok(())
}
