// Bytes, lists of places and errors, to text.
ghost use Rattle.std.specs.Prelude.{◌≡◌, ◌≤◌, length};

use itoa::Buffer;
use lingua::errors::ErrorAt;
use std::fmt::Display;
use std::{fmt, str};

// Text on its way to a formatter, gathered: to hand on each digit or number by itself takes several times as long as to spell it.
#[derive(Drop)]
struct Piece {
    bytes: [u8; 256],
    count: usize,
    ghost in_bounds: { count ≤ 256 },
}

impl Piece {
    fn new() -> Piece {
        Piece {
            bytes: [0; 256],
            count: 0,
        }
    }

    fn send<W: fmt::Write>(&mut self, f: &mut fmt::Formatter<W>) -> fmt::Result
        ensures { self.new.count ≡ 0 }
    {
        let count = self.count;
        self.count = 0;
        match str::from_utf8(&self.bytes[..count]) {
            Ok(text) => f.write_str(text),
            Err(_) => Err(fmt::Error),
        }
    }

    #[inline(always)]
    fn put<W: fmt::Write>(&mut self, text: &str, f: &mut fmt::Formatter<W>) -> fmt::Result {
        if 256 - self.count < text.len() {
            self.send(f)?;
            return f.write_str(text);
        }
        let end = self.count + text.len();
        self.bytes[self.count..end].copy_from_slice(text.as_bytes());
        self.count = end;
        Ok(())
    }

    #[inline(always)]
    fn put_mark<W: fmt::Write>(&mut self, mark: u8, f: &mut fmt::Formatter<W>) -> fmt::Result {
        if self.count == 256 {
            self.send(f)?;
        }
        self.bytes[self.count] = mark;
        self.count += 1;
        Ok(())
    }
}

// Bytes in lower-case hex, `-` where there are none.
#[derive(Clone, Copy)]
pub struct Hex<'a>(pub &'a [u8]);

const DIGITS: [u8; 16] = *b"0123456789abcdef";

impl Display for Hex<'_> {
    fn fmt<W: fmt::Write>(&self, f: &mut fmt::Formatter<W>) -> fmt::Result {
        if self.0.is_empty() {
            return f.write_str("-");
        }
        let mut piece = Piece::new();
        for byte in self.0 {
            piece.put_mark(DIGITS[(*byte / 16) as usize], f)?;
            piece.put_mark(DIGITS[(*byte % 16) as usize], f)?;
        }
        piece.send(f)
    }
}

// The places that are not zero, as `index:value` with commas, `-` where all are.
#[derive(Clone, Copy)]
pub struct Places<'a, T>(pub &'a [T]);

impl<T: Copy + Into<i64>> Display for Places<'_, T> {
    fn fmt<W: fmt::Write>(&self, f: &mut fmt::Formatter<W>) -> fmt::Result {
        let mut piece = Piece::new();
        let mut digits = Buffer::new();
        let mut some = false;
        for (index, place) in self.0.iter().enumerate() {
            let value: i64 = (*place).into();
            if value != 0 {
                if some {
                    piece.put_mark(b',', f)?;
                }
                piece.put(digits.format(index), f)?;
                piece.put_mark(b':', f)?;
                piece.put(digits.format(value), f)?;
                some = true;
            }
        }
        if !some {
            piece.put_mark(b'-', f)?;
        }
        piece.send(f)
    }
}

// An error's number and its place, two zeros where there is none.
#[derive(Clone, Copy)]
pub struct At(pub Option<ErrorAt>);

impl Display for At {
    fn fmt<W: fmt::Write>(&self, f: &mut fmt::Formatter<W>) -> fmt::Result {
        match self.0 {
            Some(at) => write!(f, "{} {}", at.error.number(), at.place),
            None => write!(f, "0 0"),
        }
    }
}
