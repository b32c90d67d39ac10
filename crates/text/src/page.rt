// A caller's buffer as a page: text goes behind the text that stands on it, from the buffer's start on.
ghost use Rattle.std.specs.Prelude.{◌≡◌, [], length};
ghost use Rattle.lingua.specs.Report.{decimal, signed_decimal};
ghost use Rattle.text.specs.Appended.{Appended};

use itoa::Buffer;
use std::marker::Model;

#[derive(Drop)]
pub struct Page<'a> {
    out: &'a mut [u8],
    at: usize,
}

impl<'a> Model for Page<'a> {
    ghost use Rattle.std.specs.Prelude.{◌-◌, ◌≤◌, length, take};
    ghost use Rattle.text.specs.Appended.{Sheet};

    ghost Value = { Sheet };

    ghost view = { λ p. record { text = take p.at p.out.now; left = length p.out.now - p.at } };

    ghost invariant = { λ p. p.at ≤ length p.out.now };
}

impl<'a> Page<'a> {
    pub fn new(out: &'a mut [u8]) -> Page<'a>
        ensures text { result.text ≡ [] }
        ensures left { result.left ≡ length out.old }
    {
        Page { out: out, at: 0 }
    }

    pub fn text(&self) -> &[u8]
        ensures { result.now ≡ self.now.text }
    {
        &self.out[..self.at]
    }

    // What finds no room is dropped, so no caller owes a proof of room. That is why no line is made by `write!`, which may
    // answer an error and then says of no byte whether it was written.
    pub fn put(&mut self, bytes: &[u8])
        ensures { Appended self.old bytes.now self.new }
    {
        let count = bytes.len().min(self.out.len() - self.at);
        let end = self.at + count;
        self.out[self.at..end].copy_from_slice(&bytes[..count]);
        self.at = end;
    }

    pub fn put_decimal(&mut self, n: u64)
        ensures { Appended self.old (decimal n) self.new }
    {
        let mut digits = Buffer::new();
        self.put(digits.format(n).as_bytes());
    }

    pub fn put_signed(&mut self, z: i64)
        ensures { Appended self.old (signed_decimal z) self.new }
    {
        let mut digits = Buffer::new();
        self.put(digits.format(z).as_bytes());
    }
}
