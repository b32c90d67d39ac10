// What is written, gathered in a lent buffer until that is full or sent on, so that a line costs one write and no heap.
ghost use Rattle.std.specs.Prelude.{◌≡◌, ◌≤◌, ◌-◌, length};

use std::io;
use std::io::Write;

#[derive(Drop)]
pub struct Output<'a, W: Write + Drop> {
    inner: W,
    held: &'a mut [u8],
    count: usize,
    ghost in_bounds: { count ≤ length held.now },
}

impl<'a, W: Write + Drop> Output<'a, W> {
    pub fn new(inner: W, held: &'a mut [u8]) -> Output<'a, W> {
        Output {
            inner,
            held,
            count: 0,
        }
    }

    #[inline(always)]
    fn hold(&mut self, bytes: &[u8])
        requires { length bytes.now ≤ length self.old.held.now - self.old.count }
    {
        let end = self.count + bytes.len();
        self.held[self.count..end].copy_from_slice(bytes);
        self.count = end;
    }

    fn send(&mut self) -> io::Result<()>
        ensures { self.new.count ≡ 0 }
    {
        let count = self.count;
        self.count = 0;
        self.inner.write_all(&self.held[..count])
    }

    // What is longer than all room goes past it.
    fn make_room(&mut self, bytes: &[u8]) -> io::Result<()> {
        self.send()?;
        if self.held.len() < bytes.len() {
            return self.inner.write_all(bytes);
        }
        self.hold(bytes);
        Ok(())
    }
}

impl<W: Write + Drop> Write for Output<'_, W> {
    fn write(&mut self, bytes: &[u8]) -> io::Result<usize> {
        self.write_all(bytes)?;
        Ok(bytes.len())
    }

    // Most texts are short and find room: that much is drawn into the caller.
    #[inline(always)]
    fn write_all(&mut self, bytes: &[u8]) -> io::Result<()> {
        if self.held.len() - self.count < bytes.len() {
            return self.make_room(bytes);
        }
        self.hold(bytes);
        Ok(())
    }

    fn flush(&mut self) -> io::Result<()> {
        self.send()?;
        self.inner.flush()
    }
}
