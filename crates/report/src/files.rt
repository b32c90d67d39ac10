// A file's bytes.
ghost use Rattle.report.specs.Written.{IsPrefixLength};

use std::fs::File;
use std::io::Read;
use std::rt::Files;

// Reads a file from its start, up to the buffer's length, and answers how many bytes it has; a file that is missing or
// that a read fails on counts as empty. A buffer that comes back full says that the file is that long or longer.
pub(crate) fn read_file<R: Files>(files: &R, path: &str, buffer: &mut [u8]) -> usize
    ensures { IsPrefixLength result buffer.new }
{
    match File::open(files, path) {
        Ok(mut file) => read_all(&mut file, buffer),
        Err(_) => 0,
    }
}

// Reads until the buffer is full or the input ends; none of it counts where a read fails before.
fn read_all<F: Read>(file: &mut F, buffer: &mut [u8]) -> usize
    ensures { IsPrefixLength result buffer.new }
{
    let mut count = 0;
    // Each read says how much came, so that no range or iterator has the turns.
    while count < buffer.len() {
        match file.read(&mut buffer[count..]) {
            Ok(0) => return count,
            Ok(got) => count += got,
            Err(_) => return 0,
        }
    }
    count
}
