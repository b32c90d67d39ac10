// The program `trials`: reads cases from standard input, one a line, and writes one answer line for each, in order.
// The forms of the cases and of their answers are in docs/TRIALS.md.
#![tactic(auto)]

mod answers; // answers.rt: each call's answer as a line
mod cases; // cases.rt: a line taken apart, and the call that it asks for
mod lines; // lines.rt: the lines of the input, each with its answer
mod nonsense; // nonsense.rt: what lent buffers hold before a call
mod output; // output.rt: what is written, gathered in a lent buffer
mod parse; // parse.rt: files, numbers and readings, from text
mod shown; // shown.rt: bytes and lists of places, to text

use lines::{Lines, serve};
use output::Output;
use std::io;

// All memory is fixed, as the library's is: one line, what one read gives, and the longest answer that is no list, a file
// of 22 blocks in hex. A list is written out as it grows.
fn main(rt: HostRuntime) -> io::Result<()> {
    let mut line = [0; lines::LONGEST];
    let mut chunk = [0; 8192];
    let mut room = [0; 32768];
    let mut out = Output::new(rt.stdout(), &mut room);
    serve(
        &mut rt.stdin(),
        &mut Lines::new(&mut line),
        &mut chunk,
        &mut out,
    )
}
