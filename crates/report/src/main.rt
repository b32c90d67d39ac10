// The program `report`: document 01's report of the checked run of clinic.prf under motor.lim, both in the current folder.
#![tactic(auto)]

mod answers; // answers.rt: the first line, by the run's answer
mod files; // files.rt: a file's bytes
mod lines; // lines.rt: the variables' lines, from the memory that a run leaves
mod report; // report.rt: the whole report
mod variables; // variables.rt: the variables' lines of two files

use lingua::sizes::LONGEST_FILE;
use std::io;
use std::io::Write;
use text::page::Page;

// A profile has at most 11,264 bytes, so a file that fills a buffer is refused for its length, as it would be whole.
fn main(rt: HostRuntime) -> io::Result<()> {
    let mut profile = [0u8; LONGEST_FILE + 1];
    let mut limits = [0u8; LONGEST_FILE + 1];
    let p = files::read_file(&rt, "clinic.prf", &mut profile);
    let l = files::read_file(&rt, "motor.lim", &mut limits);
    let mut out = [0u8; 22778];
    let mut page = Page::new(&mut out);
    report::report_text(&profile[..p], &limits[..l], &mut page);
    io::writer(&rt).write_all(page.text())
}
