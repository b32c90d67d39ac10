// Each call's answer as a line.
use crate::nonsense::Lent;
use crate::shown::{At, Hex, Places};
use lingua::errors::Refusal;
use lingua::sizes::ROW_BYTES;
use lingua::{CheckAnswer, FindAnswer, ReadAnswer, RowsRead, RunAnswer, RunEnd, Search};
use std::fmt::Display;
use std::io;
use std::io::Write;

pub(crate) fn bad_case<W: Write>(out: &mut W) -> io::Result<()> {
    out.write_all(b"bad case\n")
}

// A refusal; `kept` is whether the lent buffers still hold what they held.
fn refused<W: Write>(refusal: Refusal, kept: bool, out: &mut W) -> io::Result<()> {
    if kept {
        writeln!(out, "refused {}", refusal.number())
    } else {
        writeln!(out, "changed")
    }
}

pub(crate) fn run_line<W: Write>(answer: RunAnswer, lent: &Lent, out: &mut W) -> io::Result<()> {
    match answer {
        Err(refusal) => return refused(refusal, lent.is_kept(), out),
        Ok(RunEnd::Finished { steps }) => write!(out, "run 0 {} {steps}", At(None))?,
        Ok(RunEnd::Failed { at, steps }) => write!(out, "run 1 {} {steps}", At(Some(at)))?,
        Ok(RunEnd::Out { recorded, steps }) => write!(out, "run 2 {} {steps}", At(recorded))?,
    }
    write!(out, " cells {}", Places(&lent.cells))?;
    write!(out, " marks {}", Places(&lent.states))?;
    write!(out, " open {}", Places(&lent.open_cells))?;
    writeln!(out, " {}", Places(&lent.open_states))
}

// What a call has left in a lent buffer, under its name.
pub(crate) fn left_line<T: Drop, D: Display + Drop, W: Write>(
    answer: Result<T, Refusal>,
    kept: bool,
    name: &str,
    left: D,
    out: &mut W,
) -> io::Result<()> {
    match answer {
        Err(refusal) => refused(refusal, kept, out),
        Ok(_) => writeln!(out, "{name} {left}"),
    }
}

pub(crate) fn check_line<W: Write>(
    answer: CheckAnswer,
    kept: bool,
    layout: &[u16],
    out: &mut W,
) -> io::Result<()> {
    match answer {
        Err(refusal) => refused(refusal, kept, out),
        Ok(Ok(())) => writeln!(out, "pass {}", Places(layout)),
        Ok(Err(at)) => writeln!(out, "fault {}", At(Some(at))),
    }
}

// Just the rows that are counted, without the zeros that fill the buffer.
pub(crate) fn read_line<W: Write>(
    answer: ReadAnswer,
    kept: bool,
    rows: &[u8],
    out: &mut W,
) -> io::Result<()> {
    match answer {
        Err(refusal) => refused(refusal, kept, out),
        Ok(RowsRead { model, count }) => {
            let counted = rows.get(..count as usize * ROW_BYTES).unwrap_or(rows);
            writeln!(out, "rows {model} {count} {}", Hex(counted))
        }
    }
}

pub(crate) fn find_line<W: Write>(answer: FindAnswer, out: &mut W) -> io::Result<()> {
    match answer {
        Err(refusal) => refused(refusal, true, out),
        Ok(
            Search {
                index: Some(index),
                looked,
            },
        ) => writeln!(out, "found {index} {looked}"),
        Ok(
            Search {
                index: None,
                looked,
            },
        ) => writeln!(out, "none {looked}"),
    }
}
