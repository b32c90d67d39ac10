// A line taken apart, and the call that it asks for. Whatever is malformed is a bad case.
ghost use Rattle.std.specs.Prelude.{◌≤◌, length};

use crate::answers::{bad_case, check_line, find_line, left_line, read_line, run_line};
use crate::nonsense::{BYTE, Lent, WORD, is_kept};
use crate::parse::{MOST_READINGS, decode, number, readings};
use crate::shown::{Hex, Places};
use lingua::sizes::{BLOCK_BYTES, LAYOUT_LENGTH, NAME_BYTES, ROW_BYTES, ROWS_LENGTH};
use lingua::{FileKind, RunAnswer};
use std::io::Write;
use std::str::Split;
use std::{io, str};

// Half of a line's bytes: no field spells more.
const MOST_BYTES: usize = 32768;

// The 66 blocks that hold as many bytes of rows.
const MOST_FILE_BYTES: usize = 33792;

type Fields<'a> = Split<'a, char>;

// What a run's line has read.
#[derive(Clone, Copy)]
pub struct Run<'a> {
    profile: &'a [u8],
    limits: &'a [u8],
    variables: &'a [u16],
    numbers: &'a [i64],
    budget: u16,
}

// What is shown of a checked run: the cells and the state words, or the present bodies of the same run in their place.
#[derive(Clone, Copy)]
pub enum Part {
    Cells,
    Bodies,
}

// Which run a line asks for.
#[derive(Clone, Copy)]
pub enum RunKind {
    Checked(Part),
    Erased,
}

pub(crate) fn answer<W: Write>(line: &[u8], out: &mut W) -> io::Result<()> {
    match case(line, out) {
        Some(answered) => answered,
        None => bad_case(out),
    }
}

// None where the line is no case; nothing is written then.
fn case<W: Write>(line: &[u8], out: &mut W) -> Option<io::Result<()>> {
    let mut fields = str::from_utf8(line).ok()?.split(' ');
    match fields.next()? {
        "read" => read_case(fields, out),
        "find" => find_case(fields, out),
        "write" => write_case(fields, out),
        "inspect" => inspect_case(fields, out),
        "desk" => run_case(RunKind::Checked(Part::Cells), fields, out),
        "bodies" => run_case(RunKind::Checked(Part::Bodies), fields, out),
        "chair" => run_case(RunKind::Erased, fields, out),
        _ => None,
    }
}

fn file_kind(name: &str) -> Option<FileKind> {
    match name {
        "p" => Some(FileKind::Profile),
        "l" => Some(FileKind::Limits),
        _ => None,
    }
}

// The line's last field.
fn last<'a>(mut fields: Fields<'a>) -> Option<&'a str> {
    let field = fields.next()?;
    match fields.next() {
        Some(_) => None,
        None => Some(field),
    }
}

// ---- read KIND FILE
fn read_case<W: Write>(mut fields: Fields<'_>, out: &mut W) -> Option<io::Result<()>> {
    let mut bytes = [0; MOST_BYTES];
    let kind = file_kind(fields.next()?)?;
    let file = decode(last(fields)?, &mut bytes)?;
    let mut rows = [BYTE; ROWS_LENGTH];
    let answer = calls::files::read(kind, file, &mut rows);
    Some(read_line(answer, is_kept(&rows, &BYTE), &rows, out))
}

// ---- find PROFILE NAME
fn find_case<W: Write>(mut fields: Fields<'_>, out: &mut W) -> Option<io::Result<()>> {
    let mut bytes = [0; MOST_BYTES];
    let mut name = [0; NAME_BYTES];
    let profile = decode(fields.next()?, &mut bytes)?;
    if decode(last(fields)?, &mut name)?.len() != NAME_BYTES {
        return None;
    }
    let answer = calls::names::find_variable(profile, name);
    Some(find_line(answer, out))
}

// ---- write KIND MODEL ROWS
fn write_case<W: Write>(mut fields: Fields<'_>, out: &mut W) -> Option<io::Result<()>> {
    let mut bytes = [0; MOST_BYTES];
    let kind = file_kind(fields.next()?)?;
    let model = number(fields.next()?)?;
    let rows = decode(last(fields)?, &mut bytes)?;
    Some(write_rows(kind, model, rows, out))
}

// The length of the file that holds so many bytes of rows: blocks of 50 rows, at least one, and one for limits. It is
// counted here and not by the writer's own function: like a host, this program has the public calls alone.
fn file_length(kind: FileKind, bytes: usize) -> usize
    requires { bytes ≤ 32768 }
    ensures { result ≤ 33792 }
{
    match kind {
        FileKind::Limits => BLOCK_BYTES,
        FileKind::Profile => (bytes / ROW_BYTES).div_ceil(50).max(1) * BLOCK_BYTES,
    }
}

// The writer is lent just as much as the file takes.
fn write_rows<W: Write>(kind: FileKind, model: u16, rows: &[u8], out: &mut W) -> io::Result<()>
    requires { length rows.now ≤ 32768 }
{
    let mut buffer = [BYTE; MOST_FILE_BYTES];
    let file = &mut buffer[..file_length(kind, rows.len())];
    let answer = calls::files::write(kind, model, rows, file);
    left_line(answer, is_kept(file, &BYTE), "file", Hex(file), out)
}

// ---- inspect PROFILE LIMITS
fn inspect_case<W: Write>(mut fields: Fields<'_>, out: &mut W) -> Option<io::Result<()>> {
    let mut profile_bytes = [0; MOST_BYTES];
    let mut limits_bytes = [0; MOST_BYTES];
    let profile = decode(fields.next()?, &mut profile_bytes)?;
    let limits = decode(last(fields)?, &mut limits_bytes)?;
    let mut layout = [WORD; LAYOUT_LENGTH];
    let answer = calls::types::check_types(profile, limits, &mut layout);
    Some(check_line(answer, is_kept(&layout, &WORD), &layout, out))
}

// ---- desk, bodies or chair PROFILE LIMITS READINGS BUDGET
fn run_case<W: Write>(
    kind: RunKind,
    mut fields: Fields<'_>,
    out: &mut W,
) -> Option<io::Result<()>> {
    let mut profile_bytes = [0; MOST_BYTES];
    let mut limits_bytes = [0; MOST_BYTES];
    let mut variables_read = [0; MOST_READINGS];
    let mut numbers_read = [0; MOST_READINGS];
    let profile = decode(fields.next()?, &mut profile_bytes)?;
    let limits = decode(fields.next()?, &mut limits_bytes)?;
    let (variables, numbers) = readings(fields.next()?, &mut variables_read, &mut numbers_read)?;
    let budget = number(last(fields)?)?;
    let run = Run {
        profile,
        limits,
        variables,
        numbers,
        budget,
    };
    let mut lent = Lent::new();
    let answer = run_made(kind, run, &mut lent);
    Some(match kind {
        RunKind::Checked(Part::Bodies) => {
            left_line(answer, lent.is_kept(), "bodies", Places(&lent.bodies), out)
        }
        _ => run_line(answer, &lent, out),
    })
}

fn run_made(kind: RunKind, run: Run<'_>, lent: &mut Lent) -> RunAnswer {
    match kind {
        RunKind::Checked(_) => calls::checked_run::run_checked(
            run.profile,
            run.limits,
            run.variables,
            run.numbers,
            run.budget,
            &mut lent.cells,
            &mut lent.states,
            &mut lent.open_cells,
            &mut lent.open_states,
            &mut lent.bodies,
        ),
        RunKind::Erased => calls::erased_run::run_erased(
            run.profile,
            run.limits,
            run.variables,
            run.numbers,
            run.budget,
            &mut lent.cells,
            &mut lent.states,
            &mut lent.open_cells,
            &mut lent.open_states,
            &mut lent.layout,
        ),
    }
}
