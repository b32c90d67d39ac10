// The lines of document 01's report.
ghost use Rattle.std.specs.Prelude.{◌++◌};
ghost use Rattle.std.specs.Option.{option_copied};
ghost use Rattle.lingua.specs.Report.{decimal, end_line, refused_text, cell_texts};
ghost use Rattle.lingua.specs.Answers.{ending};
ghost use Rattle.lingua.specs.Rows.{until_zero};
ghost use Rattle.text.specs.Appended.{Appended};
ghost use Rattle.text.specs.Line.{content_of, variable_line};

use crate::page::Page;

fn put_named(page: &mut Page<'_>, name: &[u8], n: u64)
    ensures { Appended page.old (name.now ++ decimal n) page.new }
{
    page.put(name);
    page.put_decimal(n);
}

// The first line of a run that was made; `end` is 0 finished, 1 failed, 2 out.
// It is document 01's number, which the line prints: an enum would only be turned back into it.
pub fn put_end_line(page: &mut Page<'_>, end: u8, error: u8, place: u16, steps: u16)
    ensures { Appended page.old (end_line (ending end error place steps)) page.new }
{
    put_named(page, b"end ", end as u64);
    put_named(page, b" error ", error as u64);
    put_named(page, b" place ", place as u64);
    put_named(page, b" steps ", steps as u64);
    page.put(b"\n");
}

// All that a refused pair prints.
pub fn put_refused_line(page: &mut Page<'_>, number: u8)
    ensures { Appended page.old (refused_text number) page.new }
{
    put_named(page, b"refused ", number as u64);
    page.put(b"\n");
}

// A filled variable's cells, each behind a space.
pub fn put_cell_texts(page: &mut Page<'_>, cells: &[i64])
    ensures { Appended page.old (cell_texts cells.now) page.new }
{
    for cell in cells {
        page.put(b" ");
        page.put_signed(*cell);
    }
}

// A name without the zeros after it.
fn put_name(page: &mut Page<'_>, name: &[u8])
    ensures { Appended page.old (until_zero name.now) page.new }
{
    let end = name
        .iter()
        .position(|byte| *byte == 0)
        .unwrap_or(name.len());
    page.put(&name[..end]);
}

// What a variable holds: its cells, or - where it is not filled.
fn put_content(page: &mut Page<'_>, content: Option<&[i64]>)
    ensures { Appended page.old (content_of (option_copied content.entry)) page.new }
{
    match content {
        Some(cells) => put_cell_texts(page, cells),
        None => page.put(b" -"),
    }
}

pub fn put_variable_line(page: &mut Page<'_>, name: &[u8], content: Option<&[i64]>)
    ensures { Appended page.old (variable_line name.now (option_copied content.entry)) page.new }
{
    put_name(page, name);
    put_content(page, content);
    page.put(b"\n");
}
