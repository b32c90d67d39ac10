// The reader and the writer of both kinds of file, as public calls.
ghost use Rattle.std.specs.Prelude.{◌≡◌, length};
ghost use Rattle.lingua.specs.Answers.{file_meaning};
ghost use Rattle.lingua.specs.Calls.{read_call, read_result, write_call, write_result};

use blocks::rows::copy_rows;
use blocks::words::word16_at;
use blocks::writer::{file_length, write_file};
use decoder::rows::Rows;
use lingua::errors::Refusal;
use lingua::sizes::{AREAS_LENGTH, ROW_BYTES, ROWS_LENGTH, TYPE_BODIES_LENGTH};
use lingua::{FileKind, ReadAnswer, RowsRead, WriteAnswer};
use pair::file::take;
use rules::refusal::rows_refusal;

// document 01: the reader. The caller's buffer is written only once no rule applies.
pub fn read(kind: FileKind, file: &[u8], rows: &mut [u8]) -> ReadAnswer
    ensures { read_result result rows.new ≡ read_call (file_meaning kind) file.now rows.old }
{
    if rows.len() != ROWS_LENGTH {
        return Err(Refusal::BadBuffer);
    }
    let mut areas = [0u8; AREAS_LENGTH];
    let mut bodies = [0u8; TYPE_BODIES_LENGTH];
    let taken = take(kind, file, &mut areas, &mut bodies)?;
    copy_rows(&areas[..taken.length], rows);
    Ok(RowsRead {
        model: word16_at(file, 6),
        count: (taken.length / ROW_BYTES) as u16,
    })
}

// document 01: the writer.
pub fn write(kind: FileKind, model: u16, rows: &[u8], file: &mut [u8]) -> WriteAnswer
    ensures { write_result result file.new ≡ write_call (file_meaning kind) model rows.now file.old }
{
    if rows.len() % ROW_BYTES != 0 {
        return Err(Refusal::BadBuffer);
    }
    if file.len() != file_length(kind, rows) {
        return Err(Refusal::BadBuffer);
    }
    let mut bodies = [0u8; TYPE_BODIES_LENGTH];
    rows_refusal(kind, &Rows::of(rows), &mut bodies)?;
    write_file(kind, model, rows, file);
    Ok(())
}
