// One whole file: the lowest of its own rules, or its rows gathered.
ghost use Rattle.std.specs.Prelude.{◌≡◌, ◌≤◌, length};
ghost use Rattle.lingua.specs.Numbers.{type_bodies_length};
ghost use Rattle.lingua.specs.Answers.{file_meaning};
ghost use Rattle.pair.specs.Taken.{room_for, TakenIs};

use blocks::rows::gather_rows;
use blocks::rules::file_refusal;
use decoder::rows::Rows;
use decoder::tables::Tables;
use lingua::FileKind;
use lingua::errors::Refusal;
use rules::refusal::rows_refusal;

// A file's rows are so many bytes, in these tables. Who has the area has the rows: `Rows::with` them again.
#[derive(Clone, Copy)]
pub struct Taken {
    pub length: usize,
    pub tables: Tables,
}

// A whole file, its rows gathered to the front of areas, which has room for those of any accepted file of its kind; and the bodies of a
// profile's type rows.
pub fn take(
    kind: FileKind,
    file: &[u8],
    areas: &mut [u8],
    bodies: &mut [u8],
) -> Result<Taken, Refusal>
    requires kind_in_bounds { room_for (file_meaning kind) ≤ length areas.old }
    requires bodies_len { length bodies.old ≡ type_bodies_length }
    ensures { TakenIs result (file_meaning kind) file.now areas.new bodies.new }
{
    file_refusal(kind, file)?;
    let n = gather_rows(file, &mut *areas);
    let rows = Rows::of(&areas[..n]);
    rows_refusal(kind, &rows, bodies)?;
    Ok(Taken {
        length: n,
        tables: rows.tables(),
    })
}
