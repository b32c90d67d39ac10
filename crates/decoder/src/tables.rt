// Where each table's rows stand: sections ascend, so a section's rows begin behind those of all lower sections, and so do the procedures,
// each with the row that begins it and its variables.
ghost use Rattle.std.specs.Prelude.{◌≡◌, [], ℕ, ◌+◌, ◌*◌, ◌≤◌, ◌<◌, min, length, get_or, if◌then◌else◌};
ghost use Rattle.lingua.specs.Numbers.{most_procedures, header_table};
ghost use Rattle.lingua.specs.Rows.{count_below, procedure_kind, begins_procedure, table_at, table_start, table_count};
ghost use Rattle.decoder.specs.Tables.{AreCounts, AreTables};

use crate::fields::{kind_at, section_at};
use lingua::sizes::{
    DECLARATION_SECTION, EXPRESSION_SECTION, INSTRUCTION_SECTION, LIMIT_SECTION, MOST_PROCEDURES,
    PROCEDURE_SECTION, ROW_BYTES, TABLES_END, TYPE_SECTION,
};

// A section or a procedure's variables: the table's number, its first row, and how many it has.
#[derive(Clone, Copy)]
pub struct Table {
    pub section: u8,
    pub start: usize,
    pub count: usize,
}

// How many procedures there are, and where each begins; behind the last its end. Eight at most are looked into, in fixed memory, as all memory
// here is: the count may be higher, until rule 7 refuses it.
#[derive(Clone, Copy)]
pub struct Procedures {
    pub count: usize,
    pub heads: [usize; 9],
}

#[derive(Clone, Copy)]
pub struct Tables {
    pub declarations: Table,
    pub types: Table,
    pub expressions: Table,
    pub instructions: Table,
    pub limits: Table,
    pub procedures: Procedures,
}

// The instruction row of a procedure's body, and how many parameters it has by value and by reference.
#[derive(Clone, Copy)]
pub struct Procedure {
    pub body: usize,
    pub values: usize,
    pub references: usize,
}

// How many rows each table has, and how many procedures were begun; the last number counts the rows of all tables above.
#[derive(Clone, Copy)]
struct Counted {
    begun: usize,
    rows: [usize; 24],
}

// Whether row i is of section 6 and that kind: kind 2 begins a procedure.
pub fn is_kind(rows: &[u8], i: usize, kind: u8) -> bool
    requires { 10 * i + 10 ≤ length rows.now }
    ensures { result ≡ procedure_kind kind rows.now i }
{
    section_at(rows, i) == PROCEDURE_SECTION && kind_at(rows, i) == kind
}

// 1 where the row begins a procedure, else 0.
fn begins(rows: &[u8], i: usize) -> usize
    requires { 10 * i + 10 ≤ length rows.now }
    ensures { result ≡ (if begins_procedure rows.now i then 1 else 0) }
{
    usize::from(is_kind(rows, i, 2))
}

// The table of a row, where that many procedures were begun before it and its own is the next or not; 23 for all above.
fn slot(rows: &[u8], i: usize, begun: usize, more: usize) -> usize
    requires i_in_bounds { 10 * i + 10 ≤ length rows.now }
    requires begun_value { begun ≡ count_below i (λ j. begins_procedure rows.now j) }
    requires more_value { more ≡ (if begins_procedure rows.now i then 1 else 0) }
    ensures { result ≡ min (table_at rows.now i) 23 }
{
    let section = section_at(rows, i);
    if section < PROCEDURE_SECTION {
        return section as usize;
    }
    if begun > MOST_PROCEDURES {
        return TABLES_END;
    }
    6 + 2 * begun + more
}

// One pass over the rows.
fn table_counts(rows: &[u8]) -> Counted
    ensures { AreCounts rows.now result.begun result.rows }
{
    let mut counts = [0usize; 24];
    let mut begun = 0;
    for i in 0..rows.len() / ROW_BYTES {
        let more = begins(rows, i);
        let s = slot(rows, i, begun, more);
        counts[s] += 1;
        begun += more;
    }
    Counted {
        begun: begun,
        rows: counts,
    }
}

// Where each procedure begins, from the rows' counts and the first one's place.
fn heads_of(rows: &[u8], counts: &[usize; 24], first: usize) -> [usize; 9]
    requires by_index { (s : ℕ) → s < 23 → get_or counts.now s 0 ≡ table_count rows.now s }
    requires first_value { first ≡ table_start rows.now (header_table 0) }
    ensures { (k : ℕ) → k ≤ most_procedures → get_or result k 0 ≡ table_start rows.now (header_table k) }
{
    let mut heads = [first; 9];
    for k in 0..MOST_PROCEDURES {
        heads[k + 1] = heads[k] + counts[7 + 2 * k] + counts[8 + 2 * k];
    }
    heads
}

pub fn tables_of(rows: &[u8]) -> Tables
    ensures { AreTables rows.now result }
{
    let counted = table_counts(rows);
    let counts = counted.rows;
    let declarations = Table {
        section: DECLARATION_SECTION,
        start: counts[0],
        count: counts[1],
    };
    let types = Table {
        section: TYPE_SECTION,
        start: counts[0] + counts[1],
        count: counts[2],
    };
    let expressions = Table {
        section: EXPRESSION_SECTION,
        start: types.start + types.count,
        count: counts[3],
    };
    let instructions = Table {
        section: INSTRUCTION_SECTION,
        start: expressions.start + expressions.count,
        count: counts[4],
    };
    let limits = Table {
        section: LIMIT_SECTION,
        start: instructions.start + instructions.count,
        count: counts[5],
    };
    let first = limits.start + limits.count + counts[6];
    let heads = heads_of(rows, &counts, first);
    let procedures = Procedures {
        count: counted.begun,
        heads: heads,
    };
    Tables {
        declarations: declarations,
        types: types,
        expressions: expressions,
        instructions: instructions,
        limits: limits,
        procedures: procedures,
    }
}
