// Rule 6: the form of rows, each by itself and in their order.
ghost use Rattle.std.specs.Prelude.{◌≡◌, ◌+◌, ◌*◌, ◌%◌, ◌≤◌, eqb, map, length, get_or};
ghost use Rattle.std.proofs.Math.Option.{some, none};
ghost use Rattle.lingua.specs.Answers.{file_meaning};
ghost use Rattle.lingua.specs.Rows.{row_count, kind_at};
ghost use Rattle.lingua.specs.Format.{every_below};
ghost use Rattle.lingua.specs.Rules.{used_bytes, section_belongs, row_fits, ascending, paired, form_wrong};
ghost use Rattle.decoder.specs.Tables.{IsTable};
ghost use Rattle.row_rules.specs.Form.{meant};
ghost use Rattle.decoder.specs.Decoded.{uses};

use crate::counts::in_between;
use crate::pairs::procedures_paired;
use decoder::decode::{Decoded, expression_at, instruction_at, type_at};
use decoder::fields::{bytes_at, kind_at, section_at, zero_from};
use decoder::rows::Rows;
use decoder::tables::Table;
use lingua::FileKind;
use lingua::sizes::{
    DECLARATION_SECTION, EXPRESSION_SECTION, INSTRUCTION_SECTION, LIMIT_SECTION, PROCEDURE_SECTION,
    ROW_BYTES, TYPE_SECTION,
};

// Limits stand alone in limits files; a profile has the sections before them, and the procedures behind.
#[tactic(auto, unfolding(lingua::specs::Answers::file_meaning, lingua::specs::Rules::section_belongs))]
fn section_belongs(file: FileKind, section: u8) -> bool
    ensures { result ≡ section_belongs (file_meaning file) section }
{
    match file {
        FileKind::Profile => in_between(1, 4, section as usize) || section == PROCEDURE_SECTION,
        FileKind::Limits => section == LIMIT_SECTION,
    }
}

// How many bytes a row of a kind uses, where each kind from 0 on has its number.
#[tactic(auto, using(crate::proofs::Forms::at_place))]
fn used_in(used: &[u8], kind: u8) -> Option<u8>
    ensures { meant result ≡ get_or (map some used.now) kind none }
{
    used.get(kind as usize).copied()
}

#[tactic(auto, unfolding(crate::specs::Form::meant, decoder::specs::Decoded::uses))]
fn used_by<R: Copy>(row: Decoded<R>) -> Option<u8>
    ensures { meant result ≡ uses row }
{
    match row {
        Some((used, _)) => Some(used),
        None => None,
    }
}

// The number of bytes that row i uses of its eight, if the section has such a kind. The rows of a pair have the kinds 0 and 1; a
// procedure begins with kind 2.
#[tactic(auto, unfolding(lingua::specs::Rules::used_bytes, crate::specs::Form::meant))]
fn used_bytes(rows: &[u8], i: usize, section: u8) -> Option<u8>
    requires { 10 * i + 10 ≤ length rows.now }
    ensures { meant result ≡ used_bytes section (kind_at rows.now i) }
{
    match section {
        DECLARATION_SECTION => used_in(&[8, 4], kind_at(rows, i)),
        TYPE_SECTION => used_by(type_at(rows, i)),
        EXPRESSION_SECTION => used_by(expression_at(rows, i)),
        INSTRUCTION_SECTION => used_by(instruction_at(rows, i)),
        LIMIT_SECTION => used_in(&[8, 8], kind_at(rows, i)),
        PROCEDURE_SECTION => used_in(&[8, 4, 6], kind_at(rows, i)),
        _ => None,
    }
}

#[tactic(auto, unfolding(lingua::specs::Rules::row_fits, lingua::specs::Rules::bytes_fit, crate::specs::Form::meant))]
fn row_fits(file: FileKind, rows: &[u8], i: usize) -> bool
    requires { 10 * i + 10 ≤ length rows.now }
    ensures { result ≡ row_fits (file_meaning file) rows.now i }
{
    let section = section_at(rows, i);
    if !section_belongs(file, section) {
        return false;
    }
    match used_bytes(rows, i, section) {
        Some(used) => zero_from(bytes_at(rows, i), used as usize),
        None => false,
    }
}

fn rows_fit(file: FileKind, rows: &[u8]) -> bool
    ensures { result ≡ every_below (row_count rows.now) (λ i. row_fits (file_meaning file) rows.now i) }
{
    (0..rows.len() / ROW_BYTES).all(|i| row_fits(file, rows, i))
}

fn sections_ascend(rows: &[u8]) -> bool
    ensures { result ≡ ascending rows.now }
{
    let count = rows.len() / ROW_BYTES;
    (0..count.saturating_sub(1)).all(|i| section_at(rows, i) <= section_at(rows, i + 1))
}

// Kinds 0 and 1 in turn. The table is that of the declarations, or that of the limits.
fn alternates(rows: &[u8], t: Table) -> bool
    requires { IsTable rows.now t.section t }
    ensures { result ≡ every_below t.count (λ r. eqb (kind_at rows.now (t.start + r)) (r % 2)) }
{
    (0..t.count).all(|r| kind_at(rows, t.start + r) as usize == r % 2)
}

// And a whole number of pairs.
#[tactic(auto, unfolding(lingua::specs::Rules::paired, lingua::specs::Rows::row_in))]
fn is_paired(rows: &[u8], t: Table) -> bool
    requires { IsTable rows.now t.section t }
    ensures { result ≡ paired rows.now t.section }
{
    alternates(rows, t) && t.count % 2 == 0
}

#[tactic(auto, unfolding(lingua::specs::Rules::form_wrong))]
pub fn form_wrong(file: FileKind, rows: &Rows) -> bool
    ensures { result ≡ form_wrong (file_meaning file) rows.now }
{
    let bytes = rows.bytes();
    let declarations = rows.declarations();
    let limits = rows.limits();
    !rows_fit(file, bytes)
        || !sections_ascend(bytes)
        || !is_paired(bytes, declarations)
        || !is_paired(bytes, limits)
        || !procedures_paired(rows)
}
