// Rule 9: constants, attributes and handled errors. A limits file has none.
ghost use Rattle.std.specs.Prelude.{◌≡◌, ◌&&◌, ◌+◌, ◌*◌, ◌≤◌, ◌<◌, length};
ghost use Rattle.std.specs.Int.{w64};
ghost use Rattle.std.proofs.Common.{to_z};
ghost use Rattle.lingua.specs.Numbers.{type_section, expression_section, instruction_section};
ghost use Rattle.lingua.specs.Errors.{is_error};
ghost use Rattle.lingua.specs.Answers.{file_meaning};
ghost use Rattle.lingua.specs.Value.{all_of};
ghost use Rattle.lingua.specs.Rows.{table_count, type_row, expression_row, instruction_row};
ghost use Rattle.lingua.specs.Format.{profile, every_below};
ghost use Rattle.lingua.specs.Rules.{constant_fits, row_constant_fits, attributes_fit, type_attributes, expression_attributes, handled_errors, constant_wrong};
ghost use Rattle.decoder.specs.Decoded.{constant_meaning, expression_meaning};
ghost use Rattle.row_rules.specs.Range.{about};

use decoder::decode::{ExpressionRow, Simple, expression_at};
use decoder::fields::{bytes_at, padded, wide_at};
use decoder::mentions::{all_within, attributes, handled, type_attributes};
use decoder::rows::Rows;
use lingua::FileKind;
use lingua::errors::ERROR_NUMBERS;
use lingua::sizes::{ATTRIBUTE_NUMBERS, HIGHEST_CHARACTER, LOWEST_CHARACTER};

// the highest number and the highest count of hundredths, each less one
const BELOW_NUMBER: usize = 999999;

const BELOW_COUNT: usize = 99999999;

// Whether the 64 bits, read with a sign, are a number from -(k + 1) to k + 1.
#[tactic(auto, using(crate::proofs::Ranges::small_fits, crate::proofs::Ranges::other_fits))]
fn is_about(k: usize, n: usize) -> bool
    requires { k < 9223372036854775807 }
    ensures { result ≡ about k (to_z w64 n) }
{
    n <= k + 1 || 18446744073709551615 - k <= n
}

// Row i, a constant's.
#[tactic(auto, using(decoder::proofs::Constant::word_is), unfolding(lingua::specs::Rules::constant_fits, decoder::specs::Decoded::constant_meaning, lingua::specs::Rows::number_at, lingua::specs::Value::in_range, lingua::specs::Value::in_counts, lingua::specs::Value::is_character, crate::specs::Range::about))]
fn constant_fits(s: Simple, rows: &[u8], i: usize) -> bool
    requires { 10 * i + 10 ≤ length rows.now }
    ensures { result ≡ constant_fits (constant_meaning rows.now i s) }
{
    match s {
        Simple::Boolean => wide_at(rows, i) <= 1,
        Simple::Number => is_about(BELOW_NUMBER, wide_at(rows, i)),
        Simple::Word => padded(bytes_at(rows, i), LOWEST_CHARACTER, HIGHEST_CHARACTER),
        Simple::Hundredths => is_about(BELOW_COUNT, wide_at(rows, i)),
    }
}

// Only constants have bytes that may be out of range for them.
#[tactic(auto, unfolding(lingua::specs::Rules::row_constant_fits, decoder::specs::Decoded::expression_meaning))]
fn row_constant_fits(row: ExpressionRow, rows: &[u8], i: usize) -> bool
    requires { 10 * i + 10 ≤ length rows.now }
    ensures { result ≡ row_constant_fits (expression_meaning rows.now i row) }
{
    match row {
        ExpressionRow::Constant(s) => constant_fits(s, rows, i),
        _ => true,
    }
}

// Decoded here, since what rows.expression_row(r) promises of a row says nothing of a constant's bytes.
fn constant_fits_at(rows: &Rows, r: usize) -> bool
    requires { r < table_count rows.now expression_section }
    ensures { result ≡ row_constant_fits (expression_row rows.now r) }
{
    let bytes = rows.bytes();
    let t = rows.expressions();
    let i = t.start + r;
    match expression_at(bytes, i) {
        Some((_, row)) => row_constant_fits(row, bytes, i),
        None => true,
    }
}

fn type_fits(rows: &Rows, r: usize) -> bool
    requires { r < table_count rows.now type_section }
    ensures { result ≡ attributes_fit (type_attributes (type_row rows.now r)) }
{
    all_within(type_attributes(rows.type_row(r)), 0, ATTRIBUTE_NUMBERS)
}

fn types_fit(rows: &Rows) -> bool
    ensures { result ≡ every_below (table_count rows.now type_section) (λ r. attributes_fit (type_attributes (type_row rows.now r))) }
{
    let types = rows.types();
    (0..types.count).all(|r| type_fits(rows, r))
}

fn attributes_fit_at(rows: &Rows, r: usize) -> bool
    requires { r < table_count rows.now expression_section }
    ensures { result ≡ attributes_fit (expression_attributes (expression_row rows.now r)) }
{
    all_within(attributes(rows.expression_row(r)), 0, ATTRIBUTE_NUMBERS)
}

fn expressions_fit(rows: &Rows) -> bool
    ensures { result ≡ every_below (table_count rows.now expression_section) (λ r. row_constant_fits (expression_row rows.now r) && attributes_fit (expression_attributes (expression_row rows.now r))) }
{
    let expressions = rows.expressions();
    (0..expressions.count).all(|r| constant_fits_at(rows, r) && attributes_fit_at(rows, r))
}

#[tactic(auto, using(decoder::proofs::Short::within_errors))]
fn handler_fits(rows: &Rows, r: usize) -> bool
    requires { r < table_count rows.now instruction_section }
    ensures { result ≡ all_of is_error (handled_errors (instruction_row rows.now r)) }
{
    all_within(handled(rows.instruction_row(r)), 1, ERROR_NUMBERS)
}

fn handlers_fit(rows: &Rows) -> bool
    ensures { result ≡ every_below (table_count rows.now instruction_section) (λ r. all_of is_error (handled_errors (instruction_row rows.now r))) }
{
    let instructions = rows.instructions();
    (0..instructions.count).all(|r| handler_fits(rows, r))
}

#[tactic(auto, unfolding(lingua::specs::Rules::constant_wrong))]
fn profile_constant_wrong(rows: &Rows) -> bool
    ensures { result ≡ constant_wrong profile rows.now }
{
    !types_fit(rows) || !expressions_fit(rows) || !handlers_fit(rows)
}

#[tactic(auto, unfolding(lingua::specs::Answers::file_meaning, lingua::specs::Rules::constant_wrong))]
pub fn constant_wrong(file: FileKind, rows: &Rows) -> bool
    ensures { result ≡ constant_wrong (file_meaning file) rows.now }
{
    match file {
        FileKind::Profile => profile_constant_wrong(rows),
        FileKind::Limits => false,
    }
}
