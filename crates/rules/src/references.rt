// Rule 10: what rows name by number exists, and within a table it is a lower row; a procedure's body is not the last instruction row.
// The variables that a row names are asked apart, once all this holds (variables.rt).
ghost use Rattle.std.specs.Prelude.{◌≡◌, ◌&&◌, ◌++◌, suc, ◌+◌, ◌*◌, ◌≤◌, ◌<◌, pred, ltb, length};
ghost use Rattle.lingua.specs.Numbers.{type_section, expression_section, instruction_section, most_procedures};
ghost use Rattle.lingua.specs.Rows.{a_at, b_at, table_count, procedure_count, body_row, type_row, expression_row, operands, evaluated, yoke_root, yoke_set};
ghost use Rattle.lingua.specs.Format.{every_below};
ghost use Rattle.lingua.specs.References.{all_below, type_parts, on_call, declarations_refer, instruction_refers, rows_refer, reference_wrong};
ghost use Rattle.decoder.specs.Tables.{Sized};
ghost use Rattle.decoder.specs.Decoded.{instruction_meaning};

use crate::variables::variables_wrong;
use decoder::decode::InstructionRow;
use decoder::fields::{a_at, b_at};
use decoder::mentions::{all_within, evaluated, operands, parts, type_parts, yoke_root, yoke_set};
use decoder::rows::Rows;

// The second row of declaration d, of those that begin with row start, names a type row, and with its yoke an expression row.
fn declaration_refers(rows: &Rows, start: usize, d: usize) -> bool
    requires { 10 * (start + (2 * d + 1)) + 10 ≤ length rows.now }
    ensures { result ≡ (ltb (a_at rows.now (start + (2 * d + 1))) (table_count rows.now type_section) && all_below (table_count rows.now expression_section) (yoke_root (b_at rows.now (start + (2 * d + 1))))) }
{
    let bytes = rows.bytes();
    let types = rows.types();
    let expressions = rows.expressions();
    let i = start + (2 * d + 1);
    a_at(bytes, i) < types.count && all_within(yoke_root(b_at(bytes, i)), 0, expressions.count)
}

// The declarations of one scope.
fn declarations_refer(rows: &Rows, s: usize) -> bool
    requires s_le_count { s ≤ procedure_count rows.now }
    requires s_le_most { s ≤ most_procedures }
    ensures { result ≡ declarations_refer rows.now s }
{
    let own = rows.scope(s);
    (0..own.count / 2).all(|d| declaration_refers(rows, own.start, d))
}

// The profile's and each procedure's.
fn scopes_refer(rows: &Rows) -> bool
    requires { procedure_count rows.now ≤ most_procedures }
    ensures { result ≡ every_below (suc (procedure_count rows.now)) (λ s. declarations_refer rows.now s) }
{
    (0..rows.procedures() + 1).all(|s| declarations_refer(rows, s))
}

fn types_refer(rows: &Rows) -> bool
    ensures { result ≡ every_below (table_count rows.now type_section) (λ r. all_below r (type_parts (type_row rows.now r))) }
{
    let types = rows.types();
    (0..types.count).all(|r| all_within(type_parts(rows.type_row(r)), 0, r))
}

fn expressions_refer(rows: &Rows) -> bool
    ensures { result ≡ every_below (table_count rows.now expression_section) (λ r. all_below r (operands (expression_row rows.now r))) }
{
    let expressions = rows.expressions();
    (0..expressions.count).all(|r| all_within(operands(rows.expression_row(r)), 0, r))
}

// A call names a procedure.
#[tactic(auto, using(crate::proofs::Calling::call_at, crate::proofs::Calling::no_call))]
fn call_refers(row: InstructionRow, procedures: usize) -> bool
    ensures { result ≡ on_call (instruction_meaning row) (λ k b c. ltb k procedures) }
{
    match row {
        InstructionRow::Call(k, _, _) => k < procedures,
        _ => true,
    }
}

// The expressions that an instruction evaluates, and that of a yoke that it sets.
#[tactic(auto, using(decoder::proofs::Short::within_below, decoder::proofs::Short::all_append))]
fn roots_refer(row: InstructionRow, expressions: usize) -> bool
    ensures { result ≡ all_below expressions (evaluated (instruction_meaning row) ++ yoke_set (instruction_meaning row)) }
{
    all_within(evaluated(row), 0, expressions) && all_within(yoke_set(row), 0, expressions)
}

#[tactic(auto, using(decoder::proofs::Short::within_below), unfolding(lingua::specs::References::instruction_refers))]
fn instruction_refers(rows: &Rows, r: usize) -> bool
    requires { r < table_count rows.now instruction_section }
    ensures { result ≡ instruction_refers rows.now r }
{
    let row = rows.instruction_row(r);
    let expressions = rows.expressions();
    let procedures = rows.procedures();
    all_within(parts(row), 0, r)
        && roots_refer(row, expressions.count)
        && call_refers(row, procedures)
}

fn instructions_refer(rows: &Rows) -> bool
    ensures { result ≡ every_below (table_count rows.now instruction_section) (λ r. instruction_refers rows.now r) }
{
    let instructions = rows.instructions();
    (0..instructions.count).all(|r| instruction_refers(rows, r))
}

// No procedure's body is the program.
fn bodies_refer(rows: &Rows) -> bool
    requires { Sized rows.now }
    ensures { result ≡ every_below (procedure_count rows.now) (λ k. ltb (body_row rows.now k) (pred (table_count rows.now instruction_section))) }
{
    let instructions = rows.instructions();
    let last = instructions.count - 1;
    (0..rows.procedures()).all(|k| rows.procedure(k).body < last)
}

#[tactic(auto, unfolding(lingua::specs::References::rows_refer))]
fn rows_refer(rows: &Rows) -> bool
    requires { Sized rows.now }
    ensures { result ≡ rows_refer rows.now }
{
    scopes_refer(rows)
        && types_refer(rows)
        && expressions_refer(rows)
        && instructions_refer(rows)
        && bodies_refer(rows)
}

#[tactic(auto, unfolding(lingua::specs::References::reference_wrong))]
pub fn reference_wrong(rows: &Rows) -> bool
    requires { Sized rows.now }
    ensures { result ≡ reference_wrong rows.now }
{
    !rows_refer(rows) || variables_wrong(rows)
}
