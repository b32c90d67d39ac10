// Rule 12: variables are read outside yokes, the current value inside. Each expression row is marked once, from the lowest up, as
// to whether anything in its tree reads; then the rows that yokes and instructions name are asked.
ghost use Rattle.std.specs.Prelude.{◌≡◌, true, false, not, ◌&&◌, List, ℕ, suc, ◌+◌, ◌*◌, ◌≤◌, ◌<◌, ltb, get_or};
ghost use Rattle.lingua.specs.Numbers.{expression_section, instruction_section, most_expressions};
ghost use Rattle.lingua.specs.Value.{all_of};
ghost use Rattle.lingua.specs.Rows.{table_count, procedure_count, expression_row, instruction_row, evaluated, yoke_set};
ghost use Rattle.lingua.specs.Trees.{expression_tree};
ghost use Rattle.lingua.specs.Format.{every_below};
ghost use Rattle.lingua.specs.References.{declared_roots, reference_wrong, place_wrong};
ghost use Rattle.decoder.specs.Tables.{Sized};
ghost use Rattle.decoder.specs.Mentions.{listed};
ghost use Rattle.decoder.specs.Decoded.{expression_meaning};
ghost use Rattle.decoder.specs.Reads.{reads, reads_row, Marked, PlacesMarked};

use decoder::decode::ExpressionRow;
use decoder::fields::b_at;
use decoder::mentions::{UpToThree, evaluated, operands, yoke_root, yoke_set};
use decoder::rows::Rows;
use lingua::sizes::MOST_EXPRESSIONS;

// Whether a row by itself reads a variable, or else the current value.
#[tactic(auto, unfolding(decoder::specs::Reads::reads_row, decoder::specs::Decoded::expression_meaning))]
fn row_reads(row: ExpressionRow, variable: bool) -> bool
    ensures { (rows : List ℕ) (i : ℕ) → result ≡ reads_row variable (expression_meaning rows i row) }
{
    match row {
        ExpressionRow::Variable(_) => variable,
        ExpressionRow::Current => !variable,
        ExpressionRow::AllList(_) => !variable,
        _ => false,
    }
}

// Whether row a is below r and marked.
fn is_marked(marks: &[bool; MOST_EXPRESSIONS], r: usize, a: usize) -> bool
    requires { r ≤ most_expressions }
    ensures { result ≡ (ltb a r && get_or marks.now a false) }
{
    a < r && marks[a]
}

fn none_marked(f: UpToThree, marks: &[bool; MOST_EXPRESSIONS], r: usize) -> bool
    requires { r ≤ 512 }
    ensures { result ≡ all_of (λ a. not (ltb a r && get_or marks.now a false)) (listed f) }
{
    f.numbers().iter().all(|a| !is_marked(marks, r, *a))
}

// Whether the tree of row r reads, given the marks of the rows below.
fn tree_reads(rows: &Rows, marks: &[bool; MOST_EXPRESSIONS], r: usize, variable: bool) -> bool
    requires r_lt_count { r < table_count rows.now expression_section }
    requires r_le_most { r ≤ most_expressions }
    requires marked { Marked rows.now variable r marks.now }
    ensures { result ≡ reads variable (expression_tree rows.now r) }
{
    let row = rows.expression_row(r);
    row_reads(row, variable) || !none_marked(operands(row), marks, r)
}

fn readers(rows: &Rows, variable: bool) -> [bool; MOST_EXPRESSIONS]
    requires { table_count rows.now expression_section ≤ most_expressions }
    ensures { Marked rows.now variable (table_count rows.now expression_section) result }
{
    let mut marks = [false; MOST_EXPRESSIONS];
    let expressions = rows.expressions();
    for r in 0..expressions.count {
        let mark = tree_reads(rows, &marks, r, variable);
        marks[r] = mark;
    }
    marks
}

// No yoke that a scope declares reads a variable.
fn declared_fit(rows: &Rows, marks: &[bool; MOST_EXPRESSIONS], s: usize) -> bool
    requires places_marked { PlacesMarked rows.now true marks.now }
    requires s_le_count { s ≤ procedure_count rows.now }
    ensures { result ≡ all_of (λ r. not (reads true (expression_tree rows.now r))) (declared_roots rows.now s) }
{
    let bytes = rows.bytes();
    let own = rows.scope(s);
    let start = own.start;
    let expressions = rows.expressions().count;
    (0..own.count / 2).all(|d| {
        none_marked(
            yoke_root(b_at(bytes, start + (2 * d + 1))),
            marks,
            expressions,
        )
    })
}

// Those of the profile and of each procedure.
fn scopes_fit(rows: &Rows, marks: &[bool; MOST_EXPRESSIONS]) -> bool
    requires { PlacesMarked rows.now true marks.now }
    ensures { result ≡ every_below (suc (procedure_count rows.now)) (λ s. all_of (λ r. not (reads true (expression_tree rows.now r))) (declared_roots rows.now s)) }
{
    (0..rows.procedures() + 1).all(|s| declared_fit(rows, marks, s))
}

// No yoke that is set reads a variable.
fn set_fit(rows: &Rows, marks: &[bool; MOST_EXPRESSIONS]) -> bool
    requires { PlacesMarked rows.now true marks.now }
    ensures { result ≡ every_below (table_count rows.now instruction_section) (λ i. all_of (λ r. not (reads true (expression_tree rows.now r))) (yoke_set (instruction_row rows.now i))) }
{
    let instructions = rows.instructions();
    let expressions = rows.expressions().count;
    (0..instructions.count).all(|i| none_marked(
        yoke_set(rows.instruction_row(i)),
        marks,
        expressions,
    ))
}

// No expression that an instruction evaluates reads the current value.
fn evaluated_fit(rows: &Rows, marks: &[bool; MOST_EXPRESSIONS]) -> bool
    requires { PlacesMarked rows.now false marks.now }
    ensures { result ≡ every_below (table_count rows.now instruction_section) (λ i. all_of (λ r. not (reads false (expression_tree rows.now r))) (evaluated (instruction_row rows.now i))) }
{
    let instructions = rows.instructions();
    let expressions = rows.expressions().count;
    (0..instructions.count).all(|i| none_marked(
        evaluated(rows.instruction_row(i)),
        marks,
        expressions,
    ))
}

#[tactic(auto, using(crate::proofs::Reading::places_are))]
pub fn place_wrong(rows: &Rows) -> bool
    requires sized { Sized rows.now }
    requires rows_value { reference_wrong rows.now ≡ false }
    ensures { result ≡ place_wrong rows.now }
{
    let variables = readers(rows, true);
    if !scopes_fit(rows, &variables) || !set_fit(rows, &variables) {
        return true;
    }
    let currents = readers(rows, false);
    !evaluated_fit(rows, &currents)
}
