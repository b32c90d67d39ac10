// The second half of rule 10: a row names variables of its own scope. Asked where all other references hold.
ghost use Rattle.std.specs.Prelude.{◌≡◌, true, ◌++◌, ◌≤◌, ◌<◌};
ghost use Rattle.lingua.specs.Numbers.{expression_section, instruction_section, most_procedures};
ghost use Rattle.lingua.specs.Rows.{table_count, procedure_count, expression_row};
ghost use Rattle.lingua.specs.Trees.{given_values, given_references, instruction_scope, expression_scope};
ghost use Rattle.lingua.specs.Format.{every_below};
ghost use Rattle.lingua.specs.References.{all_below, expression_variables, on_call, variables_seen, variables_fit, variables_wrong, rows_refer};
ghost use Rattle.decoder.specs.Tables.{Sized};
ghost use Rattle.decoder.specs.Decoded.{instruction_meaning};
ghost use Rattle.scopes.specs.Marks.{InstructionScopes, ExpressionScopes};
ghost use Rattle.rules.specs.Calls.{Scoped, Calls};

use decoder::decode::InstructionRow;
use decoder::groups::{given, groups_below};
use decoder::mentions::{all_within, assigned, variables};
use decoder::rows::Rows;
use lingua::sizes::{MOST_EXPRESSIONS, MOST_INSTRUCTIONS};
use scopes::pass::{expression_scopes, instruction_scopes};

// How many variables a scope has.
#[tactic(auto, unfolding(lingua::specs::References::variables_seen, lingua::specs::Rows::pair_count))]
fn seen(rows: &Rows, s: usize) -> usize
    requires s_le_count { s ≤ procedure_count rows.now }
    requires s_le_most { s ≤ most_procedures }
    ensures { result ≡ variables_seen rows.now s }
{
    rows.scope(s).count / 2
}

// The variables that a call gives, as many as its procedure has parameters of each sort, and at most 4.
fn given_fit(rows: &Rows, row: InstructionRow, end: usize) -> bool
    requires { Calls rows.now row }
    ensures { result ≡ on_call (instruction_meaning row) (λ k b c. all_below end (given_values rows.now k b ++ given_references rows.now k c)) }
{
    match row {
        InstructionRow::Call(k, b, c) => {
            let procedure = rows.procedure(k);
            groups_below(b, given(procedure.values), end)
                && groups_below(c, given(procedure.references), end)
        }
        _ => true,
    }
}

// The variables that an expression names.
fn expression_fits(rows: &Rows, r: usize, s: usize) -> bool
    requires scoped { Scoped rows.now }
    requires r_lt_count { r < table_count rows.now expression_section }
    requires s_value { (s ≡ expression_scope rows.now r) × (s ≤ procedure_count rows.now) }
    ensures { result ≡ all_below (variables_seen rows.now (expression_scope rows.now r)) (expression_variables (expression_row rows.now r)) }
{
    let row = rows.expression_row(r);
    let end = seen(rows, s);
    all_within(variables(row), 0, end)
}

fn expressions_fit(rows: &Rows, scopes: &[u8; MOST_EXPRESSIONS]) -> bool
    requires scoped { Scoped rows.now }
    requires expression_scopes { ExpressionScopes rows.now scopes.now }
    ensures { result ≡ every_below (table_count rows.now expression_section) (λ r. all_below (variables_seen rows.now (expression_scope rows.now r)) (expression_variables (expression_row rows.now r))) }
{
    let expressions = rows.expressions();
    (0..expressions.count).all(|r| expression_fits(rows, r, scopes[r] as usize))
}

// The variable that an instruction assigns to or whose yoke it sets, and those that it gives.
#[tactic(auto, unfolding(lingua::specs::References::variables_fit))]
fn instruction_fits(rows: &Rows, r: usize, s: usize) -> bool
    requires scoped { Scoped rows.now }
    requires r_lt_count { r < table_count rows.now instruction_section }
    requires s_value { (s ≡ instruction_scope rows.now r) × (s ≤ procedure_count rows.now) }
    ensures { result ≡ variables_fit rows.now r }
{
    let row = rows.instruction_row(r);
    let end = seen(rows, s);
    all_within(assigned(row), 0, end) && given_fit(rows, row, end)
}

fn instructions_fit(rows: &Rows, scopes: &[u8; MOST_INSTRUCTIONS]) -> bool
    requires scoped { Scoped rows.now }
    requires instruction_scopes { InstructionScopes rows.now scopes.now }
    ensures { result ≡ every_below (table_count rows.now instruction_section) (λ r. variables_fit rows.now r) }
{
    let instructions = rows.instructions();
    (0..instructions.count).all(|r| instruction_fits(rows, r, scopes[r] as usize))
}

#[tactic(auto, unfolding(lingua::specs::References::variables_wrong))]
pub fn variables_wrong(rows: &Rows) -> bool
    requires sized { Sized rows.now }
    requires rows_value { rows_refer rows.now ≡ true }
    ensures { result ≡ variables_wrong rows.now }
{
    let owners = instruction_scopes(rows);
    let used = expression_scopes(rows, &owners);
    !expressions_fit(rows, &used) || !instructions_fit(rows, &owners)
}
