// Rule 18: a procedure has at most 4 parameters of a sort, no more than variables, and at most 16 of those; a call's bits above its
// procedure's parameters are 0.
ghost use Rattle.std.specs.Prelude.{◌≡◌, ◌&&◌, ◌≤◌, ◌<◌, eqb};
ghost use Rattle.lingua.specs.Numbers.{instruction_section, most_procedures};
ghost use Rattle.lingua.specs.Rows.{table_count, procedure_count, value_count, reference_count, instruction_row};
ghost use Rattle.lingua.specs.Format.{every_below};
ghost use Rattle.lingua.specs.References.{on_call, parameters_fit, bits_above, parameters_wrong};
ghost use Rattle.rules.specs.Calls.{Scoped};

use decoder::decode::InstructionRow;
use decoder::groups::bits_above;
use decoder::rows::Rows;
use lingua::sizes::{MOST_PARAMETERS, MOST_VARIABLES};

// That procedures are few rule 7 has shown of the same rows, and that they are there rule 10: such facts stay clauses in this crate, since a
// type for what each rule has shown would be one more name for those rows.
#[tactic(auto, unfolding(lingua::specs::References::parameters_fit, lingua::specs::Rows::pair_count))]
fn procedure_fits(rows: &Rows, k: usize) -> bool
    requires k_lt_count { k < procedure_count rows.now }
    requires few_procedures { procedure_count rows.now ≤ most_procedures }
    ensures { result ≡ parameters_fit rows.now k }
{
    let procedure = rows.procedure(k);
    let own = rows.variables(k);
    let variables = own.count / 2;
    procedure.values <= MOST_PARAMETERS
        && procedure.references <= MOST_PARAMETERS
        && procedure.values + procedure.references <= variables
        && variables <= MOST_VARIABLES
}

fn procedures_fit(rows: &Rows) -> bool
    requires { procedure_count rows.now ≤ most_procedures }
    ensures { result ≡ every_below (procedure_count rows.now) (λ k. parameters_fit rows.now k) }
{
    (0..rows.procedures()).all(|k| procedure_fits(rows, k))
}

fn call_fits(rows: &Rows, r: usize) -> bool
    requires scoped { Scoped rows.now }
    requires r_lt_count { r < table_count rows.now instruction_section }
    ensures { result ≡ on_call (instruction_row rows.now r) (λ k b c. eqb (bits_above (value_count rows.now k) b) 0 && eqb (bits_above (reference_count rows.now k) c) 0) }
{
    let row = rows.instruction_row(r);
    match row {
        InstructionRow::Call(k, b, c) => {
            let procedure = rows.procedure(k);
            bits_above(b, procedure.values) == 0 && bits_above(c, procedure.references) == 0
        }
        _ => true,
    }
}

fn calls_fit(rows: &Rows) -> bool
    requires { Scoped rows.now }
    ensures { result ≡ every_below (table_count rows.now instruction_section) (λ r. on_call (instruction_row rows.now r) (λ k b c. eqb (bits_above (value_count rows.now k) b) 0 && eqb (bits_above (reference_count rows.now k) c) 0)) }
{
    let instructions = rows.instructions();
    (0..instructions.count).all(|r| call_fits(rows, r))
}

#[tactic(auto, unfolding(lingua::specs::References::parameters_wrong))]
pub fn parameters_wrong(rows: &Rows) -> bool
    requires { Scoped rows.now }
    ensures { result ≡ parameters_wrong rows.now }
{
    !procedures_fit(rows) || !calls_fit(rows)
}
