// Rule 19: no call gives one variable twice by reference.
ghost use Rattle.std.specs.Prelude.{◌≡◌, ◌<◌};
ghost use Rattle.lingua.specs.Numbers.{instruction_section};
ghost use Rattle.lingua.specs.Rows.{table_count, instruction_row};
ghost use Rattle.lingua.specs.Trees.{given_references};
ghost use Rattle.lingua.specs.References.{on_call, all_different, references_wrong};
ghost use Rattle.rules.specs.Calls.{Scoped};

use decoder::decode::InstructionRow;
use decoder::groups::{given, groups_differ};
use decoder::rows::Rows;

fn references_differ(rows: &Rows, r: usize) -> bool
    requires scoped { Scoped rows.now }
    requires r_lt_count { r < table_count rows.now instruction_section }
    ensures { result ≡ on_call (instruction_row rows.now r) (λ k b c. all_different (given_references rows.now k c)) }
{
    let row = rows.instruction_row(r);
    match row {
        InstructionRow::Call(k, _, c) => {
            let procedure = rows.procedure(k);
            groups_differ(c, given(procedure.references))
        }
        _ => true,
    }
}

pub fn references_wrong(rows: &Rows) -> bool
    requires { Scoped rows.now }
    ensures { result ≡ references_wrong rows.now }
{
    let instructions = rows.instructions();
    !(0..instructions.count).all(|r| references_differ(rows, r))
}
