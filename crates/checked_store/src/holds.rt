// Whether a variable's value satisfies a new yoke; one that is not filled takes any.
ghost use Rattle.std.specs.Prelude.{List, ◌+◌, ◌*◌, ◌<◌, ◌≤◌, length};
ghost use Rattle.lingua.specs.Numbers.{body_cells, expression_section, most_variables};
ghost use Rattle.lingua.specs.Rows.{table_count};
ghost use Rattle.lingua.specs.Faults.{number_of};
ghost use Rattle.lingua.specs.Store.{Variable, variable_at, yoke_holds};
ghost use Rattle.lingua.specs.Trees.{yoke_tree};
ghost use Rattle.run.specs.Lending.{seen_in};
ghost use Rattle.run.specs.Memory.{Admits};
ghost use Rattle.checked_row.specs.Meaning.{World, HasWorld};

use body::flat;
use checked::yoke::eval_yoke;
use checked_row::answer::{CurrentValue, truth_of};
use decoder::rows::Rows;
use lingua::errors::Error;
use lingua::sizes::BODY_CELLS;
use run::memory::Seen;
use run::words::is_filled;

// The variable's own cells are the current value, where they lie.
pub fn yoke_holds(
    rows: &Rows,
    memory: &Seen,
    n: usize,
    y: usize,
    stack: &mut [i64],
) -> Result<(), Error>
    requires has_world { HasWorld rows.now (seen_in memory.now) }
    requires n_lt_most_variables { n < most_variables }
    requires y_le_count { (y ≤ table_count rows.now expression_section) × (body_cells * (y + 1) ≤ length stack.old) }
    ensures { (vs : List Variable) → World rows.now (seen_in memory.now) vs
        → Admits (number_of result) (yoke_holds vs (yoke_tree rows.now y) (variable_at vs n).content) }
{
    if !is_filled(memory.states, n) {
        return Ok(());
    }
    let at = BODY_CELLS * n;
    let value = CurrentValue {
        cells: &memory.cells[at..at + BODY_CELLS],
        body: flat::taken(memory.bodies, n),
    };
    let given = eval_yoke(rows, memory, y, &value, &mut *stack);
    if !truth_of(given, Error::YokeExpected, stack)? {
        return Err(Error::YokeNotSatisfied);
    }
    Ok(())
}
