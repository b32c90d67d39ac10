// Whether a value satisfies a yoke, which is evaluated on the stack; and whether a variable takes a new one.
ghost use Rattle.std.specs.Prelude.{◌+◌, ◌*◌, ◌≤◌, length};
ghost use Rattle.lingua.specs.Faults.{number_of};
ghost use Rattle.lingua.specs.Numbers.{body_cells, expression_section};
ghost use Rattle.lingua.specs.Rows.{table_count};
ghost use Rattle.lingua.specs.Trees.{yoke_tree};
ghost use Rattle.erased_row.specs.Meaning.{ReadyYoke};
ghost use Rattle.erased_store.specs.Meaning.{AdmitsValue, HasChange, AdmitsYoke};

use decoder::rows::Rows;
use erased::yoke::eval_yoke;
use erased_row::answer::truth_of;
use lingua::errors::Error;
use lingua::sizes::BODY_CELLS;
use run::memory::Seen;
use run::words::is_filled;

// The yoke's error, or that it is not satisfied.
pub fn satisfies(
    rows: &Rows,
    layout: &[u16],
    memory: &Seen,
    y: usize,
    value: &[i64],
    stack: &mut [i64],
) -> Result<(), Error>
    requires ready_yoke { ReadyYoke rows.now layout.now memory.now.cells.now memory.now.states.now value.now (yoke_tree rows.now y) }
    requires y_le_count { y ≤ table_count rows.now expression_section }
    requires y_in_bounds { body_cells * (y + 1) ≤ length stack.old }
    ensures { AdmitsValue rows.now layout.now memory.now.cells.now memory.now.states.now value.now (yoke_tree rows.now y) (number_of result) }
{
    let x = eval_yoke(rows, layout, memory, y, value, &mut *stack);
    if truth_of(x, stack)? {
        Ok(())
    } else {
        Err(Error::YokeNotSatisfied)
    }
}

// A variable that is not filled takes any yoke; another's own cells are the current value, where they lie.
pub fn yoke_holds(
    rows: &Rows,
    layout: &[u16],
    memory: &Seen,
    n: usize,
    y: usize,
    stack: &mut [i64],
) -> Result<(), Error>
    requires has_change { HasChange rows.now layout.now memory.now.cells.now memory.now.states.now n (yoke_tree rows.now y) }
    requires y_le_count { y ≤ table_count rows.now expression_section }
    requires y_in_bounds { body_cells * (y + 1) ≤ length stack.old }
    ensures { AdmitsYoke rows.now layout.now memory.now.cells.now memory.now.states.now n (yoke_tree rows.now y) (number_of result) }
{
    if !is_filled(memory.states, n) {
        return Ok(());
    }
    let at = BODY_CELLS * n;
    let end = at + BODY_CELLS;
    satisfies(rows, layout, memory, y, &memory.cells[at..end], stack)
}
