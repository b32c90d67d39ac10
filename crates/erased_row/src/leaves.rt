// Expressions without operands: a constant, a variable, the current value. Each puts its cells at the stack's front.
ghost use Rattle.std.specs.Prelude.{◌≡◌, List, ◌+◌, ◌*◌, ◌<◌, ◌≤◌, length, get_or};
ghost use Rattle.lingua.specs.Numbers.{expression_section, body_cells};
ghost use Rattle.lingua.specs.Errors.{no_error, not_filled};
ghost use Rattle.lingua.specs.Faults.{number_of};
ghost use Rattle.lingua.specs.Outcome.{ok, or_fail};
ghost use Rattle.lingua.specs.Body.{Body, size};
ghost use Rattle.lingua.specs.Rows.{table_count};
ghost use Rattle.lingua.specs.Value.{Value};
ghost use Rattle.lingua.specs.Store.{Variable, contents};
ghost use Rattle.lingua.specs.Typing.{Bodies};
ghost use Rattle.lingua.specs.Erased.{values_of};
ghost use Rattle.profile.specs.Row.{constant_of};
ghost use Rattle.profile.specs.Constants.{ConstantRow};
ghost use Rattle.cells.specs.Stack.{Leaves};
ghost use Rattle.run.specs.Memory.{Memory as InMemory};
ghost use Rattle.erased_row.specs.Meaning.{Current, HasCurrent, HasVariable};

use crate::layout::size_at;
use decoder::rows::Rows;
use lingua::errors::Error;
use lingua::sizes::BODY_CELLS;
use profile::constants::constant_cell;
use run::copies::copy;
use run::memory::Seen;
use run::words::is_filled;

// A constant takes one cell.
pub fn constant(rows: &Rows, row: usize, stack: &mut [i64])
    requires row_lt_count { row < table_count rows.now expression_section }
    requires constant_row { ConstantRow rows.now row × (0 < length stack.old) }
    ensures { Leaves no_error stack.new (constant_of rows.now row).body (ok (constant_of rows.now row).value) }
{
    stack[0] = constant_cell(rows, row);
}

// The value of variable n, of as many cells as the layout table says. The flag is asked first: one behind the store's variables is not set.
pub fn fetch(
    layout: &[u16],
    memory: &Seen,
    row: usize,
    n: usize,
    stack: &mut [i64],
) -> Result<(), Error>
    requires has_variable { HasVariable memory.now.cells.now memory.now.states.now n (get_or layout.now (2 * row) 0) }
    requires row_in_bounds { 2 * row + 1 < length layout.now }
    requires body_cells_in_bounds { body_cells ≤ length stack.old }
    ensures { (vs : List Variable) (vars : Bodies) → InMemory memory.now.cells.now memory.now.states.now vs vars → get_or layout.now (2 * row) 0 ≡ size (vars n)
        → Leaves (number_of result) stack.new (vars n) (or_fail (values_of (contents vs) n) not_filled) }
{
    if !is_filled(memory.states, n) {
        return Err(Error::NotFilled);
    }
    let size = size_at(layout, row);
    copy(memory.cells, BODY_CELLS * n, size, stack);
    Ok(())
}

// The current value.
pub fn copied(layout: &[u16], row: usize, current: &[i64], stack: &mut [i64])
    requires has_current { HasCurrent current.now (get_or layout.now (2 * row) 0) }
    requires row_in_bounds { 2 * row + 1 < length layout.now }
    requires body_cells_in_bounds { body_cells ≤ length stack.old }
    ensures { (b : Body) (x : Value) → Current current.now b x → get_or layout.now (2 * row) 0 ≡ size b → Leaves no_error stack.new b (ok x) }
{
    let size = size_at(layout, row);
    copy(current, 0, size, stack);
}
