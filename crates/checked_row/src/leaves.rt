// Expressions without operands: a constant, a variable, the current value. Each puts its cells at the stack's front.
ghost use Rattle.std.specs.Prelude.{List, ◌<◌, ◌≤◌, length, Ok};
ghost use Rattle.lingua.specs.Numbers.{expression_section, body_cells};
ghost use Rattle.lingua.specs.Rows.{table_count};
ghost use Rattle.lingua.specs.Errors.{not_filled};
ghost use Rattle.lingua.specs.Outcome.{ok, or_fail};
ghost use Rattle.lingua.specs.Value.{Composite};
ghost use Rattle.lingua.specs.Store.{Variable, contents};
ghost use Rattle.profile.specs.Row.{constant_of};
ghost use Rattle.profile.specs.Constants.{ConstantRow};
ghost use Rattle.checked_row.specs.Meaning.{Stored, HasStored, Current, HasCurrent, Gives};

use crate::answer::{CurrentValue, Evaluated};
use body::flat;
use body::walk::measure_body;
use decoder::rows::Rows;
use lingua::errors::Error;
use lingua::sizes::BODY_CELLS;
use profile::constants::{constant_body, constant_cell};
use run::copies::copy;
use run::memory::Seen;
use run::words::is_filled;

// A constant takes one cell.
pub fn constant(rows: &Rows, r: usize, stack: &mut [i64]) -> Evaluated
    requires r_lt_count { r < table_count rows.now expression_section }
    requires constant_row { ConstantRow rows.now r × (0 < length stack.old) }
    ensures { Gives (Ok result) stack.new (ok (constant_of rows.now r)) }
{
    let body = constant_body(rows, r);
    stack[0] = constant_cell(rows, r);
    Evaluated { body, cells: 1 }
}

// The value of variable n, which has its present body. A variable behind the store's is not filled.
pub fn fetch(memory: &Seen, n: usize, stack: &mut [i64]) -> Result<Evaluated, Error>
    requires has_stored { HasStored memory.now.bodies.now memory.now.cells.now memory.now.states.now n }
    requires body_cells_in_bounds { body_cells ≤ length stack.old }
    ensures { (vs : List Variable) → Stored memory.now.bodies.now memory.now.cells.now memory.now.states.now vs
        → Gives result stack.new (or_fail (contents vs n) not_filled) }
{
    if !is_filled(memory.states, n) {
        return Err(Error::NotFilled);
    }
    let body = flat::taken(memory.bodies, n);
    let m = measure_body(body);
    copy(memory.cells, BODY_CELLS * n, m.cells, stack);
    Ok(Evaluated {
        body,
        cells: m.cells,
    })
}

pub fn copied(current: &CurrentValue, stack: &mut [i64]) -> Evaluated
    requires has_current { HasCurrent current.now.cells.now current.now.body }
    requires body_cells_in_bounds { body_cells ≤ length stack.old }
    ensures { (x : Composite) → Current current.now.cells.now current.now.body x → Gives (Ok result) stack.new (ok x) }
{
    let body = current.body;
    let m = measure_body(body);
    copy(current.cells, 0, m.cells, stack);
    Evaluated {
        body,
        cells: m.cells,
    }
}
