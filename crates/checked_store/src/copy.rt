// Copies between a call's variables and its caller's, which lie in memory apart.
ghost use Rattle.std.specs.Prelude.{List, ◌+◌, ◌*◌, ◌<◌, ◌≤◌, length};
ghost use Rattle.lingua.specs.Numbers.{body_cells, expression_section};
ghost use Rattle.lingua.specs.Rows.{table_count};
ghost use Rattle.lingua.specs.Faults.{number_of};
ghost use Rattle.lingua.specs.Store.{Variable, assigned, copied};
ghost use Rattle.run.specs.Lending.{lent_in, SameSlices};
ghost use Rattle.checked_row.specs.Meaning.{Stored, HasStored};
ghost use Rattle.checked_store.specs.Meaning.{Running, HasRunning, Assigns};

use crate::assign::assign;
use checked_row::leaves::fetch;
use decoder::rows::Rows;
use lingua::errors::Error;
use run::memory::{Memory, Seen};

// Variable n of one memory is assigned to variable m of another: it is read as an expression's leaf reads it, and takes every check that an
// assignment has.
pub fn copy(
    rows: &Rows,
    limits: &[i64],
    from: &Seen,
    n: usize,
    memory: &mut Memory,
    m: usize,
    stack: &mut [i64],
) -> Result<(), Error>
    requires has_stored { HasStored from.now.bodies.now from.now.cells.now from.now.states.now n }
    requires has_running { HasRunning rows.now limits.now (lent_in memory.old) m }
    requires count_in_bounds { body_cells * (table_count rows.now expression_section + 1) ≤ length stack.old }
    ensures assigns { (vs ws : List Variable) → Stored from.now.bodies.now from.now.cells.now from.now.states.now vs
        → Running rows.now limits.now (lent_in memory.old) ws → m < length ws
        → Assigns (number_of result) rows.now limits.now (lent_in memory.old) (lent_in memory.new) (copied assigned vs n ws m) }
    ensures same_slices { SameSlices memory.old memory.new }
{
    let x = fetch(from, n, &mut *stack);
    assign(rows, limits, memory, m, x, stack)
}
