// Assignment: the new value's checks, and then the store.
ghost use Rattle.std.specs.Prelude.{List, ◌+◌, ◌*◌, ◌<◌, ◌≤◌, length};
ghost use Rattle.lingua.specs.Numbers.{body_cells, expression_section};
ghost use Rattle.lingua.specs.Rows.{table_count};
ghost use Rattle.lingua.specs.Outcome.{Result as Outcome, ◌>>=◌ as bind};
ghost use Rattle.lingua.specs.Value.{Composite};
ghost use Rattle.lingua.specs.Faults.{number_of};
ghost use Rattle.lingua.specs.Store.{Variable, assigned};
ghost use Rattle.run.specs.Lending.{lent_in, SameSlices};
ghost use Rattle.checked_row.specs.Meaning.{Gives};
ghost use Rattle.checked_store.specs.Meaning.{Running, Assignable, Assigns};

use crate::admit::{admitted, unyoked};
use crate::keep::keep;
use checked_row::answer::{CurrentValue, Evaluated};
use decoder::rows::Rows;
use lingua::errors::Error;
use lingua::sizes::BODY_CELLS;
use run::copies::copy;
use run::memory::Memory;
use run::words::yoke_in;

// Variable n takes an evaluated value, which lies on the stack, once it is admitted; an error leaves the store as it was. Only a yoke that is
// run asks for a copy: it is evaluated on the stack.
pub fn assign(
    rows: &Rows,
    limits: &[i64],
    memory: &mut Memory,
    n: usize,
    x: Result<Evaluated, Error>,
    stack: &mut [i64],
) -> Result<(), Error>
    requires assignable { Assignable rows.now limits.now (lent_in memory.old) n x stack.old }
    requires count_in_bounds { body_cells * (table_count rows.now expression_section + 1) ≤ length stack.old }
    ensures assigns { (vs : List Variable) (o : Outcome Composite) → Running rows.now limits.now (lent_in memory.old) vs → n < length vs → Gives x stack.old o
        → Assigns (number_of result) rows.now limits.now (lent_in memory.old) (lent_in memory.new) (bind o (assigned vs n)) }
    ensures same_slices { SameSlices memory.old memory.new }
{
    let x = x?;
    let body = x.body;
    if yoke_in(memory, n) == 0 {
        let here = CurrentValue { cells: stack, body };
        unyoked(&memory.seen(), limits, n, &here)?;
        keep(memory, n, &here, x.cells);
        return Ok(());
    }
    let mut value = [0i64; BODY_CELLS];
    copy(stack, 0, x.cells, &mut value);
    let aside = CurrentValue {
        cells: &value,
        body,
    };
    admitted(rows, limits, &memory.seen(), n, &aside, stack)?;
    keep(memory, n, &aside, x.cells);
    Ok(())
}
