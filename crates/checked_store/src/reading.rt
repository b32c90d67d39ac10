// Readings (document 01): a number from outside, in its variable's range or an overflow, is assigned to it. For a variable in hundredths it is
// a count.
ghost use Rattle.std.specs.Prelude.{List, ◌+◌, ◌*◌, ◌<◌, ◌≤◌, length};
ghost use Rattle.lingua.specs.Numbers.{body_cells, expression_section};
ghost use Rattle.lingua.specs.Rows.{table_count};
ghost use Rattle.lingua.specs.Faults.{number_of};
ghost use Rattle.lingua.specs.Store.{Variable, reading_taken};
ghost use Rattle.lingua.specs.Value.{quantity_body};
ghost use Rattle.body.specs.Encode.{Holds};
ghost use Rattle.run.specs.Lending.{lent_in, SameSlices};
ghost use Rattle.run.specs.Memory.{reading};
ghost use Rattle.checked_store.specs.Meaning.{Running, HasRunning, Assigns};

use crate::assign::assign;
use arith::in_range;
use body::make::simple;
use body::walk::{HUNDREDTHS, NUMBER};
use checked_row::answer::Evaluated;
use decoder::rows::Rows;
use lingua::errors::Error;
use lingua::sizes::BODY_BYTES;
use run::memory::Memory;

fn quantity_body(hundredths: bool) -> [u8; BODY_BYTES]
    ensures { Holds result (quantity_body hundredths) }
{
    if hundredths {
        return simple(HUNDREDTHS);
    }
    simple(NUMBER)
}

// A body tells what the variable takes: the present one's first byte.
pub fn take_reading(
    rows: &Rows,
    limits: &[i64],
    memory: &mut Memory,
    n: usize,
    z: i64,
    stack: &mut [i64],
) -> Result<(), Error>
    requires has_running { HasRunning rows.now limits.now (lent_in memory.old) n }
    requires count_in_bounds { body_cells * (table_count rows.now expression_section + 1) ≤ length stack.old }
    ensures assigns { (vs : List Variable) → Running rows.now limits.now (lent_in memory.old) vs → n < length vs
        → Assigns (number_of result) rows.now limits.now (lent_in memory.old) (lent_in memory.new) (reading_taken vs (reading n z)) }
    ensures same_slices { SameSlices memory.old memory.new }
{
    let hundredths = memory.bodies[BODY_BYTES * n] == HUNDREDTHS;
    if !in_range(hundredths, z) {
        return Err(Error::Overflow);
    }
    let body = quantity_body(hundredths);
    stack[0] = z;
    let x = Evaluated { body, cells: 1 };
    assign(rows, limits, memory, n, Ok(x), stack)
}
