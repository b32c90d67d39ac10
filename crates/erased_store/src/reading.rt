// Readings (document 01): a number from outside, in its variable's range or an overflow, is stored in it. It is one of the profile's own; the kind
// of its type row tells whether it is in hundredths, so that no body is needed.
ghost use Rattle.std.specs.Prelude.{◌≡◌, true, List, ◌+◌, ◌*◌, ◌<◌, ◌≤◌, length};
ghost use Rattle.lingua.specs.Faults.{number_of};
ghost use Rattle.lingua.specs.Numbers.{body_cells, declaration_section, expression_section};
ghost use Rattle.lingua.specs.Rows.{pair_count, table_count};
ghost use Rattle.lingua.specs.Refusal.{is_quantity_variable};
ghost use Rattle.lingua.specs.Store.{Variable, reading_taken};
ghost use Rattle.lingua.specs.Run.{Profile};
ghost use Rattle.run.specs.Lending.{SameSlices};
ghost use Rattle.run.specs.Reached.{Settles};
ghost use Rattle.run.specs.Memory.{reading};
ghost use Rattle.erased_row.specs.Meaning.{bare_in, Running, HasRunning};

use crate::store::store;
use arith::in_range;
use decoder::rows::Rows;
use lingua::errors::Error;
use profile::declarations::in_hundredths;
use run::memory::Memory;

pub fn take_reading(
    rows: &Rows,
    layout: &[u16],
    limits: &[i64],
    memory: &mut Memory,
    n: usize,
    z: i64,
    stack: &mut [i64],
) -> Result<(), Error>
    requires has_running { HasRunning rows.now layout.now limits.now (bare_in memory.old) (λ a. a ≡ 0) }
    requires n_bound { (n < pair_count rows.now declaration_section) × (is_quantity_variable rows.now n ≡ true) }
    requires count_in_bounds { body_cells * (table_count rows.now expression_section + 1) ≤ length stack.old }
    ensures settles { (p : Profile) (vs : List Variable) → Running p 0 rows.now layout.now limits.now (bare_in memory.old) vs
        → Settles (number_of result) (Running p 0 rows.now layout.now limits.now) (bare_in memory.old) (bare_in memory.new)
        (reading_taken vs (reading n z)) }
    ensures bodies_same { memory.new.bodies.now ≡ memory.old.bodies.now }
    ensures same_slices { SameSlices memory.old memory.new }
{
    let hundredths = in_hundredths(rows, n);
    if !in_range(hundredths, z) {
        return Err(Error::Overflow);
    }
    stack[0] = z;
    store(rows, layout, limits, memory, n, 1, stack)
}
