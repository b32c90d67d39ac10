// A value of a variable's declared body: its yoke, its limit, and then the store. A value moves as many cells as it has, or all 64 with zeros
// behind its own.
ghost use Rattle.std.specs.Prelude.{◌≡◌, List, ℕ, ◌+◌, ◌*◌, ◌<◌, ◌≤◌, length};
ghost use Rattle.lingua.specs.Faults.{number_of};
ghost use Rattle.lingua.specs.Numbers.{body_cells, expression_section};
ghost use Rattle.lingua.specs.Value.{Composite};
ghost use Rattle.lingua.specs.Store.{Variable, assigned};
ghost use Rattle.lingua.specs.Rows.{table_count};
ghost use Rattle.lingua.specs.Run.{Profile};
ghost use Rattle.lingua.specs.Typing.{scope_bodies};
ghost use Rattle.run.specs.Lending.{SameSlices};
ghost use Rattle.run.specs.Reached.{Settles};
ghost use Rattle.erased_row.specs.Meaning.{bare_in, Running};
ghost use Rattle.erased_store.specs.Meaning.{ValueFor, Storable, StoreRoom, Satisfies};

use crate::holds::satisfies;
use decoder::rows::Rows;
use lingua::errors::Error;
use lingua::sizes::BODY_CELLS;
use run::copies::copy;
use run::limits::in_limits;
use run::memory::Memory;
use run::part::put;
use run::words::yoke_in;

// A value that satisfies its yoke. Only numbers have limits, so its first cell is asked.
pub fn store_within(
    limits: &[i64],
    memory: &mut Memory,
    n: usize,
    value: &[i64],
    width: usize,
) -> Result<(), Error>
    requires { StoreRoom limits.now memory.old.cells.now memory.old.states.now n width value.now }
    ensures settles { (p : Profile) (a : ℕ) (rows : List ℕ) (layout : List ℕ) (vs : List Variable) (x : Composite) → Running p a rows layout limits.now (bare_in memory.old) vs
        → n < length vs → ValueFor (scope_bodies p a n) width value.now x → Satisfies vs n x
        → Settles (number_of result) (Running p a rows layout limits.now) (bare_in memory.old) (bare_in memory.new) (assigned vs n x) }
    ensures bodies_same { memory.new.bodies.now ≡ memory.old.bodies.now }
    ensures same_slices { SameSlices memory.old memory.new }
{
    if !in_limits(limits, n, value[0]) {
        return Err(Error::YokeNotSatisfied);
    }
    put(memory.cells, memory.states, n, value, width);
    Ok(())
}

// The value lies on the stack. Only a yoke that is run asks for a copy: it is evaluated there. The hint draws it into the assignment, which
// what a yoke is shown would else keep it from: an assignment takes 14 instructions fewer.
#[inline]
pub fn store(
    rows: &Rows,
    layout: &[u16],
    limits: &[i64],
    memory: &mut Memory,
    n: usize,
    width: usize,
    stack: &mut [i64],
) -> Result<(), Error>
    requires storable { Storable rows.now layout.now limits.now (bare_in memory.old) n width stack.old }
    requires count_in_bounds { body_cells * (table_count rows.now expression_section + 1) ≤ length stack.old }
    ensures settles { (p : Profile) (a : ℕ) (vs : List Variable) (x : Composite) → Running p a rows.now layout.now limits.now (bare_in memory.old) vs
        → n < length vs → ValueFor (scope_bodies p a n) width stack.old x
        → Settles (number_of result) (Running p a rows.now layout.now limits.now) (bare_in memory.old) (bare_in memory.new) (assigned vs n x) }
    ensures bodies_same { memory.new.bodies.now ≡ memory.old.bodies.now }
    ensures same_slices { SameSlices memory.old memory.new }
{
    let yoke = yoke_in(memory, n);
    if yoke == 0 {
        return store_within(limits, memory, n, stack, width);
    }
    let mut value = [0i64; BODY_CELLS];
    copy(stack, 0, width, &mut value);
    satisfies(rows, layout, &memory.seen(), yoke, &value, stack)?;
    store_within(limits, memory, n, &value, width)
}
