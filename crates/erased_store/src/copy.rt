// Copies, between a call's variables and its caller's: variable n of one memory is assigned to variable m of another. Both have one body, so the
// variable's 64 cells are the value, and no size is asked. It is taken where it lies. Of the one memory's state words the flags alone are asked.
ghost use Rattle.std.specs.Prelude.{◌≡◌, List, ℕ, ◌+◌, ◌*◌, ◌<◌, ◌≤◌, ℤ, length};
ghost use Rattle.lingua.specs.Faults.{number_of};
ghost use Rattle.lingua.specs.Numbers.{body_cells, expression_section};
ghost use Rattle.lingua.specs.Store.{Variable, assigned, copied};
ghost use Rattle.lingua.specs.Rows.{table_count};
ghost use Rattle.lingua.specs.Run.{Profile};
ghost use Rattle.lingua.specs.Typing.{scope_bodies};
ghost use Rattle.run.specs.Lending.{SameSlices};
ghost use Rattle.run.specs.Reached.{lent, Settles};
ghost use Rattle.erased_row.specs.Meaning.{bare_in, Running};
ghost use Rattle.erased_store.specs.Meaning.{HasCopy};

use crate::holds::satisfies;
use crate::store::store_within;
use decoder::rows::Rows;
use lingua::errors::Error;
use lingua::sizes::BODY_CELLS;
use run::memory::{Memory, Seen};
use run::words::{is_filled, yoke_in};

pub fn copy(
    rows: &Rows,
    layout: &[u16],
    limits: &[i64],
    from: &Seen,
    n: usize,
    memory: &mut Memory,
    m: usize,
    stack: &mut [i64],
) -> Result<(), Error>
    requires has_copy { HasCopy rows.now layout.now from.now.cells.now from.now.states.now n limits.now (bare_in memory.old) m }
    requires count_in_bounds { body_cells * (table_count rows.now expression_section + 1) ≤ length stack.old }
    ensures settles { (p : Profile) (a b : ℕ) (theirs : List ℤ) (bodies : List ℕ) (vs ws : List Variable)
        → Running p a rows.now layout.now theirs (lent from.now.cells.now from.now.states.now bodies) vs → n < length vs
        → Running p b rows.now layout.now limits.now (bare_in memory.old) ws → m < length ws → scope_bodies p a n ≡ scope_bodies p b m
        → Settles (number_of result) (Running p b rows.now layout.now limits.now) (bare_in memory.old) (bare_in memory.new) (copied assigned vs n ws m) }
    ensures bodies_same { memory.new.bodies.now ≡ memory.old.bodies.now }
    ensures same_slices { SameSlices memory.old memory.new }
{
    if !is_filled(from.states, n) {
        return Err(Error::NotFilled);
    }
    let at = BODY_CELLS * n;
    let end = at + BODY_CELLS;
    let value = &from.cells[at..end];
    let yoke = yoke_in(memory, m);
    satisfies(rows, layout, &memory.seen(), yoke, value, stack)?;
    store_within(limits, memory, m, value, BODY_CELLS)
}
