// A new value's checks, in order: its yoke's error, whether its body is coherent with the variable's present one, the yoke's body, the yoke and
// the limits.
ghost use Rattle.std.specs.Prelude.{◌≡◌, List, ◌+◌, ◌*◌, ◌<◌, ◌≤◌, length};
ghost use Rattle.lingua.specs.Numbers.{body_cells, expression_section};
ghost use Rattle.lingua.specs.Rows.{table_count};
ghost use Rattle.lingua.specs.Value.{Composite, as_whole};
ghost use Rattle.lingua.specs.Expression.{always};
ghost use Rattle.lingua.specs.Faults.{number_of};
ghost use Rattle.lingua.specs.Store.{Variable, variable_at, admitted as checks};
ghost use Rattle.run.specs.Lending.{seen_in};
ghost use Rattle.run.specs.Memory.{Admits};
ghost use Rattle.checked_row.specs.Meaning.{Current, HasCurrent};
ghost use Rattle.checked_store.specs.Meaning.{Bounds, HasBounds, Running, Checkable};

use body::coherence::coherent;
use body::flat;
use body::walk::{HUNDREDTHS, NUMBER};
use checked::yoke::eval_yoke;
use checked_row::answer::{CurrentValue, truth_of};
use decoder::rows::Rows;
use lingua::errors::Error;
use run::limits::in_limits;
use run::memory::Seen;
use run::words::yoke_of;

// The cell of a number or of a count; for a value of another body 0 stands.
fn whole(value: &CurrentValue) -> i64
    requires { HasCurrent value.now.cells.now value.now.body }
    ensures { (x : Composite) → Current value.now.cells.now value.now.body x → result ≡ as_whole x.value }
{
    let tag = value.body[0];
    if tag == NUMBER || tag == HUNDREDTHS {
        return value.cells[0];
    }
    0
}

// Whether variable n, whose yoke is always true, may take a value of a body.
pub fn unyoked(memory: &Seen, limits: &[i64], n: usize, value: &CurrentValue) -> Result<(), Error>
    requires { HasBounds memory.now.bodies.now limits.now n value.now.cells.now value.now.body }
    ensures { (vs : List Variable) (v : Variable) (x : Composite) → Bounds memory.now.bodies.now limits.now n v → v.yoke ≡ always → Current value.now.cells.now value.now.body x
        → Admits (number_of result) (checks vs v x) }
{
    let own = flat::taken(memory.bodies, n);
    if !coherent(own, value.body) {
        return Err(Error::NoCoherence);
    }
    let z = whole(value);
    if !in_limits(limits, n, z) {
        return Err(Error::YokeNotSatisfied);
    }
    Ok(())
}

// Whether variable n may take a value of a body, which lies outside the stack: its yoke is evaluated there.
pub fn admitted(
    rows: &Rows,
    limits: &[i64],
    memory: &Seen,
    n: usize,
    value: &CurrentValue,
    stack: &mut [i64],
) -> Result<(), Error>
    requires checkable { Checkable rows.now limits.now (seen_in memory.now) n value.now.cells.now value.now.body }
    requires count_in_bounds { body_cells * (table_count rows.now expression_section + 1) ≤ length stack.old }
    ensures { (vs : List Variable) (x : Composite) → Running rows.now limits.now (seen_in memory.now) vs → n < length vs → Current value.now.cells.now value.now.body x
        → Admits (number_of result) (checks vs (variable_at vs n) x) }
{
    let yoke = yoke_of(memory.states, n);
    let given = eval_yoke(rows, memory, yoke, value, &mut *stack);
    given?;
    let own = flat::taken(memory.bodies, n);
    if !coherent(own, value.body) {
        return Err(Error::NoCoherence);
    }
    if !truth_of(given, Error::YokeExpected, stack)? {
        return Err(Error::YokeNotSatisfied);
    }
    let z = whole(value);
    if !in_limits(limits, n, z) {
        return Err(Error::YokeNotSatisfied);
    }
    Ok(())
}
