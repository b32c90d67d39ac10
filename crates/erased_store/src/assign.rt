// Assignment: the expression's value on the stack, of as many cells as the layout table says, is stored. Its row is of the scope that the
// store is of.
ghost use Rattle.std.specs.Prelude.{◌≡◌, List, ℕ, ◌+◌, ◌*◌, ◌<◌, ◌≤◌, length};
ghost use Rattle.lingua.specs.Faults.{number_of};
ghost use Rattle.lingua.specs.Numbers.{body_cells, expression_section};
ghost use Rattle.lingua.specs.Outcome.{◌>>=◌ as bind};
ghost use Rattle.lingua.specs.Evaluation.{eval as meaning, no_current};
ghost use Rattle.lingua.specs.Store.{Variable, contents, assigned};
ghost use Rattle.lingua.specs.Rows.{table_count};
ghost use Rattle.lingua.specs.Run.{Profile};
ghost use Rattle.lingua.specs.Trees.{expression_tree};
ghost use Rattle.run.specs.Lending.{SameSlices};
ghost use Rattle.run.specs.Reached.{Settles};
ghost use Rattle.erased_row.specs.Meaning.{bare_in, Running, HasRunning};
ghost use Rattle.erased_store.specs.Meaning.{AssignRow};

use crate::store::store;
use decoder::rows::Rows;
use erased::yoke::eval_plain;
use erased_row::layout::size_at;
use lingua::errors::Error;
use run::memory::Memory;

pub fn assign(
    rows: &Rows,
    layout: &[u16],
    limits: &[i64],
    memory: &mut Memory,
    n: usize,
    e: usize,
    stack: &mut [i64],
) -> Result<(), Error>
    requires has_running { HasRunning rows.now layout.now limits.now (bare_in memory.old) (λ a. AssignRow rows.now a n e) }
    requires e_lt_count { e < table_count rows.now expression_section }
    requires count_in_bounds { body_cells * (table_count rows.now expression_section + 1) ≤ length stack.old }
    ensures settles { (p : Profile) (a : ℕ) (vs : List Variable) → Running p a rows.now layout.now limits.now (bare_in memory.old) vs → AssignRow rows.now a n e
        → Settles (number_of result) (Running p a rows.now layout.now limits.now) (bare_in memory.old) (bare_in memory.new)
        (bind (meaning (expression_tree rows.now e) (contents vs) no_current) (assigned vs n)) }
    ensures bodies_same { memory.new.bodies.now ≡ memory.old.bodies.now }
    ensures same_slices { SameSlices memory.old memory.new }
{
    eval_plain(rows, layout, &memory.seen(), e, &mut *stack)?;
    let width = size_at(layout, e);
    store(rows, layout, limits, memory, n, width, stack)
}
