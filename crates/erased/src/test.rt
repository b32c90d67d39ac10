// A test's value: an expression outside yokes, of which the type check found a Boolean. Its row is of the scope that the store is of.
ghost use Rattle.std.specs.Prelude.{List, ℕ, ◌+◌, ◌*◌, ◌<◌, ◌≤◌, ℤ, length};
ghost use Rattle.lingua.specs.Numbers.{body_cells, expression_section};
ghost use Rattle.lingua.specs.Store.{Variable, contents};
ghost use Rattle.lingua.specs.Rows.{table_count};
ghost use Rattle.lingua.specs.Run.{Profile};
ghost use Rattle.lingua.specs.Evaluation.{eval_test};
ghost use Rattle.lingua.specs.Trees.{expression_tree};
ghost use Rattle.run.specs.Reached.{Tells};
ghost use Rattle.erased_row.specs.Meaning.{bare_seen, Running, HasStore, TestRow};

use crate::yoke::eval_plain;
use decoder::rows::Rows;
use erased_row::answer::truth_of;
use lingua::errors::Error;
use run::memory::Seen;

pub fn test(
    rows: &Rows,
    layout: &[u16],
    memory: &Seen,
    e: usize,
    stack: &mut [i64],
) -> Result<bool, Error>
    requires has_store { HasStore rows.now layout.now (bare_seen memory.now) (λ a. TestRow rows.now a e) }
    requires e_lt_count { e < table_count rows.now expression_section }
    requires count_in_bounds { body_cells * (table_count rows.now expression_section + 1) ≤ length stack.old }
    ensures { (p : Profile) (a : ℕ) (limits : List ℤ) (vs : List Variable) → Running p a rows.now layout.now limits (bare_seen memory.now) vs → TestRow rows.now a e
        → Tells result (eval_test (expression_tree rows.now e) (contents vs)) }
{
    let x = eval_plain(rows, layout, memory, e, &mut *stack);
    truth_of(x, stack)
}
