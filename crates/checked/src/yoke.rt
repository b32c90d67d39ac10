// Yokes, and expressions outside yokes.
ghost use Rattle.std.specs.Prelude.{List, ◌+◌, ◌*◌, ◌<◌, ◌≤◌, length};
ghost use Rattle.lingua.specs.Numbers.{body_cells, expression_section};
ghost use Rattle.lingua.specs.Rows.{table_count};
ghost use Rattle.lingua.specs.Value.{Composite};
ghost use Rattle.lingua.specs.Store.{Variable, contents};
ghost use Rattle.lingua.specs.Trees.{expression_tree, yoke_tree};
ghost use Rattle.lingua.specs.Evaluation.{eval as meaning, eval_yoke, eval_test, no_current};
ghost use Rattle.run.specs.Reached.{Tells};
ghost use Rattle.run.specs.Lending.{seen_in};
ghost use Rattle.checked_row.specs.Meaning.{World, HasWorld, Current, Ready, Gives};

use crate::eval::eval;
use body::make::simple;
use body::walk::BOOLEAN;
use checked_row::answer::{CurrentValue, Evaluated, boolean, truth_of};
use checked_row::sight::Sight;
use decoder::rows::Rows;
use lingua::errors::Error;
use run::memory::Seen;

// What yoke y gives on a value: 0 is the yoke that is always true, another is the expression of row y - 1.
pub fn eval_yoke(
    rows: &Rows,
    memory: &Seen,
    y: usize,
    current: &CurrentValue,
    stack: &mut [i64],
) -> Result<Evaluated, Error>
    requires ready { Ready rows.now (seen_in memory.now) current.now.cells.now current.now.body }
    requires y_le_count { y ≤ table_count rows.now expression_section }
    requires y_in_bounds { body_cells * (y + 1) ≤ length stack.old }
    ensures { (vs : List Variable) (x : Composite) → World rows.now (seen_in memory.now) vs → Current current.now.cells.now current.now.body x
        → Gives result stack.new (eval_yoke (yoke_tree rows.now y) (contents vs) x) }
{
    if y == 0 {
        return Ok(boolean(true, stack));
    }
    let sight = Sight {
        rows,
        memory,
        current,
    };
    eval(y - 1, &sight, stack)
}

// Outside yokes there is no current value, and a Boolean stands for it.
pub fn eval_plain(
    rows: &Rows,
    memory: &Seen,
    row: usize,
    stack: &mut [i64],
) -> Result<Evaluated, Error>
    requires has_world { HasWorld rows.now (seen_in memory.now) }
    requires row_lt_count { row < table_count rows.now expression_section }
    requires row_in_bounds { body_cells * (row + 2) ≤ length stack.old }
    ensures { (vs : List Variable) → World rows.now (seen_in memory.now) vs
        → Gives result stack.new (meaning (expression_tree rows.now row) (contents vs) no_current) }
{
    let cells = [0i64; 1];
    let none = CurrentValue {
        cells: &cells,
        body: simple(BOOLEAN),
    };
    let sight = Sight {
        rows,
        memory,
        current: &none,
    };
    eval(row, &sight, stack)
}

// A test's value.
pub fn eval_test(rows: &Rows, memory: &Seen, row: usize, stack: &mut [i64]) -> Result<bool, Error>
    requires has_world { HasWorld rows.now (seen_in memory.now) }
    requires row_lt_count { row < table_count rows.now expression_section }
    requires row_in_bounds { body_cells * (row + 2) ≤ length stack.old }
    ensures { (vs : List Variable) → World rows.now (seen_in memory.now) vs
        → Tells result (eval_test (expression_tree rows.now row) (contents vs)) }
{
    let x = eval_plain(rows, memory, row, &mut *stack);
    truth_of(x, Error::BooleanExpected, stack)
}
