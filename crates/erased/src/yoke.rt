// Yokes, and expressions outside yokes.
ghost use Rattle.std.specs.Prelude.{◌+◌, ◌*◌, ◌<◌, ◌≤◌, length};
ghost use Rattle.lingua.specs.Numbers.{body_cells, expression_section};
ghost use Rattle.lingua.specs.Faults.{number_of};
ghost use Rattle.lingua.specs.Rows.{table_count};
ghost use Rattle.lingua.specs.Trees.{expression_tree, yoke_tree};
ghost use Rattle.erased_row.specs.Meaning.{ReadyYoke, EvaluatesYoke, ReadyPlain, EvaluatesPlain};

use crate::eval::eval;
use decoder::rows::Rows;
use erased_row::answer::put_truth;
use lingua::errors::Error;
use run::memory::Seen;

// What yoke y gives on a value: 0 is the yoke that is always true, another is the expression of row y - 1.
pub fn eval_yoke(
    rows: &Rows,
    layout: &[u16],
    memory: &Seen,
    y: usize,
    current: &[i64],
    stack: &mut [i64],
) -> Result<(), Error>
    requires ready_yoke { ReadyYoke rows.now layout.now memory.now.cells.now memory.now.states.now current.now (yoke_tree rows.now y) }
    requires y_le_count { y ≤ table_count rows.now expression_section }
    requires y_in_bounds { body_cells * (y + 1) ≤ length stack.old }
    ensures { EvaluatesYoke rows.now layout.now memory.now.cells.now memory.now.states.now current.now (yoke_tree rows.now y) (number_of result) stack.new }
{
    if y == 0 {
        put_truth(true, stack);
        return Ok(());
    }
    eval(y - 1, rows, layout, memory, current, stack)
}

// Outside yokes there is no current value, and a Boolean stands for it.
pub fn eval_plain(
    rows: &Rows,
    layout: &[u16],
    memory: &Seen,
    row: usize,
    stack: &mut [i64],
) -> Result<(), Error>
    requires ready_plain { ReadyPlain rows.now layout.now memory.now.cells.now memory.now.states.now (expression_tree rows.now row) }
    requires row_lt_count { row < table_count rows.now expression_section }
    requires row_in_bounds { body_cells * (row + 2) ≤ length stack.old }
    ensures { EvaluatesPlain rows.now layout.now memory.now.cells.now memory.now.states.now (expression_tree rows.now row) (number_of result) stack.new }
{
    let current = [0i64; 1];
    eval(row, rows, layout, memory, &current, stack)
}
