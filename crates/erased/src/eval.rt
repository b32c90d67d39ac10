// Evaluation descends the expression tree, the row number falling at each call. A value's cells lie at the stack's front;
// the second operand of two is evaluated 64 cells further up, or put there at once if it is a leaf of one cell. How many cells a
// value takes is read from the layout table.
ghost use Rattle.std.specs.Prelude.{◌+◌, ◌*◌, ◌<◌, ◌≤◌, length};
ghost use Rattle.lingua.specs.Numbers.{body_cells, expression_section};
ghost use Rattle.lingua.specs.Faults.{number_of};
ghost use Rattle.lingua.specs.Rows.{table_count};
ghost use Rattle.lingua.specs.Trees.{expression_tree};
ghost use Rattle.lingua.specs.Expression.{lazy as lazyTree, choice as choiceTree, all_list};
ghost use Rattle.decoder.specs.Decoded.{connective};
ghost use Rattle.erased_row.specs.Meaning.{Ready, Evaluates};

use decoder::decode::ExpressionRow;
use decoder::rows::Rows;
use erased_row::answer::truth_of;
use erased_row::layout::second_at;
use erased_row::leaves::{constant, copied, fetch};
use erased_row::operate::{binary, unary};
use erased_row::quick::leaf;
use erased_row::tally::{concluded, tallied};
use lingua::errors::Error;
use lingua::sizes::BODY_CELLS;
use profile::row::expression_row;
use run::memory::Seen;

// What the expression of a row gives on a current value: a value at the stack's front, or its error.
#[cycle(all_choice_eval_lazy)]
pub fn eval(
    row: usize,
    rows: &Rows,
    layout: &[u16],
    memory: &Seen,
    current: &[i64],
    stack: &mut [i64],
) -> Result<(), Error>
    requires ready { Ready rows.now layout.now memory.now.cells.now memory.now.states.now current.now (expression_tree rows.now row) }
    requires row_lt_count { row < table_count rows.now expression_section }
    requires row_in_bounds { body_cells * (row + 2) ≤ length stack.old }
    ensures { Evaluates rows.now layout.now memory.now.cells.now memory.now.states.now current.now (expression_tree rows.now row) (number_of result) stack.new }
{
    let says = expression_row(rows, row);
    match says {
        ExpressionRow::Constant(_) => {
            constant(rows, row, stack);
            Ok(())
        }
        ExpressionRow::Variable(n) => fetch(layout, memory, row, n, stack),
        ExpressionRow::Current => {
            copied(layout, row, current, stack);
            Ok(())
        }
        ExpressionRow::Unary(o, a) => {
            let x = eval(a, rows, layout, memory, current, &mut *stack);
            unary(o, x, layout, row, a, stack)
        }
        ExpressionRow::Binary(o, a, b) => {
            let x = eval(a, rows, layout, memory, current, &mut *stack);
            let above = &mut stack[BODY_CELLS..];
            let y = match leaf(b, rows, layout, memory, current, &mut *above) {
                Some(told) => told,
                None => eval(b, rows, layout, memory, current, above),
            };
            binary(o, x, y, layout, row, a, b, stack)
        }
        ExpressionRow::Lazy(settling, a, b) => {
            lazy(row, rows, layout, memory, settling, a, b, current, stack)
        }
        ExpressionRow::Choice(a, b, d) => {
            choice(row, rows, layout, memory, a, b, d, current, stack)
        }
        ExpressionRow::AllList(a) => { all(row, rows, layout, memory, a, current, stack) }
    }
}

// Kinds 11 and 12: the second operand is evaluated unless the first settles the result.
#[cycle(all_choice_eval_lazy)]
fn lazy(
    row: usize,
    rows: &Rows,
    layout: &[u16],
    memory: &Seen,
    settling: bool,
    a: usize,
    b: usize,
    current: &[i64],
    stack: &mut [i64],
) -> Result<(), Error>
    requires ready { Ready rows.now layout.now memory.now.cells.now memory.now.states.now current.now (lazyTree row (connective settling) (expression_tree rows.now a) (expression_tree rows.now b)) }
    requires a_lt_row { (a < row) × (b < row) × (row < table_count rows.now expression_section) }
    requires row_in_bounds { body_cells * (row + 2) ≤ length stack.old }
    ensures { Evaluates rows.now layout.now memory.now.cells.now memory.now.states.now current.now
        (lazyTree row (connective settling) (expression_tree rows.now a) (expression_tree rows.now b)) (number_of result) stack.new }
{
    let x = eval(a, rows, layout, memory, current, &mut *stack);
    let first = truth_of(x, stack)?;
    if first == settling {
        return Ok(());
    }
    eval(b, rows, layout, memory, current, stack)
}

// Kind 15: the test, then one of the branches.
#[cycle(all_choice_eval_lazy)]
fn choice(
    row: usize,
    rows: &Rows,
    layout: &[u16],
    memory: &Seen,
    test: usize,
    a: usize,
    b: usize,
    current: &[i64],
    stack: &mut [i64],
) -> Result<(), Error>
    requires ready { Ready rows.now layout.now memory.now.cells.now memory.now.states.now current.now (choiceTree row (expression_tree rows.now test) (expression_tree rows.now a) (expression_tree rows.now b)) }
    requires test_lt_row { (test < row) × (a < row) × (b < row) × (row < table_count rows.now expression_section) }
    requires row_in_bounds { body_cells * (row + 2) ≤ length stack.old }
    ensures { Evaluates rows.now layout.now memory.now.cells.now memory.now.states.now current.now
        (choiceTree row (expression_tree rows.now test) (expression_tree rows.now a) (expression_tree rows.now b)) (number_of result) stack.new }
{
    let x = eval(test, rows, layout, memory, current, &mut *stack);
    if truth_of(x, stack)? {
        return eval(a, rows, layout, memory, current, stack);
    }
    eval(b, rows, layout, memory, current, stack)
}

// Kind 25: the inner yoke on each element of the current value, all of them, at their places in the list.
#[cycle(all_choice_eval_lazy)]
fn all(
    row: usize,
    rows: &Rows,
    layout: &[u16],
    memory: &Seen,
    a: usize,
    current: &[i64],
    stack: &mut [i64],
) -> Result<(), Error>
    requires ready { Ready rows.now layout.now memory.now.cells.now memory.now.states.now current.now (all_list row (expression_tree rows.now a)) }
    requires a_lt_row { (a < row) × (row < table_count rows.now expression_section) }
    requires row_in_bounds { body_cells * (row + 2) ≤ length stack.old }
    ensures { Evaluates rows.now layout.now memory.now.cells.now memory.now.states.now current.now (all_list row (expression_tree rows.now a)) (number_of result) stack.new }
{
    let width = second_at(layout, row);
    let n = current[0] as usize;
    let mut seen = Ok(true);
    for i in 0..n {
        let at = 1 + i * width;
        let x = eval(
            a,
            rows,
            layout,
            memory,
            &current[at..at + width],
            &mut *stack,
        );
        seen = tallied(seen, x, stack);
    }
    concluded(seen, stack)
}
