// A leaf of one cell, at once. Most second operands are such, and an evaluation's call costs more than the leaf: its cell goes to the stack's front
// without one. Whatever is not such a leaf is left to the evaluation.
ghost use Rattle.std.specs.Prelude.{◌+◌, ◌*◌, ◌<◌, ◌≤◌, length};
ghost use Rattle.lingua.specs.Numbers.{body_cells, expression_section};
ghost use Rattle.lingua.specs.Rows.{table_count};
ghost use Rattle.lingua.specs.Trees.{expression_tree};
ghost use Rattle.erased_row.specs.Meaning.{Ready, EvaluatesUnless};

use crate::layout::size_at;
use decoder::decode::ExpressionRow;
use decoder::rows::Rows;
use lingua::errors::Error;
use lingua::sizes::BODY_CELLS;
use profile::constants::constant_cell;
use profile::row::expression_row;
use run::memory::Seen;
use run::words::is_filled;

// What the expression of a row gives, if it is a leaf of one cell: that cell at the stack's front, or its error. Any other row gives none.
pub fn leaf(
    row: usize,
    rows: &Rows,
    layout: &[u16],
    memory: &Seen,
    current: &[i64],
    stack: &mut [i64],
) -> Option<Result<(), Error>>
    requires ready { Ready rows.now layout.now memory.now.cells.now memory.now.states.now current.now (expression_tree rows.now row) }
    requires row_lt_count { row < table_count rows.now expression_section }
    requires row_in_bounds { body_cells * (row + 2) ≤ length stack.old }
    ensures { EvaluatesUnless rows.now layout.now memory.now.cells.now memory.now.states.now current.now (expression_tree rows.now row) result stack.new }
{
    let says = expression_row(rows, row);
    match says {
        ExpressionRow::Constant(_) => {
            stack[0] = constant_cell(rows, row);
            Some(Ok(()))
        }
        ExpressionRow::Variable(n) => {
            if size_at(layout, row) != 1 {
                return None;
            }
            if !is_filled(memory.states, n) {
                return Some(Err(Error::NotFilled));
            }
            stack[0] = memory.cells[BODY_CELLS * n];
            Some(Ok(()))
        }
        ExpressionRow::Current => {
            if size_at(layout, row) == 1 {
                stack[0] = current[0];
                return Some(Ok(()));
            }
            None
        }
        _ => None,
    }
}
