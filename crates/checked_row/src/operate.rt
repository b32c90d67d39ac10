// An operation on evaluated operands: the first error, then the bodies' half, then the values' half.
ghost use Rattle.std.specs.Prelude.{◌+◌, ◌≤◌, length, drop};
ghost use Rattle.lingua.specs.Numbers.{body_cells};
ghost use Rattle.lingua.specs.Outcome.{Result as Outcome, ◌>>=◌ as bind};
ghost use Rattle.lingua.specs.Value.{Composite};
ghost use Rattle.lingua.specs.Operations.{unary_meaning, binary_meaning};
ghost use Rattle.lingua.specs.Evaluation.{apply_unary, apply_binary};
ghost use Rattle.checked_row.specs.Meaning.{Given, Gives};

use crate::answer::{Evaluated, simple_value};
use body_half::operation::{binary_half, simple_binary, simple_unary, unary_half};
use lingua::errors::Error;
use lingua::operations::{BinaryOperation, UnaryOperation};

pub fn unary(
    o: UnaryOperation,
    x: Result<Evaluated, Error>,
    stack: &mut [i64],
) -> Result<Evaluated, Error>
    requires given { Given x stack.old }
    requires body_cells_in_bounds { body_cells ≤ length stack.old }
    ensures { (p : Outcome Composite) → Gives x stack.old p → Gives result stack.new (bind p (apply_unary (unary_meaning o))) }
{
    let x = x?;
    if let Some(tag) = simple_unary(o, x.body) {
        cells::apply::unary(o, stack, x.cells, 1, 0)?;
        return Ok(simple_value(tag));
    }
    let half = unary_half(o, x.body)?;
    cells::apply::unary(o, stack, x.cells, half.cells, half.offset)?;
    let body = half.body;
    Ok(Evaluated {
        body,
        cells: half.cells,
    })
}

// The second operand lies 64 cells up the stack.
pub fn binary(
    o: BinaryOperation,
    x: Result<Evaluated, Error>,
    y: Result<Evaluated, Error>,
    stack: &mut [i64],
) -> Result<Evaluated, Error>
    requires given { Given x stack.old }
    requires given_2 { Given y (drop body_cells stack.old) }
    requires body_cells_in_bounds { body_cells + body_cells ≤ length stack.old }
    ensures { (p q : Outcome Composite) → Gives x stack.old p → Gives y (drop body_cells stack.old) q
        → Gives result stack.new (bind p (λ u. bind q (λ v. apply_binary (binary_meaning o) u v))) }
{
    let x = x?;
    let y = y?;
    if let Some(tag) = simple_binary(o, x.body, y.body) {
        cells::apply::binary(o, stack, x.cells, y.cells, 0)?;
        return Ok(simple_value(tag));
    }
    let half = binary_half(o, x.body, y.body)?;
    cells::apply::binary(o, stack, x.cells, y.cells, half.offset)?;
    let body = half.body;
    Ok(Evaluated {
        body,
        cells: half.cells,
    })
}
