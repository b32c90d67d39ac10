// An operation on evaluated operands: the first error, or what the values' half gives with the layout table's numbers.
ghost use Rattle.std.specs.Prelude.{◌+◌, ◌*◌, ◌<◌, ◌≤◌, length, drop};
ghost use Rattle.lingua.specs.Numbers.{body_cells};
ghost use Rattle.lingua.specs.Faults.{number_of};
ghost use Rattle.lingua.specs.Outcome.{Result, ◌>>=◌ as bind};
ghost use Rattle.lingua.specs.Body.{Body};
ghost use Rattle.lingua.specs.Value.{Value};
ghost use Rattle.lingua.specs.Compute.{unary_value, binary_value};
ghost use Rattle.lingua.specs.Operations.{unary_meaning, binary_meaning};
ghost use Rattle.cells.specs.Stack.{Leaves};
ghost use Rattle.erased_row.specs.Meaning.{UnaryRow, HasUnary, BinaryRow, HasBinary};

use crate::layout::{second_at, size_at};
use lingua::errors::Error;
use lingua::operations::{BinaryOperation, UnaryOperation};

// The operand is that of row a, evaluated.
pub fn unary(
    o: UnaryOperation,
    operand: Result<(), Error>,
    layout: &[u16],
    row: usize,
    a: usize,
    stack: &mut [i64],
) -> Result<(), Error>
    requires has_unary { HasUnary layout.now (unary_meaning o) row a (number_of operand) stack.old }
    requires row_in_bounds { (2 * row + 1 < length layout.now) × (2 * a + 1 < length layout.now) }
    requires body_cells_in_bounds { body_cells ≤ length stack.old }
    ensures { (c b : Body) (p : Result Value) → UnaryRow layout.now (unary_meaning o) row a c b → Leaves (number_of operand) stack.old c p
        → Leaves (number_of result) stack.new b (bind p (λ x. unary_value (unary_meaning o) x)) }
{
    operand?;
    let size = size_at(layout, a);
    let result = size_at(layout, row);
    let offset = second_at(layout, row);
    cells::apply::unary(o, stack, size, result, offset)
}

// The operands are those of rows a and b, evaluated. The second lies 64 cells up the stack.
pub fn binary(
    o: BinaryOperation,
    first: Result<(), Error>,
    second: Result<(), Error>,
    layout: &[u16],
    row: usize,
    a: usize,
    b: usize,
    stack: &mut [i64],
) -> Result<(), Error>
    requires has_binary { HasBinary layout.now (binary_meaning o) row a b (number_of first) (number_of second) stack.old }
    requires row_in_bounds { (2 * row + 1 < length layout.now) × (2 * a + 1 < length layout.now) × (2 * b + 1 < length layout.now) }
    requires body_cells_in_bounds { body_cells + body_cells ≤ length stack.old }
    ensures { (c d g : Body) (p q : Result Value) → BinaryRow layout.now (binary_meaning o) row a b c d g → Leaves (number_of first) stack.old c p → Leaves (number_of second) (drop body_cells stack.old) d q
        → Leaves (number_of result) stack.new g (bind p (λ x. bind q (λ y. binary_value (binary_meaning o) x y))) }
{
    first?;
    second?;
    let size = size_at(layout, a);
    let others = size_at(layout, b);
    let place = second_at(layout, row);
    cells::apply::binary(o, stack, size, others, place)
}
