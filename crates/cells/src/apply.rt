// An operation by its name: the values' half, in place on the operand stack, driven by the cells of the operands and of the result and by
// the layout table's second number, as a body or the table gives them.
ghost use Rattle.std.specs.Prelude.{◌≡◌, Bool, ◌+◌, ◌<◌, ◌≤◌, length};
ghost use Rattle.lingua.specs.Numbers.{body_cells};
ghost use Rattle.lingua.specs.Body.{Body};
ghost use Rattle.lingua.specs.Outcome.{Result as Outcome};
ghost use Rattle.lingua.specs.Faults.{number_of};
ghost use Rattle.lingua.specs.Value.{Value, quantity_body};
ghost use Rattle.lingua.specs.Compute.{unary_value, binary_value};
ghost use Rattle.lingua.specs.Operations.{unary_meaning, binary_meaning};
ghost use Rattle.arith.specs.Told.{told_quantity};
ghost use Rattle.cells.specs.Stack.{Leaves};
ghost use Rattle.cells.specs.Operands.{Operand, HasOperand, Operands, HasOperands};
ghost use Rattle.cells.specs.Numeric.{Numeric};

use crate::{lists, records, simple, words};
use lingua::errors::Error;
use lingua::operations::{BinaryOperation, UnaryOperation};
use lingua::sizes::{BODY_CELLS, LIST_PLACES};

// A record of one attribute is made of the attribute's own cells.
pub fn unary(
    operation: UnaryOperation,
    stack: &mut [i64],
    cells: usize,
    res: usize,
    offset: usize,
) -> Result<(), Error>
    requires has_operand { HasOperand (unary_meaning operation) stack.old cells res offset }
    requires body_cells_in_bounds { body_cells ≤ length stack.old }
    ensures { (b d : Body) (x : Value) → Operand (unary_meaning operation) stack.old cells res offset b d x
        → Leaves (number_of result) stack.new d (unary_value (unary_meaning operation) x) }
{
    match operation {
        UnaryOperation::Negation => simple::negate(stack),
        UnaryOperation::MakeRecord(_) => {}
        UnaryOperation::Select(_) => records::select(stack, offset, res),
        UnaryOperation::MakeList => lists::make_list(stack, cells),
        UnaryOperation::Top => lists::top(stack, res)?,
        UnaryOperation::Pop => lists::pop(stack, (cells - 1) / LIST_PLACES)?,
        UnaryOperation::Remove(_) => records::remove(stack, cells, offset, cells - res),
        UnaryOperation::ToHundredths => simple::to_hundredths(stack),
        UnaryOperation::ToNumber => simple::to_number(stack),
    }
    Ok(())
}

// A number or a count to the first operand's place, or its error.
fn put(stack: &mut [i64], answer: Result<i64, Error>) -> Result<(), Error>
    requires { 0 < length stack.old }
    ensures { (h : Bool) (o : Outcome Value) → told_quantity h answer ≡ o → Numeric h o → Leaves (number_of result) stack.new (quantity_body h) o }
{
    stack[0] = answer?;
    Ok(())
}

// For arithmetic the second number says whether hundredths are counted.
pub fn binary(
    operation: BinaryOperation,
    stack: &mut [i64],
    cells: usize,
    others: usize,
    offset: usize,
) -> Result<(), Error>
    requires has_operands { HasOperands (binary_meaning operation) stack.old cells others offset }
    requires body_cells_in_bounds { body_cells + body_cells ≤ length stack.old }
    ensures { (b c d : Body) (x y : Value) → Operands (binary_meaning operation) stack.old cells others offset b c d x y
        → Leaves (number_of result) stack.new d (binary_value (binary_meaning operation) x y) }
{
    let x = stack[0];
    let y = stack[BODY_CELLS];
    let hundredths = offset == 1;
    match operation {
        BinaryOperation::Add => put(stack, arith::add(hundredths, x, y))?,
        BinaryOperation::Subtract => put(stack, arith::subtract(hundredths, x, y))?,
        BinaryOperation::Multiply => put(stack, arith::multiply(hundredths, x, y))?,
        BinaryOperation::Divide => put(stack, arith::divide(hundredths, x, y))?,
        BinaryOperation::Less => simple::less(stack),
        BinaryOperation::Equal => simple::equal(stack),
        BinaryOperation::Glue => words::glue(stack)?,
        BinaryOperation::Expand(_) => records::expand(stack, cells, offset, others),
        BinaryOperation::Change(_) => records::change(stack, offset, others),
        BinaryOperation::Push => lists::push(stack, others)?,
    }
    Ok(())
}
