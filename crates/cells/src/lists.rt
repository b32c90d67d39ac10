// Lists on the stack: the length first, then eight places of `width` cells each, zeros in the empty ones.
ghost use Rattle.std.specs.Prelude.{◌≡◌, ◌+◌, ◌*◌, ◌≤◌, length};
ghost use Rattle.lingua.specs.Numbers.{list_places, body_cells};
ghost use Rattle.lingua.specs.Body.{Body, list_of, size};
ghost use Rattle.lingua.specs.Value.{Value};
ghost use Rattle.lingua.specs.Faults.{number_of};
ghost use Rattle.lingua.specs.Operation.{make_list, top, pop, push};
ghost use Rattle.lingua.specs.Compute.{unary_value, binary_value};
ghost use Rattle.cells.specs.Stack.{first_place, second_place, Lies, Holds, Leaves, Counted};

use crate::parts;
use lingua::errors::Error;
use lingua::sizes::{BODY_CELLS, LIST_PLACES};

// The value one cell up, as the first element; zeros in the other places.
pub fn make_list(stack: &mut [i64], width: usize)
    requires width_bound { 1 + list_places * width ≤ body_cells }
    requires body_cells_in_bounds { body_cells ≤ length stack.old }
    ensures { (b : Body) (x : Value) → size b ≡ width → Lies stack.old first_place b x → Holds stack.new (list_of b) (unary_value make_list x) }
{
    stack.copy_within(..width, 1);
    parts::clear(stack, 1 + width, (LIST_PLACES - 1) * width);
    stack[0] = 1;
}

// The second operand to the first free place.
pub fn push(stack: &mut [i64], width: usize) -> Result<(), Error>
    requires counted { Counted stack.old width }
    requires width_in_bounds { body_cells + width ≤ length stack.old }
    ensures { (b : Body) (x y : Value) → size b ≡ width → Lies stack.old first_place (list_of b) x → Lies stack.old second_place b y
        → Leaves (number_of result) stack.new (list_of b) (binary_value push x y) }
{
    let count = stack[0] as usize;
    if LIST_PLACES <= count {
        return Err(Error::ListFull);
    }
    stack.copy_within(BODY_CELLS..BODY_CELLS + width, 1 + count * width);
    stack[0] = (count + 1) as i64;
    Ok(())
}

// The last element to the front.
pub fn top(stack: &mut [i64], width: usize) -> Result<(), Error>
    requires counted { Counted stack.old width }
    requires body_cells_in_bounds { body_cells ≤ length stack.old }
    ensures { (b : Body) (x : Value) → size b ≡ width → Lies stack.old first_place (list_of b) x → Leaves (number_of result) stack.new b (unary_value top x) }
{
    let count = stack[0] as usize;
    if count == 0 {
        return Err(Error::ListEmpty);
    }
    let last = 1 + (count - 1) * width;
    stack.copy_within(last..last + width, 0);
    Ok(())
}

// The list without its last element, whose place becomes zeros.
pub fn pop(stack: &mut [i64], width: usize) -> Result<(), Error>
    requires counted { Counted stack.old width }
    requires body_cells_in_bounds { body_cells ≤ length stack.old }
    ensures { (b : Body) (x : Value) → size b ≡ width → Lies stack.old first_place (list_of b) x → Leaves (number_of result) stack.new (list_of b) (unary_value pop x) }
{
    let count = stack[0] as usize;
    if count == 0 {
        return Err(Error::ListEmpty);
    }
    let last = count - 1;
    parts::clear(stack, 1 + last * width, width);
    stack[0] = last as i64;
    Ok(())
}
