// Simple values on the stack, one cell each: Booleans are 0 or 1.
ghost use Rattle.std.specs.Prelude.{◌≡◌, true, ◌<◌, length, get_or, pos};
ghost use Rattle.lingua.specs.Numbers.{body_cells};
ghost use Rattle.lingua.specs.Body.{Body, boolean, number, hundredths, is_quantity, is_simple};
ghost use Rattle.lingua.specs.Value.{Value, in_range, in_counts};
ghost use Rattle.lingua.specs.Operation.{negation, to_hundredths, to_number, less, equal};
ghost use Rattle.lingua.specs.Compute.{unary_value, binary_value};
ghost use Rattle.cells.specs.Stack.{first_place, second_place, Lies, Holds};

use lingua::sizes::BODY_CELLS;

pub fn negate(stack: &mut [i64])
    requires { 0 < length stack.old }
    ensures { (x : Value) → Lies stack.old first_place boolean x → Holds stack.new boolean (unary_value negation x) }
{
    let cell = stack[0];
    stack[0] = i64::from(cell == 0);
}

pub fn to_hundredths(stack: &mut [i64])
    requires stack_nonzero { 0 < length stack.old }
    requires pos_value { in_range (get_or stack.old first_place (pos 0)) ≡ true }
    ensures { (x : Value) → Lies stack.old first_place number x → Holds stack.new hundredths (unary_value to_hundredths x) }
{
    let cell = stack[0];
    let counted = arith::to_hundredths(cell);
    stack[0] = counted;
}

pub fn to_number(stack: &mut [i64])
    requires stack_nonzero { 0 < length stack.old }
    requires pos_value { in_counts (get_or stack.old first_place (pos 0)) ≡ true }
    ensures { (x : Value) → Lies stack.old first_place hundredths x → Holds stack.new number (unary_value to_number x) }
{
    let cell = stack[0];
    let part = arith::to_number(cell);
    stack[0] = part;
}

// Two numbers, or two counts of hundredths.
pub fn less(stack: &mut [i64])
    requires { body_cells < length stack.old }
    ensures { (b : Body) (x y : Value) → is_quantity b ≡ true → Lies stack.old first_place b x → Lies stack.old second_place b y
        → Holds stack.new boolean (binary_value less x y) }
{
    let first = stack[0];
    let second = stack[BODY_CELLS];
    stack[0] = i64::from(first < second);
}

// Two values of one simple body are equal exactly where their cells are.
pub fn equal(stack: &mut [i64])
    requires { body_cells < length stack.old }
    ensures { (b : Body) (x y : Value) → is_simple b ≡ true → Lies stack.old first_place b x → Lies stack.old second_place b y
        → Holds stack.new boolean (binary_value equal x y) }
{
    let first = stack[0];
    let second = stack[BODY_CELLS];
    stack[0] = i64::from(first == second);
}
