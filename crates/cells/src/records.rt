// Records on the stack: an attribute selected, changed, added or removed, given where its cells begin.
ghost use Rattle.std.specs.Prelude.{◌≡◌, false, ℕ, ◌+◌, ◌≤◌, length};
ghost use Rattle.std.proofs.Math.Option.{some};
ghost use Rattle.lingua.specs.Numbers.{body_cells};
ghost use Rattle.lingua.specs.Body.{Body, Attributes, record_of, size, sizes, attribute_body, attribute_offset, insert_attribute, remove_attribute};
ghost use Rattle.lingua.specs.Value.{Value};
ghost use Rattle.lingua.specs.Operation.{select, change, expand, remove, present};
ghost use Rattle.lingua.specs.Compute.{unary_value, binary_value};
ghost use Rattle.cells.specs.Stack.{first_place, second_place, Lies, Holds};

use lingua::sizes::BODY_CELLS;

// The attribute's cells to the front.
pub fn select(stack: &mut [i64], offset: usize, width: usize)
    requires { offset + width ≤ length stack.old }
    ensures { (n : ℕ) (fs : Attributes) (d : Body) (x : Value) → attribute_body n fs ≡ some d → attribute_offset n fs ≡ offset → size d ≡ width
        → Lies stack.old first_place (record_of fs) x → Holds stack.new d (unary_value (select n) x) }
{
    stack.copy_within(offset..offset + width, 0);
}

// The second operand's cells in the place of the attribute's.
pub fn change(stack: &mut [i64], offset: usize, width: usize)
    requires width_bound { offset + width ≤ body_cells }
    requires width_in_bounds { body_cells + width ≤ length stack.old }
    ensures { (n : ℕ) (fs : Attributes) (d : Body) (x y : Value) → attribute_body n fs ≡ some d → attribute_offset n fs ≡ offset → size d ≡ width
        → Lies stack.old first_place (record_of fs) x → Lies stack.old second_place d y → Holds stack.new (record_of fs) (binary_value (change n) x y) }
{
    stack.copy_within(BODY_CELLS..BODY_CELLS + width, offset);
}

// The attributes above the new one move up by its size, and the second operand's cells go between.
pub fn expand(stack: &mut [i64], total: usize, offset: usize, width: usize)
    requires offset_le_total { offset ≤ total }
    requires width_bound { total + width ≤ body_cells }
    requires width_in_bounds { body_cells + width ≤ length stack.old }
    ensures { (n : ℕ) (fs : Attributes) (c : Body) (x y : Value) → present n fs ≡ false → attribute_offset n (insert_attribute n c fs) ≡ offset
        → sizes fs ≡ total → size c ≡ width → Lies stack.old first_place (record_of fs) x → Lies stack.old second_place c y
        → Holds stack.new (record_of (insert_attribute n c fs)) (binary_value (expand n) x y) }
{
    stack.copy_within(offset..total, offset + width);
    stack.copy_within(BODY_CELLS..BODY_CELLS + width, offset);
}

// The attributes above the removed one move down by its size.
pub fn remove(stack: &mut [i64], total: usize, offset: usize, width: usize)
    requires width_bound { offset + width ≤ total }
    requires total_in_bounds { total ≤ length stack.old }
    ensures { (n : ℕ) (fs : Attributes) (d : Body) (x : Value) → attribute_body n fs ≡ some d → attribute_offset n fs ≡ offset
        → sizes fs ≡ total → size d ≡ width → Lies stack.old first_place (record_of fs) x
        → Holds stack.new (record_of (remove_attribute n fs)) (unary_value (remove n) x) }
{
    stack.copy_within(offset + width..total, offset);
}
