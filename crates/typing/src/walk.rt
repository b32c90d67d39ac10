// The check of an expression, down its tree: operands are lower rows, so the row number falls at each call. It goes on behind a
// fault, so that every row is gone through once. A row that has a body is noted in the layout table, after its operands. Each kind of row has
// a frame of its own, and so has what comes after the operands: drawn into one function they would all lie on the stack at every level of a tree.
ghost use Rattle.std.proofs.Math.Option.{Option};
ghost use Rattle.lingua.specs.Body.{Body};
ghost use Rattle.lingua.specs.Expression.{Connective, unary, binary, lazy, choice, all_list};
ghost use Rattle.lingua.specs.Operations.{unary_meaning, binary_meaning};
ghost use Rattle.lingua.specs.Typing.{check};
ghost use Rattle.lingua.specs.Trees.{expression_tree};
ghost use Rattle.typing.specs.Check.{Asked, Operand, HoldsIf, Gives, declared_bodies};

use crate::findings::{Found, elements, fault, own_rule, together};
use crate::leaves::{note_current, note_row, variable_body};
use body::parts::same;
use body::walk::measure_body;
use body_half::operation::{binary_half, unary_half};
use body_half::unary::is_boolean;
use decoder::decode::ExpressionRow as Row;
use decoder::rows::Rows;
use decoder::tables::Table;
use lingua::errors::Error;
use lingua::operations::{BinaryOperation, UnaryOperation};
use lingua::sizes::BODY_BYTES;
use profile::constants::constant_body;
use profile::row::expression_row;

// What the check of a row reads: the rows, the table of the variables that they name, and the bodies of the type rows.
#[derive(Clone, Copy)]
pub struct Scope<'a> {
    pub rows: &'a Rows<'a>,
    pub variables: Table,
    pub bodies: &'a [u8],
}

// What is found of an expression row. The current value has the body `current`, or none.
#[cycle(all_list_binary_check_choice_lazy_unary)]
pub fn check(
    row: usize,
    scope: &Scope,
    current: Option<[u8; BODY_BYTES]>,
    layout: &mut [u16],
) -> Found<[u8; BODY_BYTES]>
    requires { Asked row scope.now current layout.old }
    ensures { (b : Option Body) → HoldsIf current b → Gives result layout.old layout.new (check (expression_tree scope.now.rows.now row) (declared_bodies scope.now) b) }
{
    let rows = scope.rows;
    let e = expression_row(rows, row);
    match e {
        Row::Constant(_) => {
            let body = constant_body(rows, row);
            note_row(row, body, 0, layout);
            Ok(body)
        }
        Row::Variable(n) => {
            let body = variable_body(rows, scope.variables, scope.bodies, n);
            note_row(row, body, 0, layout);
            Ok(body)
        }
        Row::Current => note_current(row, current, layout),
        Row::Unary(o, a) => unary(row, scope, o, a, current, layout),
        Row::Binary(o, a, b) => binary(row, scope, o, a, b, current, layout),
        Row::Lazy(_, a, b) => lazy(row, scope, a, b, current, layout),
        Row::Choice(a, b, c) => choice(row, scope, a, b, c, current, layout),
        Row::AllList(a) => all_list(row, scope, a, current, layout),
    }
}

// The operand, then the row's own half on bodies.
#[cycle(all_list_binary_check_choice_lazy_unary)]
#[inline(never)]
fn unary(
    row: usize,
    scope: &Scope,
    o: UnaryOperation,
    a: usize,
    current: Option<[u8; BODY_BYTES]>,
    layout: &mut [u16],
) -> Found<[u8; BODY_BYTES]>
    requires asked { Asked row scope.now current layout.old }
    requires operand { Operand scope.now row a }
    ensures { (b : Option Body) → HoldsIf current b → Gives result layout.old layout.new (check (unary row (unary_meaning o) (expression_tree scope.now.rows.now a)) (declared_bodies scope.now) b) }
{
    let x = check(a, scope, current, layout)?;
    let h = own_rule(unary_half(o, x), row)?;
    note_row(row, h.body, h.offset, layout);
    Ok(h.body)
}

// Both operands, then the row's own half on bodies.
#[cycle(all_list_binary_check_choice_lazy_unary)]
#[inline(never)]
fn binary(
    row: usize,
    scope: &Scope,
    o: BinaryOperation,
    a: usize,
    b: usize,
    current: Option<[u8; BODY_BYTES]>,
    layout: &mut [u16],
) -> Found<[u8; BODY_BYTES]>
    requires asked { Asked row scope.now current layout.old }
    requires operand { Operand scope.now row a × Operand scope.now row b }
    ensures { (d : Option Body) → HoldsIf current d → Gives result layout.old layout.new (check (binary row (binary_meaning o) (expression_tree scope.now.rows.now a) (expression_tree scope.now.rows.now b)) (declared_bodies scope.now) d) }
{
    let x = check(a, scope, current, layout);
    let y = check(b, scope, current, layout);
    let (left, right) = together(x, y)?;
    let h = own_rule(binary_half(o, left, right), row)?;
    note_row(row, h.body, h.offset, layout);
    Ok(h.body)
}

// And and or: both operands, and then that each is Boolean.
#[cycle(all_list_binary_check_choice_lazy_unary)]
#[inline(never)]
fn lazy(
    row: usize,
    scope: &Scope,
    a: usize,
    b: usize,
    current: Option<[u8; BODY_BYTES]>,
    layout: &mut [u16],
) -> Found<[u8; BODY_BYTES]>
    requires asked { Asked row scope.now current layout.old }
    requires operand { Operand scope.now row a × Operand scope.now row b }
    ensures { (k : Connective) (d : Option Body) → HoldsIf current d → Gives result layout.old layout.new (check (lazy row k (expression_tree scope.now.rows.now a) (expression_tree scope.now.rows.now b)) (declared_bodies scope.now) d) }
{
    let x = check(a, scope, current, layout);
    let y = check(b, scope, current, layout);
    let (one, other) = together(x, y)?;
    if !is_boolean(one) {
        return Err(fault(Error::BooleanExpected, row));
    }
    if !is_boolean(other) {
        return Err(fault(Error::BooleanExpected, row));
    }
    note_row(row, other, 0, layout);
    Ok(other)
}

// The test and both branches, that the test is Boolean, and then that the branches' bodies are equal.
#[cycle(all_list_binary_check_choice_lazy_unary)]
#[inline(never)]
fn choice(
    row: usize,
    scope: &Scope,
    a: usize,
    b: usize,
    c: usize,
    current: Option<[u8; BODY_BYTES]>,
    layout: &mut [u16],
) -> Found<[u8; BODY_BYTES]>
    requires asked { Asked row scope.now current layout.old }
    requires operand { Operand scope.now row a × (Operand scope.now row b × Operand scope.now row c) }
    ensures { (d : Option Body) → HoldsIf current d → Gives result layout.old layout.new (check (choice row (expression_tree scope.now.rows.now a) (expression_tree scope.now.rows.now b) (expression_tree scope.now.rows.now c)) (declared_bodies scope.now) d) }
{
    let t = check(a, scope, current, layout);
    let yes = check(b, scope, current, layout);
    let no = check(c, scope, current, layout);
    let (test, (chosen, other)) = together(t, together(yes, no))?;
    if !is_boolean(test) {
        return Err(fault(Error::BooleanExpected, row));
    }
    if !same(chosen, other) {
        return Err(fault(Error::NoCoherence, row));
    }
    note_row(row, chosen, 0, layout);
    Ok(chosen)
}

// The inner yoke on an element's body, if there is one, and then that it is Boolean. A current value that is no list is a fault
// whatever the inner yoke has; one without a body is none.
#[cycle(all_list_binary_check_choice_lazy_unary)]
#[inline(never)]
fn all_list(
    row: usize,
    scope: &Scope,
    a: usize,
    current: Option<[u8; BODY_BYTES]>,
    layout: &mut [u16],
) -> Found<[u8; BODY_BYTES]>
    requires asked { Asked row scope.now current layout.old }
    requires operand { Operand scope.now row a }
    ensures { (b : Option Body) → HoldsIf current b → Gives result layout.old layout.new (check (all_list row (expression_tree scope.now.rows.now a)) (declared_bodies scope.now) b) }
{
    let list = elements(row, current);
    let x = check(a, scope, list.ok(), layout);
    let (inner, element) = together(x, list)?;
    if !is_boolean(inner) {
        return Err(fault(Error::YokeExpected, row));
    }
    let m = measure_body(element);
    note_row(row, inner, m.cells, layout);
    Ok(inner)
}
