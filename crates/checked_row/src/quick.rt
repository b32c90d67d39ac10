// Operations on two leaves of simple bodies, at once. Most operations are such: the leaves' cells go to the stack, a body is told by its first byte,
// and no 96 bytes are handed about. Whatever is not so simple is left to the evaluation, which finds its error too.
ghost use Rattle.std.specs.Prelude.{◌≡◌, List, ℕ, ◌+◌, ◌≤◌, length, drop, get_or, Ok};
ghost use Rattle.lingua.specs.Numbers.{body_cells};
ghost use Rattle.lingua.specs.Body.{Body};
ghost use Rattle.lingua.specs.Outcome.{Result as Outcome, ◌>>=◌ as bind};
ghost use Rattle.lingua.specs.Value.{Composite};
ghost use Rattle.lingua.specs.Store.{Variable, contents};
ghost use Rattle.lingua.specs.Trees.{expression_tree};
ghost use Rattle.lingua.specs.Operations.{binary_meaning};
ghost use Rattle.lingua.specs.Evaluation.{eval as meaning, apply_binary};
ghost use Rattle.body.specs.Encode.{Holds};
ghost use Rattle.checked_row.specs.Meaning.{WorldSeen, CurrentSeen, Asked, Gives, Given, simple_evaluated, IsSimple, SimpleGives, QuickGives};

use crate::sight::Sight;
use body::make::simple;
use body::walk::WORD;
use body_half::operation::simple_binary;
use decoder::decode::ExpressionRow;
use lingua::errors::Error;
use lingua::operations::BinaryOperation;
use lingua::sizes::{BODY_BYTES, BODY_CELLS};
use profile::constants::{constant_body, constant_cell};
use profile::row::expression_row;
use run::words::is_filled;

// The tag of a simple body by its first byte, none of any other.
fn simple_tag(first: u8) -> Option<u8>
    ensures { (body : List ℕ) (b : Body) → Holds body b → get_or body 0 0 ≡ first → IsSimple result body b }
{
    if WORD < first {
        return None;
    }
    Some(first)
}

// The tag of a leaf's simple body, its cell at the stack's front; none of any other row. Drawn in at both operands, it takes no call.
#[inline(always)]
fn leaf(row: usize, sight: &Sight, stack: &mut [i64]) -> Option<u8>
    requires { Asked row sight.now stack.old }
    ensures { (vs : List Variable) (x : Composite) → WorldSeen sight.now vs → CurrentSeen sight.now x
        → SimpleGives result stack.new (meaning (expression_tree sight.now.rows.now row) (contents vs) x) }
{
    let rows = sight.rows;
    let memory = sight.memory;
    let current = sight.current;
    let says = expression_row(rows, row);
    match says {
        ExpressionRow::Constant(_) => {
            let own = constant_body(rows, row);
            let tag = simple_tag(own[0])?;
            stack[0] = constant_cell(rows, row);
            Some(tag)
        }
        ExpressionRow::Variable(n) => {
            if !is_filled(memory.states, n) {
                return None;
            }
            let tag = simple_tag(memory.bodies[BODY_BYTES * n])?;
            stack[0] = memory.cells[BODY_CELLS * n];
            Some(tag)
        }
        ExpressionRow::Current => {
            let tag = simple_tag(current.body[0])?;
            stack[0] = current.cells[0];
            Some(tag)
        }
        _ => None,
    }
}

// An operation on two simple values, by their tags: the result's tag or the error; none where that is not so simple.
fn apply(o: BinaryOperation, p: u8, q: u8, stack: &mut [i64]) -> Option<Result<u8, Error>>
    requires given { Given (Ok (simple_evaluated p)) stack.old × Given (Ok (simple_evaluated q)) (drop body_cells stack.old) }
    requires body_cells_in_bounds { body_cells + body_cells ≤ length stack.old }
    ensures { (u v : Outcome Composite) → Gives (Ok (simple_evaluated p)) stack.old u → Gives (Ok (simple_evaluated q)) (drop body_cells stack.old) v
        → QuickGives result stack.new (bind u (λ a. bind v (λ b. apply_binary (binary_meaning o) a b))) }
{
    let tag = simple_binary(o, simple(p), simple(q))?;
    match cells::apply::binary(o, stack, 1, 1, 0) {
        Ok(()) => Some(Ok(tag)),
        Err(error) => Some(Err(error)),
    }
}

// An operation on the expressions of two rows; the second's value lies 64 cells up the stack.
pub fn pair(
    o: BinaryOperation,
    a: usize,
    b: usize,
    sight: &Sight,
    stack: &mut [i64],
) -> Option<Result<u8, Error>>
    requires asked { Asked a sight.now stack.old }
    requires asked_2 { Asked b sight.now (drop body_cells stack.old) }
    ensures { (vs : List Variable) (x : Composite) → WorldSeen sight.now vs → CurrentSeen sight.now x
        → QuickGives result stack.new (bind (meaning (expression_tree sight.now.rows.now a) (contents vs) x) (λ u. bind (meaning (expression_tree sight.now.rows.now b) (contents vs) x) (λ v. apply_binary (binary_meaning o) u v))) }
{
    let p = leaf(a, sight, &mut *stack)?;
    let q = leaf(b, sight, &mut stack[BODY_CELLS..])?;
    apply(o, p, q, stack)
}
