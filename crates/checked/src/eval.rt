// Evaluation descends the expression tree, the row number falling at each call. A value's cells lie at the stack's front;
// the second operand of two is evaluated 64 cells further up.
ghost use Rattle.std.specs.Prelude.{List, ◌<◌};
ghost use Rattle.lingua.specs.Value.{Composite};
ghost use Rattle.lingua.specs.Store.{Variable, contents};
ghost use Rattle.lingua.specs.Trees.{expression_tree};
ghost use Rattle.lingua.specs.Evaluation.{eval as meaning};
ghost use Rattle.lingua.specs.Expression.{lazy as lazyTree, choice as choiceTree, all_list};
ghost use Rattle.decoder.specs.Decoded.{connective};
ghost use Rattle.checked_row.specs.Meaning.{WorldSeen, CurrentSeen, Asked, Gives};

use body::make::element;
use body::walk::{LIST, measure_body};
use checked_row::answer::{CurrentValue, Evaluated, simple_value, truth_of};
use checked_row::leaves::{constant, copied, fetch};
use checked_row::operate::{binary, unary};
use checked_row::quick::pair;
use checked_row::sight::Sight;
use checked_row::tally::{Tally, concluded, tallied};
use decoder::decode::ExpressionRow;
use lingua::errors::Error;
use lingua::sizes::BODY_CELLS;
use profile::row::expression_row;

// What the expression of a row gives.
#[cycle(all_choice_eval_lazy)]
pub fn eval(row: usize, sight: &Sight, stack: &mut [i64]) -> Result<Evaluated, Error>
    requires { Asked row sight.now stack.old }
    ensures { (vs : List Variable) (x : Composite) → WorldSeen sight.now vs → CurrentSeen sight.now x
        → Gives result stack.new (meaning (expression_tree sight.now.rows.now row) (contents vs) x) }
{
    let rows = sight.rows;
    let says = expression_row(rows, row);
    match says {
        ExpressionRow::Constant(_) => Ok(constant(rows, row, stack)),
        ExpressionRow::Variable(n) => fetch(sight.memory, n, stack),
        ExpressionRow::Current => Ok(copied(sight.current, stack)),
        ExpressionRow::Unary(o, a) => {
            let x = eval(a, sight, &mut *stack);
            unary(o, x, stack)
        }
        ExpressionRow::Binary(o, a, b) => {
            let quick = pair(o, a, b, sight, &mut *stack);
            if let Some(answer) = quick {
                let tag = answer?;
                return Ok(simple_value(tag));
            }
            let x = eval(a, sight, &mut *stack);
            let y = eval(b, sight, &mut stack[BODY_CELLS..]);
            binary(o, x, y, stack)
        }
        ExpressionRow::Lazy(settling, a, b) => lazy(row, settling, a, b, sight, stack),
        ExpressionRow::Choice(a, b, d) => choice(row, a, b, d, sight, stack),
        ExpressionRow::AllList(a) => all(row, a, sight, stack),
    }
}

// Kinds 11 and 12: the second operand is evaluated unless the first settles the result.
#[cycle(all_choice_eval_lazy)]
fn lazy(
    row: usize,
    settling: bool,
    a: usize,
    b: usize,
    sight: &Sight,
    stack: &mut [i64],
) -> Result<Evaluated, Error>
    requires asked { Asked row sight.now stack.old }
    requires a_lt_row { (a < row) × (b < row) }
    ensures { (vs : List Variable) (x : Composite) → WorldSeen sight.now vs → CurrentSeen sight.now x
        → Gives result stack.new (meaning (lazyTree row (connective settling) (expression_tree sight.now.rows.now a) (expression_tree sight.now.rows.now b)) (contents vs) x) }
{
    let x = eval(a, sight, &mut *stack);
    let first = truth_of(x, Error::BooleanExpected, stack)?;
    if first == settling {
        return x;
    }
    let y = eval(b, sight, &mut *stack);
    truth_of(y, Error::BooleanExpected, stack)?;
    y
}

// Kind 15: the test, then one of the branches.
#[cycle(all_choice_eval_lazy)]
fn choice(
    row: usize,
    test: usize,
    a: usize,
    b: usize,
    sight: &Sight,
    stack: &mut [i64],
) -> Result<Evaluated, Error>
    requires asked { Asked row sight.now stack.old }
    requires test_lt_row { (test < row) × (a < row) × (b < row) }
    ensures { (vs : List Variable) (x : Composite) → WorldSeen sight.now vs → CurrentSeen sight.now x
        → Gives result stack.new (meaning (choiceTree row (expression_tree sight.now.rows.now test) (expression_tree sight.now.rows.now a) (expression_tree sight.now.rows.now b)) (contents vs) x) }
{
    let x = eval(test, sight, &mut *stack);
    if truth_of(x, Error::BooleanExpected, stack)? {
        return eval(a, sight, stack);
    }
    eval(b, sight, stack)
}

// Kind 25: the inner yoke on each element of the current value, all of them, at their places in the list.
#[cycle(all_choice_eval_lazy)]
fn all(row: usize, a: usize, sight: &Sight, stack: &mut [i64]) -> Result<Evaluated, Error>
    requires asked { Asked row sight.now stack.old }
    requires a_lt_row { a < row }
    ensures { (vs : List Variable) (x : Composite) → WorldSeen sight.now vs → CurrentSeen sight.now x
        → Gives result stack.new (meaning (all_list row (expression_tree sight.now.rows.now a)) (contents vs) x) }
{
    let current = sight.current;
    if current.body[0] != LIST {
        return Err(Error::ListExpected);
    }
    let inner = element(current.body);
    let m = measure_body(inner);
    let width = m.cells;
    let n = current.cells[0] as usize;
    let mut seen = Ok(Tally {
        booleans: true,
        all: true,
    });
    for i in 0..n {
        let at = 1 + i * width;
        let part = CurrentValue {
            cells: &current.cells[at..at + width],
            body: inner,
        };
        let inside = Sight {
            rows: sight.rows,
            memory: sight.memory,
            current: &part,
        };
        let x = eval(a, &inside, &mut *stack);
        seen = tallied(seen, x, stack);
    }
    concluded(seen, stack)
}
