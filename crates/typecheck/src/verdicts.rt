// The check of tests, yokes, assignments and instructions: each its expression, and then what it asks of the body. Variables are those of
// the scope that is given.
ghost use Rattle.std.specs.Prelude.{◌≡◌, Bool, List, ℕ, ◌+◌, ◌<◌, length};
ghost use Rattle.lingua.specs.Numbers.{layout_length, instruction_section, instruction_place};
ghost use Rattle.lingua.specs.Body.{Body, same_body};
ghost use Rattle.lingua.specs.Expression.{assign, call};
ghost use Rattle.lingua.specs.Rows.{table_count};
ghost use Rattle.lingua.specs.Typing.{Typed, Finding, judged, check_yoke, check_test, check_instruction};
ghost use Rattle.lingua.specs.Trees.{expression_tree, yoke_tree, given_values, given_references, instruction_tree, instruction_scope};
ghost use Rattle.body.specs.Encode.{Holds};
ghost use Rattle.typing.specs.Check.{error_meaning, declared_bodies};
ghost use Rattle.typecheck.specs.Verdicts.{procedure_bodies, YokeAsked, ExpressionAsked, Assigned, CallAsked, InstructionAsked, Judges, Settles};

use crate::given::call_fits;
use body::make::simple;
use body::parts::same;
use body::walk::BOOLEAN;
use body_half::unary::is_boolean;
use decoder::decode::InstructionRow as Row;
use lingua::errors::{Error, ErrorAt};
use lingua::sizes::{BODY_BYTES, INSTRUCTION_PLACE};
use profile::row::instruction_row;
use typing::findings::Found;
use typing::leaves::variable_body;
use typing::walk::{Scope, check};

// The fault that is named: that of the expression's lowest row at fault, or, where its body does not suit, its own. It names its own also
// where there is neither a body nor a fault, which never is.
fn judge(suits: Found<bool>, own: ErrorAt) -> Result<(), ErrorAt>
    ensures { (o : Finding Typed) (asks : Body → Bool) (entry exit : List ℕ) → Judges suits o asks entry exit → Settles result entry exit (judged o asks (error_meaning own)) }
{
    match suits {
        Ok(true) => Ok(()),
        Ok(false) => Err(own),
        Err(fault) => Err(fault.unwrap_or(own)),
    }
}

// A yoke as in the marks: 0 has no expression, and asks nothing.
pub fn check_yoke(
    scope: &Scope,
    yoke: usize,
    current: [u8; BODY_BYTES],
    place: u16,
    layout: &mut [u16],
) -> Result<(), ErrorAt>
    requires { YokeAsked scope.now yoke current layout.old }
    ensures { (b : Body) → Holds current b → Settles result layout.old layout.new (check_yoke (yoke_tree scope.now.rows.now yoke) (declared_bodies scope.now) b place) }
{
    if yoke == 0 {
        return Ok(());
    }
    let x = check(yoke - 1, scope, Some(current), layout);
    let own = ErrorAt {
        error: Error::YokeExpected,
        place: place,
    };
    judge(x.map(is_boolean), own)
}

// Outside yokes there is no current value; its body is that of a Boolean.
fn check_test(scope: &Scope, e: usize, place: u16, layout: &mut [u16]) -> Result<(), ErrorAt>
    requires { ExpressionAsked scope.now e layout.old }
    ensures { Settles result layout.old layout.new (check_test (expression_tree scope.now.rows.now e) (declared_bodies scope.now) place) }
{
    let none = simple(BOOLEAN);
    let x = check(e, scope, Some(none), layout);
    let own = ErrorAt {
        error: Error::BooleanExpected,
        place: place,
    };
    judge(x.map(is_boolean), own)
}

// The expression, and then that its body is the variable's declared one.
fn check_assignment(
    scope: &Scope,
    row: usize,
    n: usize,
    e: usize,
    layout: &mut [u16],
) -> Result<(), ErrorAt>
    requires { Assigned scope.now row n e layout.old }
    ensures { Settles result layout.old layout.new (check_instruction (procedure_bodies scope.now.rows.now) (declared_bodies scope.now) (assign row n (expression_tree scope.now.rows.now e))) }
{
    let none = simple(BOOLEAN);
    let x = check(e, scope, Some(none), layout);
    let rows = scope.rows;
    let declared = variable_body(rows, scope.variables, scope.bodies, n);
    let own = ErrorAt {
        error: Error::NoCoherence,
        place: (INSTRUCTION_PLACE + row) as u16,
    };
    let suits = x.map(
        |given|
            ensures { (b c : Body) → Holds declared b → Holds given c → result ≡ same_body b c }
        { same(declared, given) },
    );
    judge(suits, own)
}

// A call evaluates nothing: only what it gives is asked.
fn check_call(scope: &Scope, k: usize, b: usize, c: usize, place: u16) -> Result<(), ErrorAt>
    requires { CallAsked scope.now k b c }
    ensures { (row : ℕ) (layout : List ℕ) → place ≡ instruction_place + row → Settles result layout layout (check_instruction (procedure_bodies scope.now.rows.now) (declared_bodies scope.now) (call row k (given_values scope.now.rows.now k b) (given_references scope.now.rows.now k c))) }
{
    if !call_fits(scope, k, b, c) {
        return Err(ErrorAt {
            error: Error::NoCoherence,
            place: place,
        });
    }
    Ok(())
}

// An instruction's own row, by the variables that it names; its parts are rows of their own.
pub fn check_instruction(scope: &Scope, row: usize, layout: &mut [u16]) -> Result<(), ErrorAt>
    requires { InstructionAsked scope.now row layout.old }
    ensures { Settles result layout.old layout.new (check_instruction (procedure_bodies scope.now.rows.now) (declared_bodies scope.now) (instruction_tree scope.now.rows.now row)) }
{
    let place = (INSTRUCTION_PLACE + row) as u16;
    let rows = scope.rows;
    let i = instruction_row(rows, row);
    match i {
        Row::Assign(n, e) => check_assignment(scope, row, n, e, layout),
        Row::SetYoke(n, y) => {
            let declared = variable_body(rows, scope.variables, scope.bodies, n);
            check_yoke(scope, y, declared, place, layout)
        }
        Row::Branch(e, _, _) => check_test(scope, e, place, layout),
        Row::Loop(e, _) => check_test(scope, e, place, layout),
        Row::Call(k, b, c) => check_call(scope, k, b, c, place),
        _ => Ok(()),
    }
}
