// What a call gives: each variable has the declared body of its parameter.
ghost use Rattle.std.specs.Prelude.{◌≡◌, ◌++◌};
ghost use Rattle.lingua.specs.Rows.{groups};
ghost use Rattle.lingua.specs.Trees.{given_values, given_references};
ghost use Rattle.lingua.specs.Typing.{given_fit};
ghost use Rattle.typing.specs.Check.{variable_bodies, declared_bodies};
ghost use Rattle.typecheck.specs.Verdicts.{procedure_bodies, Given, CallAsked};

use body::parts::same;
use decoder::tables::Table;
use typing::leaves::variable_body;
use typing::walk::Scope;

// Whether the variables in the first n groups of four bits have the bodies of the parameters from one on.
fn given_fit(scope: &Scope, parameters: Table, w: usize, n: usize, first: usize) -> bool
    requires { Given scope.now parameters w n first }
    ensures { result ≡ given_fit (declared_bodies scope.now) (groups n w) (variable_bodies scope.now.rows.now parameters.section) first }
{
    let rows = scope.rows;
    let mut rest = w;
    for m in first..first + n {
        let given = variable_body(rows, scope.variables, scope.bodies, rest % 16);
        let wanted = variable_body(rows, parameters, scope.bodies, m);
        if !same(given, wanted) {
            return false;
        }
        rest /= 16;
    }
    true
}

// Those by value, and then those by reference.
pub fn call_fits(scope: &Scope, k: usize, b: usize, c: usize) -> bool
    requires { CallAsked scope.now k b c }
    ensures { result ≡ given_fit (declared_bodies scope.now) (given_values scope.now.rows.now k b ++ given_references scope.now.rows.now k c) (procedure_bodies scope.now.rows.now k) 0 }
{
    let rows = scope.rows;
    let procedure = rows.procedure(k);
    let parameters = rows.variables(k);
    let values = procedure.values;
    let references = procedure.references;
    if !given_fit(scope, parameters, b, values, 0) {
        return false;
    }
    given_fit(scope, parameters, c, references, values)
}
