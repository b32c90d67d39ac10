// What the check finds of an expression row: its body, or the lowest fault among its rows, or neither.
ghost use Rattle.std.specs.Prelude.{◌≡◌, ◌<◌};
ghost use Rattle.std.proofs.Math.Option.{Option};
ghost use Rattle.lingua.specs.Body.{Body};
ghost use Rattle.lingua.specs.Typing.{elements_at, lower};
ghost use Rattle.typing.specs.Check.{HeldIf, HoldsIf, fault_meaning, own_fault, own_found, Together, Elements};

use body::typed::Typed;
use body_half::operation::unary_half;
use lingua::errors::{Error, ErrorAt};
use lingua::operations::UnaryOperation;
use lingua::sizes::BODY_BYTES;

// What a row has, or the lowest fault among its rows. A row can have neither: where it hangs on a current value that has no body.
pub type Found<T> = Result<T, Option<ErrorAt>>;

// A row's own rule: its answer, or the row's fault.
#[inline(never)]
pub fn own_rule(half: Result<Typed, Error>, row: usize) -> Found<Typed>
    requires { row < 65536 }
    ensures { result ≡ own_found half row }
{
    half.map_err(|error| fault(error, row))
}

// A row that breaks a rule is at fault.
pub fn fault(error: Error, row: usize) -> Option<ErrorAt>
    requires { row < 65536 }
    ensures { result ≡ own_fault error row }
{
    Some(ErrorAt {
        error: error,
        place: row as u16,
    })
}

// Of two faults the one at the lower place.
fn lower(x: Option<ErrorAt>, y: Option<ErrorAt>) -> Option<ErrorAt>
    ensures { fault_meaning result ≡ lower (fault_meaning x) (fault_meaning y) }
{
    match (x, y) {
        (None, _) => y,
        (Some(e), Some(f)) if f.place < e.place => y,
        _ => x,
    }
}

// Two operands whose bodies a row asks for: both, or the lower of their faults.
#[inline(never)]
pub fn together<A: Copy, B: Copy>(x: Found<A>, y: Found<B>) -> Found<(A, B)>
    ensures { Together result x y }
{
    match (x, y) {
        (Ok(a), Ok(b)) => Ok((a, b)),
        (Ok(_), Err(f)) => Err(f),
        (Err(e), Ok(_)) => Err(e),
        (Err(e), Err(f)) => Err(lower(e, f)),
    }
}

// The body of the elements of a current value that is a list. One that is no list is the row's fault; one that has no body is not.
#[inline(never)]
pub fn elements(row: usize, current: Option<[u8; BODY_BYTES]>) -> Found<[u8; BODY_BYTES]>
    requires held { HeldIf current }
    requires row_bound { row < 65536 }
    ensures { (b : Option Body) → HoldsIf current b → Elements result (elements_at row b) }
{
    let list = current.ok_or(None)?;
    let h = own_rule(unary_half(UnaryOperation::Top, list), row)?;
    Ok(h.body)
}
