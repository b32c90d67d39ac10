// Arithmetic on numbers and on counts of hundredths. A sum and a difference are exact; of counts, a product and a quotient are rounded to
// the nearest count; of numbers, a quotient is cut toward zero. What leaves the range is an error. In each operation, `hundredths` says
// that counts are meant.
#![tactic(auto)]

ghost use Rattle.std.specs.Prelude.{◌≡◌, true, ◌≤◌, pos, nat_abs, ◌+ℤ◌, ◌-ℤ◌};
ghost use Rattle.lingua.specs.Value.{in_range, in_counts, in_range_of};
ghost use Rattle.lingua.specs.Compute.{ranged, product, quotient, divided, counted, whole_part};
ghost use Rattle.arith.specs.Told.{told_quantity};

use crate::rounding::nearest;
use lingua::errors::Error;
use lingua::sizes::{HIGHEST_COUNT, HIGHEST_NUMBER, LOWEST_COUNT, LOWEST_NUMBER, PARTS_OF_ONE};

pub mod rounding; // rounding.rt: to the nearest whole number

// In a count's range, or in a number's.
pub fn in_range(hundredths: bool, z: i64) -> bool
    ensures { result ≡ in_range_of hundredths z }
{
    if hundredths {
        if z < LOWEST_COUNT {
            return false;
        }
        return z <= HIGHEST_COUNT;
    }
    if z < LOWEST_NUMBER {
        return false;
    }
    z <= HIGHEST_NUMBER
}

// The one range check: every operation that can leave the range ends here, after its rounding.
fn checked(hundredths: bool, z: i64) -> Result<i64, Error>
    ensures { told_quantity hundredths result ≡ ranged hundredths z }
{
    if in_range(hundredths, z) {
        return Ok(z);
    }
    Err(Error::Overflow)
}

pub fn add(hundredths: bool, x: i64, y: i64) -> Result<i64, Error>
    requires x_value { in_range_of hundredths x ≡ true }
    requires y_value { in_range_of hundredths y ≡ true }
    ensures { told_quantity hundredths result ≡ ranged hundredths (x +ℤ y) }
{
    checked(hundredths, x + y)
}

pub fn subtract(hundredths: bool, x: i64, y: i64) -> Result<i64, Error>
    requires x_value { in_range_of hundredths x ≡ true }
    requires y_value { in_range_of hundredths y ≡ true }
    ensures { told_quantity hundredths result ≡ ranged hundredths (x -ℤ y) }
{
    checked(hundredths, x - y)
}

// The machine's product cannot wrap, so it is the exact one that is checked; of counts, it is a hundred times the product's count.
pub fn multiply(hundredths: bool, x: i64, y: i64) -> Result<i64, Error>
    requires x_value { in_range_of hundredths x ≡ true }
    requires y_value { in_range_of hundredths y ≡ true }
    ensures { told_quantity hundredths result ≡ ranged hundredths (product hundredths x y) }
{
    let z = x * y;
    if hundredths {
        let n = nearest(z, PARTS_OF_ONE);
        return checked(true, n);
    }
    checked(false, z)
}

// A quotient is cut here alone: toward zero, as the machine does.
fn quotient(x: i64, y: i64) -> i64
    requires x_bound { nat_abs x ≤ 10000000000000000 }
    requires fact { y ≡ pos 0 → ⊥ }
    ensures { result ≡ quotient x y }
{
    let q = x / y;
    q
}

// A quotient of numbers is in size at most its dividend, so only that of counts can leave the range.
pub fn divide(hundredths: bool, x: i64, y: i64) -> Result<i64, Error>
    requires x_value { in_range_of hundredths x ≡ true }
    requires y_value { in_range_of hundredths y ≡ true }
    ensures { told_quantity hundredths result ≡ divided hundredths x y }
{
    if y == 0 {
        return Err(Error::DivisionByZero);
    }
    if hundredths {
        let q = nearest(PARTS_OF_ONE * x, y);
        return checked(true, q);
    }
    Ok(quotient(x, y))
}

// A number's count of hundredths is in the range of counts: there is nothing to check.
pub fn to_hundredths(x: i64) -> i64
    requires { in_range x ≡ true }
    ensures { result ≡ counted x }
{
    let z = PARTS_OF_ONE * x;
    z
}

// Cut toward zero, as a quotient of numbers is.
pub fn to_number(z: i64) -> i64
    requires { in_counts z ≡ true }
    ensures { result ≡ whole_part z }
{
    let x = quotient(z, PARTS_OF_ONE);
    x
}
