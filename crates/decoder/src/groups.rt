// The groups of four bits in a field of a call, from the lowest: each is a variable's number.
ghost use Rattle.std.specs.Prelude.{◌≡◌, ℕ, ◌<◌, min, get_or};
ghost use Rattle.lingua.specs.Numbers.{most_parameters};
ghost use Rattle.lingua.specs.Errors.{is_among};
ghost use Rattle.lingua.specs.Rows.{groups};
ghost use Rattle.lingua.specs.References.{all_below, bits_above, all_different};

use lingua::sizes::MOST_PARAMETERS;

// As many groups as a procedure has parameters of the sort, and at most 4.
pub fn given(parameters: usize) -> usize
    ensures { result ≡ min most_parameters parameters }
{
    parameters.min(MOST_PARAMETERS)
}

// Group i.
pub fn group(w: usize, i: usize) -> usize
    requires { i < most_parameters }
    ensures { ((n : ℕ) → i < n → result ≡ get_or (groups n w) i 0) × (result < 16) }
{
    match i {
        0 => w % 16,
        1 => w / 16 % 16,
        2 => w / 256 % 16,
        _ => w / 4096 % 16,
    }
}

// What stands above the first n groups.
pub fn bits_above(w: usize, n: usize) -> usize
    ensures { result ≡ bits_above n w }
{
    match n {
        0 => w,
        1 => w / 16,
        2 => w / 256,
        3 => w / 4096,
        _ => w / 65536,
    }
}

// Whether each of the first n groups is below an end.
pub fn groups_below(w: usize, n: usize, end: usize) -> bool
    ensures { result ≡ all_below end (groups n w) }
{
    let mut rest = w;
    for _i in 0..n {
        if rest % 16 >= end {
            return false;
        }
        rest = rest / 16;
    }
    true
}

// Whether a number is among the first n groups.
fn is_group(w: usize, n: usize, g: usize) -> bool
    ensures { result ≡ is_among (groups n w) g }
{
    let mut rest = w;
    for _i in 0..n {
        if rest % 16 == g {
            return true;
        }
        rest = rest / 16;
    }
    false
}

// Whether no two of the first n groups are the same.
pub fn groups_differ(w: usize, n: usize) -> bool
    ensures { result ≡ all_different (groups n w) }
{
    let mut rest = w;
    for i in 0..n {
        let g = rest % 16;
        rest = rest / 16;
        if is_group(rest, n - i - 1, g) {
            return false;
        }
    }
    true
}
