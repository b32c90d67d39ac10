// Copies of parts of a body's bytes, and the comparison of two bodies.
ghost use Rattle.std.specs.Prelude.{◌≡◌, ◌+◌, ◌≤◌, take, drop};
ghost use Rattle.std.proofs.Math.Seq.{paste};
ghost use Rattle.lingua.specs.Numbers.{body_bytes};
ghost use Rattle.lingua.specs.Body.{Body, same_body};
ghost use Rattle.lingua.specs.Value.{pad};
ghost use Rattle.body.specs.Encode.{Holds};

use crate::walk::WORD;
use lingua::sizes::BODY_BYTES;

// The bytes with n of another array's, from a place of it on, at a place.
pub fn pasted(
    body: [u8; BODY_BYTES],
    at: usize,
    other: [u8; BODY_BYTES],
    from: usize,
    n: usize,
) -> [u8; BODY_BYTES]
    requires n_bound { at + n ≤ body_bytes }
    requires n_bound_2 { from + n ≤ body_bytes }
    ensures { result ≡ paste body at (drop from other) n }
{
    let mut out = body;
    out[at..at + n].copy_from_slice(&other[from..from + n]);
    out
}

// The n bytes from a place on, zeros after: of a whole body, that body by itself.
pub fn part(body: [u8; BODY_BYTES], from: usize, n: usize) -> [u8; BODY_BYTES]
    requires { from + n ≤ body_bytes }
    ensures { result ≡ pad body_bytes 0 (take n (drop from body)) }
{
    pasted([0u8; BODY_BYTES], 0, body, from, n)
}

// A boolean, a number or a word is its first byte alone; of two others all bytes are compared, since the encoding is injective.
pub fn same(x: [u8; BODY_BYTES], y: [u8; BODY_BYTES]) -> bool
    ensures { (b c : Body) → Holds x b → Holds y c → result ≡ same_body b c }
{
    if x[0] != y[0] {
        return false;
    }
    if x[0] <= WORD {
        return true;
    }
    all_same(x, y)
}

// It goes on after a difference: without a way out of the loop, which `==` and `all` have, the compiler takes many bytes at once.
fn all_same(x: [u8; BODY_BYTES], y: [u8; BODY_BYTES]) -> bool
    ensures { (b c : Body) → Holds x b → Holds y c → result ≡ same_body b c }
{
    let mut alike = true;
    for i in 0..BODY_BYTES {
        if x[i] != y[i] {
            alike = false;
        }
    }
    alike
}
