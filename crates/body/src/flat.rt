// Bodies in a flat array that has BODY_BYTES for each.
ghost use Rattle.std.specs.Prelude.{◌≡◌, ◌+◌, ◌*◌, ◌≤◌, length, take, drop};
ghost use Rattle.std.proofs.Math.Seq.{paste};
ghost use Rattle.lingua.specs.Numbers.{body_bytes};

use lingua::sizes::BODY_BYTES;

// Body number r, by itself.
pub fn taken(bodies: &[u8], r: usize) -> [u8; BODY_BYTES]
    requires { body_bytes * r + body_bytes ≤ length bodies.now }
    ensures { result ≡ take body_bytes (drop (body_bytes * r) bodies.now) }
{
    let from = BODY_BYTES * r;
    let mut out = [0u8; BODY_BYTES];
    out.copy_from_slice(&bodies[from..from + BODY_BYTES]);
    out
}

// A body becomes number r.
pub fn keep(bodies: &mut [u8], r: usize, body: [u8; BODY_BYTES])
    requires { body_bytes * r + body_bytes ≤ length bodies.old }
    ensures { bodies.new ≡ paste bodies.old (body_bytes * r) body body_bytes }
{
    let at = BODY_BYTES * r;
    bodies[at..at + BODY_BYTES].copy_from_slice(&body);
}
