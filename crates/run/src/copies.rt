// Cells from one place to another.
ghost use Rattle.std.specs.Prelude.{◌≡◌, ◌+◌, ◌≤◌, length, drop};
ghost use Rattle.std.proofs.Math.Seq.{paste};

// The n cells from a place on, to the stack's front. Most values are simple: one cell is moved by itself.
pub fn copy(from: &[i64], at: usize, n: usize, stack: &mut [i64])
    requires n_in_bounds { at + n ≤ length from.now }
    requires n_in_bounds_2 { n ≤ length stack.old }
    ensures { stack.new ≡ paste stack.old 0 (drop at from.now) n }
{
    if n == 1 {
        stack[0] = from[at];
        return;
    }
    stack[..n].copy_from_slice(&from[at..at + n]);
}
