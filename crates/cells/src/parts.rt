// Parts of a stack set to zero.
ghost use Rattle.std.specs.Prelude.{◌≡◌, ◌+◌, ◌≤◌, length, replicate, pos};
ghost use Rattle.std.proofs.Math.Seq.{paste};

// Zeros in the n cells from `at` on.
pub fn clear(stack: &mut [i64], at: usize, n: usize)
    requires { at + n ≤ length stack.old }
    ensures { stack.new ≡ paste stack.old at (replicate n (pos 0)) n }
{
    stack[at..at + n].fill(0);
}
