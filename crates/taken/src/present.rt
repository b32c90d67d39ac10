// The present bodies that are lent to a checked run: the profile's in front, then those of the open calls.
ghost use Rattle.std.specs.Prelude.{◌≡◌, ◌++◌ as followed, ◌≤◌, length, drop};

// The profile's, which lie by themselves while the run goes on, come to the front.
pub fn copy_front(own: &[u8], present: &mut [u8])
    requires { length own.now ≤ length present.old }
    ensures { present.new ≡ followed own.now (drop (length own.now) present.old) }
{
    present[..own.len()].copy_from_slice(own);
}
