// Numbers that a call has kept, put where they belong.
ghost use Rattle.std.specs.Prelude.{◌≡◌, ◌≤◌, length, take};
ghost use Rattle.lists.specs.Filled.{over};

// The first `count` words of one buffer over the front of another, in the words of the calls' promises (`over`).
pub fn copy(from: &[u64], count: usize, to: &mut [u64])
    requires { (count ≤ length from.now) × (count ≤ length to.old) }
    ensures { to.new ≡ over (take count from.now) to.old }
{
    to[..count].copy_from_slice(&from[..count]);
}
