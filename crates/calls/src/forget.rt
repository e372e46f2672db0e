// Forget, behind the test of the state's length.
ghost use Rattle.std.specs.Prelude.{◌≡◌};
ghost use Rattle.calls.specs.Forget.{forget_call};

use crate::lengths;

pub fn forget(s: &mut [u8], x: u64, amount: u64)
    ensures { s.new ≡ forget_call s.old x amount }
{
    if lengths::state_fits(s) {
        merge::forget::forget_one(s, x, amount);
    }
}
