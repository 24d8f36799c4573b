//! The calls that are left until the one that fails.
ghost use Rattle.std.specs.Prelude.{◌≡◌, ◌-◌, ◌↔◌, IsTrue};

// Counts a call, and says whether it is the one that fails. `fails_in` is where that one stands from
// here on, 1 for the next, and 0 where there is none or it has been.
pub(crate) fn count_call(fails_in: &mut u64) -> bool
    ensures fails { IsTrue result ↔ (fails_in.old ≡ 1) }
    ensures counts { fails_in.new ≡ fails_in.old - 1 }
{
    let is_failing = *fails_in == 1;
    *fails_in = fails_in.saturating_sub(1);
    is_failing
}
