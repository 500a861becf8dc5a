// Whether a place holds a booked order; what is open, in use and remembered is said in specs/Search.antt.
ghost use Rattle.std.specs.Prelude.{◌≡◌};
ghost use Rattle.bank_state.specs.Search.{is_booked};

use crate::state::Use;

pub fn is_booked(used: Use) -> bool
    ensures { result ≡ is_booked used }
{
    matches!(used, Use::Booked)
}
