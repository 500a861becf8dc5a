// The booked order that a signing names.
ghost use Rattle.std.specs.Prelude.{◌≡◌};
ghost use Rattle.bank_rows.specs.State.{bank_of, Laid};
ghost use Rattle.bank_verdicts.specs.Refusals.{is_order, find_order};

use bank_rows::places::place_at;
use bank_state::limits::PLACE_COUNT;
use bank_state::search::is_booked;
use bank_state::state::Place;
use message::order_numbers::order_number_of;

// Whether a place holds the booked order of this owner with this order number.
#[tactic(auto, unfolding(bank_verdicts::specs::Refusals::is_order))]
fn is_order(p: Place, owner: u64, order: u64) -> bool
    ensures { result ≡ is_order owner order p }
{
    is_booked(p.used) && p.subscriber == owner && order_number_of(p.number) == order
}

// The place of a booked order; the number of places where there is none, as `find_order` of specs/ has it.
pub fn find_order(rows: &[u64], owner: u64, order: u64) -> usize
    requires { Laid rows.now }
    ensures { result ≡ find_order owner order (bank_of rows.now) }
{
    for i in 0..PLACE_COUNT {
        if is_order(place_at(rows, i), owner, order) {
            return i;
        }
    }
    PLACE_COUNT
}
