// The bank's own numbering of a subscriber's uploads.
ghost use Rattle.std.specs.Prelude.{◌≡◌, ◌<◌};
ghost use Rattle.bank_state.specs.Limits.{series_limit};
ghost use Rattle.bank_state.specs.Numbers.{next_number};
ghost use Rattle.bank_state.specs.State.{series_of};
ghost use Rattle.bank_rows.specs.State.{bank_of, Laid};

use bank_rows::numbers::series_of;
use bank_rows::places::is_number_held;
use bank_state::limits::PLACE_COUNT;

// The first number from the subscriber's counter on that no place in use of the subscriber holds.
pub fn next_number(rows: &[u64], subscriber: u64) -> u64
    requires { Laid rows.now × (series_of subscriber (bank_of rows.now).series < series_limit) }
    ensures { result ≡ next_number subscriber (bank_of rows.now) }
{
    let first = series_of(rows, subscriber);
    let end = first + PLACE_COUNT as u64;
    for n in first..end {
        if !is_number_held(rows, subscriber, n) {
            return n;
        }
    }
    end
}
