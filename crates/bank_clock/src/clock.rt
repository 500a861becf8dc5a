// The clock, and the transactions and nonces that it drops.
ghost use Rattle.std.specs.Prelude.{◌≡◌, ◌&&◌, List, ℕ, ◌<◌, max, length};
ghost use Rattle.bank_state.specs.Limits.{place_count, store_bytes};
ghost use Rattle.bank_state.specs.Clock.{is_idle, drop_upload, drop_uploads, at_clock, advanced};
ghost use Rattle.bank_state.specs.Search.{is_open};
ghost use Rattle.bank_state.specs.State.{bank_state, place_at};
ghost use Rattle.bank_rows.specs.State.{bank_of, stored, Laid, StoredWith};

use bank_lists::downloads::end_downloads;
use bank_lists::nonces::forget;
use bank_rows::layout::{PLACE_LAST, PLACE_WIDTH, PLACES_AT};
use bank_rows::numbers::{clock, set_clock};
use bank_rows::places::{is_open_at, set_place};
use bank_state::clock::{Ended, is_behind};
use bank_state::limits::{IDLE_LIMIT, PLACE_COUNT};
use bank_state::state::no_place;
use bank_state::store::zero;

// Whether place i holds an open upload that is idle at this clock.
pub fn is_idle_upload(rows: &[u64], i: usize, clock: u64) -> bool
    requires { Laid rows.now × (i < place_count) }
    ensures { result ≡ (is_open (place_at (bank_of rows.now) i).used
        && is_idle clock (place_at (bank_of rows.now) i).last) }
{
    let at = PLACES_AT + PLACE_WIDTH * i;
    is_open_at(rows, i) && is_behind(clock, rows[at + PLACE_LAST], IDLE_LIMIT)
}

// Drops the upload in place i where it is idle.
fn drop_upload(rows: &mut [u64], i: usize, orders: &mut [u8])
    requires { Laid rows.old × (length orders.old ≡ store_bytes) × (i < place_count) }
    ensures { (mailboxes : List ℕ) → StoredWith
        (drop_upload i (bank_state (bank_of rows.old) orders.old mailboxes))
        rows.old rows.new orders.new }
{
    let at = clock(rows);
    if is_idle_upload(rows, i, at) {
        set_place(rows, i, no_place());
        zero(orders, i);
    }
}

// Drops every idle upload.
fn drop_uploads(rows: &mut [u64], orders: &mut [u8])
    requires { Laid rows.old × (length orders.old ≡ store_bytes) }
    ensures { (mailboxes : List ℕ) → StoredWith
        (drop_uploads place_count (bank_state (bank_of rows.old) orders.old mailboxes))
        rows.old rows.new orders.new }
{
    for i in 0..PLACE_COUNT {
        drop_upload(rows, i, orders);
    }
}

pub fn larger(x: u64, y: u64) -> u64
    ensures { result ≡ max x y }
{
    x.max(y)
}

// The state at a clock, but for its uploads.
fn set_to(rows: &mut [u64], clock: u64)
    requires { Laid rows.old }
    ensures { rows.new ≡ stored (at_clock clock (bank_of rows.old)) rows.old }
{
    set_clock(rows, clock);
    end_downloads(rows, Ended::Idle(clock));
    forget(rows, clock);
}

// Sets the clock to the larger of its old value and the time given, and drops what is idle and forgets what is old.
pub fn advance(rows: &mut [u64], time: u64, orders: &mut [u8])
    requires { Laid rows.old × (length orders.old ≡ store_bytes) }
    ensures { (mailboxes : List ℕ) → StoredWith
        (advanced time (bank_state (bank_of rows.old) orders.old mailboxes))
        rows.old rows.new orders.new }
{
    let at = larger(clock(rows), time);
    set_to(rows, at);
    drop_uploads(rows, orders);
}
