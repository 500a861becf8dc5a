// The event of a request, after the drops of its call.
ghost use Rattle.std.specs.Prelude.{◌≡◌, [], ◌∷◌, ◌++◌, ◌≤◌};
ghost use Rattle.bank_state.specs.Limits.{place_count};
ghost use Rattle.bank_rows.specs.State.{bank_of, Laid};
ghost use Rattle.journal.specs.Events.{entries_in};
ghost use Rattle.bank_events.specs.Entries.{Holds, action_kind, kind_of, signed_kind, verdict_kind, is_event};
ghost use Rattle.bank_events.specs.Entries.{action_order, order_of, verdict_order, named_order, verdict_subscriber, verdict_id, action_entries};

use crate::drops::NO_ENTRY;
use bank_rows::places::{find_upload, place_at};
use bank_state::limits::PLACE_COUNT;
use bank_verdicts::verdict::{Action, UploadAction, Verdict};
use frame_table::fields::{Bits128, Fields};
use journal::event::{Batch, Entry, Kind, MAX_ENTRIES};
use message::limits::FUL;

// What an upload's action is to the journal.
fn action_kind(action: UploadAction) -> Kind
    ensures { result ≡ action_kind action }
{
    match action {
        UploadAction::Opened(_) => Kind::Opened,
        UploadAction::Took | UploadAction::Point(_) => Kind::Unused,
        UploadAction::TookLast => Kind::Booked,
        UploadAction::Cancelled(_) => Kind::Cancelled,
    }
}

// Uploads only.
fn kind_of(action: Action) -> Kind
    ensures { result ≡ kind_of action }
{
    match action {
        Action::Upload(a) => action_kind(a),
        Action::Download(_) => Kind::Unused,
    }
}

// A signer more is an event, a signer again is none.
fn signed_kind(added: bool) -> Kind
    ensures { result ≡ signed_kind added }
{
    if added { Kind::Signed } else { Kind::Unused }
}

fn verdict_kind(verdict: Verdict) -> Kind
    ensures { result ≡ verdict_kind verdict }
{
    match verdict {
        Verdict::Unreadable | Verdict::Refused(_) => Kind::Unused,
        Verdict::Of(_, action) => kind_of(action),
        Verdict::Signed(_, added) => signed_kind(added),
    }
}

fn is_event(kind: Kind) -> bool
    ensures { result ≡ is_event kind }
{
    !matches!(kind, Kind::Unused)
}

// The order number of the open upload that a request names; 0 where there is none.
pub fn named_order(rows: &[u64], q: Fields) -> u64
    requires { Laid rows.now }
    ensures { result ≡ named_order (bank_of rows.now) q }
{
    let id = q.transaction();
    let i = find_upload(rows, q.subscriber(), id.high, id.low);
    if i < PLACE_COUNT {
        place_at(rows, i).number
    } else {
        0
    }
}

// The order number of the upload that an action is on: an opening's own, else that of the upload named.
fn action_order(action: UploadAction, named: u64) -> u64
    ensures { result ≡ action_order action named }
{
    match action {
        UploadAction::Opened(n) => n,
        _ => named,
    }
}

fn order_of(action: Action, named: u64) -> u64
    ensures { result ≡ order_of action named }
{
    match action {
        Action::Upload(a) => action_order(a, named),
        Action::Download(_) => 0,
    }
}

pub fn verdict_order(verdict: Verdict, named: u64) -> u64
    ensures { result ≡ verdict_order verdict named }
{
    match verdict {
        Verdict::Unreadable | Verdict::Refused(_) => 0,
        Verdict::Of(_, action) => order_of(action, named),
        Verdict::Signed(order, _) => order.number,
    }
}

// Whose upload a request's event is of: the subscriber's, but a signing's is the owner's.
fn verdict_subscriber(verdict: Verdict, q: Fields) -> u64
    ensures { result ≡ verdict_subscriber verdict q }
{
    match verdict {
        Verdict::Signed(..) => q.owner(),
        _ => q.subscriber(),
    }
}

// The transaction ID of the upload that a request's event is of; 0 where it has none.
fn verdict_id(verdict: Verdict) -> Bits128
    ensures { result ≡ verdict_id verdict }
{
    match verdict {
        Verdict::Unreadable | Verdict::Refused(_) => Bits128 { high: 0, low: 0 },
        Verdict::Of(transaction, _) => transaction,
        Verdict::Signed(order, _) => order.transaction,
    }
}

// No events.
pub fn no_events() -> Batch
    ensures { Holds result [] }
{
    Batch {
        count: 0,
        entries: [NO_ENTRY; MAX_ENTRIES],
    }
}

// One event more.
fn with_entry(mut batch: Batch, entry: Entry) -> Batch
    requires { batch.count ≤ place_count }
    ensures { Holds result (entries_in batch ++ (entry ∷ [])) }
{
    let n = batch.count as usize;
    batch.entries[n] = entry;
    batch.count += 1;
    batch
}

// The events of a call with the one of its request, where it has one, under this order number.
pub fn with_action(batch: Batch, verdict: Verdict, order: u64, q: Fields) -> Batch
    requires { batch.count ≤ place_count }
    ensures { Holds result (entries_in batch ++ action_entries verdict order q) }
{
    let kind = verdict_kind(verdict);
    if is_event(kind) {
        let id = verdict_id(verdict);
        let entry = Entry {
            subscriber: verdict_subscriber(verdict, q),
            order_type: FUL,
            order,
            high: id.high,
            low: id.low,
            kind,
        };
        with_entry(batch, entry)
    } else {
        batch
    }
}
