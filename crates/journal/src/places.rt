// Which places of the row change where the events of one call are entered, and which event each is given.
ghost use Rattle.std.specs.Prelude.{◌≡◌, ◌+◌, ◌<◌, ◌^◌};
ghost use Rattle.journal.specs.Events.{max_entries, event_at};
ghost use Rattle.journal.specs.Places.{used_after, entered_count, places_of};

use crate::event::{Batch, Event, MAX_ENTRIES, RECORD_COUNT};

// The places that change: those from `first` on are given the record `by` places further on, and those from `start` on
// the events, to the place before `end`.
#[derive(Clone, Copy)]
pub struct Places {
    pub by: usize,
    pub first: usize,
    pub start: usize,
    pub end: usize,
}

// How many records are in use after so many events.
#[tactic(auto, unfolding(crate::specs::Places::used_after))]
fn used_after(events: u64) -> usize
    ensures { result ≡ used_after events }
{
    events.min(RECORD_COUNT as u64) as usize
}

// How many events are entered: none in a row of another length, or where 64 bits do not hold the numbers of MAX_ENTRIES
// more.
#[tactic(auto, unfolding(crate::specs::Places::entered_count, crate::specs::Events::count_of))]
fn entered_count(records: usize, events: u64, count: u64) -> usize
    ensures { result ≡ entered_count records events count }
{
    if records == RECORD_COUNT && events.checked_add(MAX_ENTRIES as u64).is_some() {
        count.min(MAX_ENTRIES as u64) as usize
    } else {
        0
    }
}

// The places that change in a row of so many records, where so many events more are entered after the others.
pub fn places_of(records: usize, events: u64, count: u64) -> Places
    ensures { result ≡ places_of records events count }
{
    let used = used_after(events);
    let end = used + entered_count(records, events, count);
    if end <= RECORD_COUNT {
        return Places {
            by: 0,
            first: used,
            start: used,
            end,
        };
    }
    let by = end - RECORD_COUNT;
    let start = used - by;
    Places {
        by,
        first: 0,
        start,
        end: RECORD_COUNT,
    }
}

// The event of entry k of the batch, after so many others.
pub fn event_at(events: u64, clock: u64, batch: Batch, k: usize) -> Event
    requires { (events + max_entries < 2 ^ 64) × (k < max_entries) }
    ensures { result ≡ event_at events clock batch k }
{
    let entry = batch.entries[k];
    Event {
        number: events + 1 + k as u64,
        clock,
        subscriber: entry.subscriber,
        order_type: entry.order_type,
        order: entry.order,
        high: entry.high,
        low: entry.low,
        kind: entry.kind,
    }
}
