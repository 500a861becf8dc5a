// The host's calls on a session: a frame arrives, and a file goes into a mailbox. `frame_arrives` alone has the
// journal's row; what it calls has its length, and serves rows that are held as numbers.
ghost use Rattle.std.specs.Prelude.{◌≡◌, List, [], length};
ghost use Rattle.journal.specs.declared.event.Event.{Event};
ghost use Rattle.journal.specs.Row.{takes_events, row_after};
ghost use Rattle.bank_events.specs.Entries.{Holds};
ghost use Rattle.bank.specs.Call.{frame_input};
ghost use Rattle.bank.specs.Lent.{no_reply, lent_file_call_of};
ghost use Rattle.bank_session.specs.Session.{session, session_frame_call_of, session_frame_call, session_file_call};

use crate::counted::answer_counted;
use crate::layout::{EVENTS_AT, SESSION_SIZE};
use crate::numbers::{counts_in, set_numbers};
use bank::call::FrameOut;
use bank::mailbox::FileRefusal;
use bank_clock::clock::larger;
use bank_events::actions::no_events;
use bank_rows::layout::{CLOCK_AT, STATE_SIZE};
use journal::event::{Batch, Event, RECORD_COUNT};
use journal::row::enter;
use number_table::table::WrongLength;
use opening_counts::seven::can_grow;

// With as many events before, 64 bits do not hold the numbers of nine more.
const EVENTS_LIMIT: u64 = 18446744073709551607;

// What a frame call comes to, but for the row: its answer, the events before it, its clock, and the events to enter.
#[derive(Clone, Copy)]
pub struct FrameCore {
    pub out: FrameOut,
    pub before: u64,
    pub clock: u64,
    pub batch: Batch,
}

// Whether events are entered after so many in a row of so many records.
fn takes_events(records: usize, events: u64) -> bool
    ensures { result ≡ takes_events records events }
{
    records == RECORD_COUNT && events < EVENTS_LIMIT
}

// Number 1, and nothing to enter.
fn turned_away() -> FrameCore
    ensures { (result.out ≡ no_reply) × Holds result.batch [] }
{
    let out = FrameOut {
        answer: Err(WrongLength),
        code: 0,
    };
    FrameCore {
        out,
        before: 0,
        clock: 0,
        batch: no_events(),
    }
}

// A frame arrives, with all of the session lent but the row, whose length is told.
pub fn frame_core(
    rows: &mut [u64],
    records: usize,
    time: u64,
    ids: &[u8],
    frame: &[u8],
    orders: &mut [u8],
    mailboxes: &mut [u8],
    buffer: &mut [u8],
) -> FrameCore
    ensures { (row : List Event) → length row ≡ records → session_frame_call_of result.out
        (session rows.new (row_after result.before result.clock result.batch row)
        orders.new mailboxes.new) buffer.new
        ≡ session_frame_call (session rows.old row orders.old mailboxes.old)
        (frame_input time ids.now frame.now buffer.old) }
{
    if rows.len() != SESSION_SIZE {
        return turned_away();
    }
    let before = rows[EVENTS_AT];
    if !takes_events(records, before) {
        return turned_away();
    }
    let counts = counts_in(rows);
    if !can_grow(counts) {
        return turned_away();
    }
    let clock = larger(rows[CLOCK_AT], time);
    let step = answer_counted(
        &mut rows[..STATE_SIZE],
        time,
        ids,
        frame,
        orders,
        mailboxes,
        buffer,
        counts,
    );
    set_numbers(rows, before + step.batch.count, step.counts);
    FrameCore {
        out: step.out,
        before,
        clock,
        batch: step.batch,
    }
}

// A frame arrives at a bank time, with the session's numbers, the journal's row, the ID bytes, both stores and the
// reply buffer lent.
pub fn frame_arrives(
    rows: &mut [u64],
    row: &mut [Event],
    time: u64,
    ids: &[u8],
    frame: &[u8],
    orders: &mut [u8],
    mailboxes: &mut [u8],
    buffer: &mut [u8],
) -> FrameOut
    ensures { session_frame_call_of result
        (session rows.new row.new orders.new mailboxes.new) buffer.new
        ≡ session_frame_call
        (session rows.old row.old orders.old mailboxes.old)
        (frame_input time ids.now frame.now buffer.old) }
{
    let c = frame_core(rows, row.len(), time, ids, frame, orders, mailboxes, buffer);
    enter(row, c.before, c.clock, c.batch);
    c.out
}

// A file goes into a mailbox, with the session's numbers and the mailboxes' store lent.
pub fn put_file(
    rows: &mut [u64],
    mailbox: u64,
    file: &[u8],
    mailboxes: &mut [u8],
) -> Result<(), FileRefusal>
    ensures { lent_file_call_of result rows.new mailboxes.new
        ≡ session_file_call rows.old mailbox file.now mailboxes.old }
{
    if rows.len() != SESSION_SIZE {
        return Err(FileRefusal::WrongLength);
    }
    bank::mailbox::put_file(&mut rows[..STATE_SIZE], mailbox, file, mailboxes)
}
