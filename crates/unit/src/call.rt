// One call of a record on the unit.
ghost use Rattle.std.specs.Prelude.{◌≡◌, true, cond, List, ℕ, ◌≤◌, ◌<◌, length};
ghost use Rattle.message.specs.Limits.{file_bytes};
ghost use Rattle.calendar.specs.ValueDay.{value_day};
ghost use Rattle.bank_steps.specs.Lent.{Lent, lent};
ghost use Rattle.bank_session.specs.Session.{count_call};
ghost use Rattle.client_run.specs.Run.{lent_of};
ghost use Rattle.client.specs.Calls.{call_of};
ghost use Rattle.unit_state.specs.Records.{head_of, time_of, nonce_of, booking_time_of, run_of, is_run, run_count};
ghost use Rattle.journal.specs.declared.event.Event as row-event;
ghost use Rattle.unit_state.specs.declared.state.Run.{Run};
ghost use Rattle.unit_state.specs.declared.state.UnitState.{UnitState};
ghost use Rattle.unit_state.specs.State.{rooms_bytes, unit_of};
ghost use Rattle.unit_rows.specs.Rows.{runs_from, journal_from, unit_from};
ghost use Rattle.unit_rows.specs.Lines.{Lines, lines_of};
ghost use Rattle.unit.specs.State.{Memory, memory, state_of};
ghost use Rattle.unit.specs.Call.{Ready, rooms_right, after_call, frame_answer, file_answer, run_answer};
ghost use Rattle.unit.specs.Call.{journal_answer, frame_step, file_step, index_of, begins, terms_of, params_of};
ghost use Rattle.unit.specs.Call.{event_call, room_call, keeps, with_client, next_run, kept_payloads, run_call_of, run_call};
ghost use Rattle.unit.specs.Call.{run_step, journal_step, value_day_answer, count_answer, unit_call};

use crate::images::{away_call, image_call, take_up_call};
use crate::lines::{make_call, put_in_call};
use bank::mailbox::FileRefusal;
use bank_session::calls::{frame_core, put_file};
use bank_session::report::count_openings;
use bank_state::limits::ID_BYTES;
use bank_state::store::{append, file_of};
use calendar::dates::Date;
use calendar::value_day::value_day;
use client::calls::{Client, Outcome};
use client_run::run::{
    Answer as ClientAnswer, NONCE_BYTES, Refusal, RunParameters, RunTerms, Word, order_name,
};
use journal::event::RECORD_COUNT;
use message::directions::Direction;
use message::editions::Edition;
use message::limits::FILE_BYTES;
use number_table::table::{TooLate, WRONG_LENGTH, WrongLength};
use octets::bytes::copy;
use opening_counts::seven::Counts;
use unit_rows::events::{ROW_SIZE, enter, journal_of};
use unit_rows::lines::{LINES_SIZE, STORES_BYTES};
use unit_rows::runs::{NONCES_SIZE, RUNS_SIZE, run_at, set_run};
use unit_state::answer::Answer;
use unit_state::record::{
    BANK_TIME_AT, BOOKING_AT, EDITION_AT, EDITION_BYTES, Event, FIRST_AT, FIRST_BYTES, IDS_AT,
    Kind, MAILBOX_AT, MAILBOX_BYTES, NONCE_AT, ORDER_AT, ORDER_BYTES, ROOM_BYTES, RUN_BYTES,
    RUN_NUMBER_AT, SUBSCRIBER_AT, SUBSCRIBER_BYTES, TIME_AT, TIME_BYTES, body_of, bytes_at,
    call_of, edition_of, number_at,
};
use unit_state::state::{ROOMS_BYTES, Run};

// A run after a call, and the call's answer.
#[derive(Clone, Copy)]
struct RunOut {
    pub run: Run,
    pub answer: Answer,
}

// What the bank's answer to a frame says. Functions and no `From`, here and below: both types are of crates below.
fn frame_answer(answer: Result<usize, WrongLength>) -> Answer
    ensures { result ≡ frame_answer answer }
{
    match answer {
        Ok(n) => Answer::Frame(n),
        Err(refusal) => Answer::Number(refusal.into()),
    }
}

// What the bank's answer to a file says.
fn file_answer(answer: Result<(), FileRefusal>) -> Answer
    ensures { result ≡ file_answer answer }
{
    match answer {
        Ok(()) => Answer::Put,
        Err(refusal) => Answer::Number(refusal.into()),
    }
}

// What a client's answer says.
fn run_answer(answer: Result<ClientAnswer, Refusal>, client: Client) -> Answer
    ensures { result ≡ run_answer answer client.run }
{
    match answer {
        Ok(ClientAnswer::Request(n)) => Answer::Request(n),
        Ok(ClientAnswer::Ignored) => Answer::Ignored,
        Ok(ClientAnswer::Closed(w)) => Answer::Closed(w, order_name(client.run)),
        Err(refusal) => Answer::Number(refusal.into()),
    }
}

// What a client's answer to the journal says.
fn journal_answer(answer: Result<Option<Word>, WrongLength>, client: Client) -> Answer
    ensures { result ≡ journal_answer answer client.run }
{
    match answer {
        Ok(Some(w)) => Answer::Closed(w, order_name(client.run)),
        Ok(None) => Answer::Unchanged,
        Err(refusal) => Answer::Number(refusal.into()),
    }
}

// What a value day says.
fn value_day_answer(answer: Result<Date, TooLate>) -> Answer
    ensures { result ≡ value_day_answer answer }
{
    match answer {
        Ok(date) => Answer::Day(date),
        Err(refusal) => Answer::Number(refusal.into()),
    }
}

// The value day of the booking time in a record.
fn value_day_call(record: &[u8]) -> Answer
    ensures { result ≡ value_day_answer (value_day (booking_time_of «record».now)) }
{
    value_day_answer(value_day(number_at(record, BOOKING_AT, TIME_BYTES)))
}

// What the counts' answer says.
fn count_answer(answer: Result<Counts, WrongLength>) -> Answer
    ensures { result ≡ count_answer answer }
{
    match answer {
        Ok(c) => Answer::Counted(c),
        Err(refusal) => Answer::Number(refusal.into()),
    }
}

// The seven counts of the session.
fn count_call(rows: &[u64]) -> Answer
    ensures { result ≡ count_answer (count_call rows.now) }
{
    count_answer(count_openings(rows))
}

// The nonce bytes of a record.
fn nonce_of(record: &[u8]) -> [u8; NONCE_BYTES]
    requires { head_of (Kind.Run Event.Download) ≤ length «record».now }
    ensures { result ≡ nonce_of «record».now }
{
    let mut nonce = [0u8; NONCE_BYTES];
    copy(&mut nonce, 0, bytes_at(record, NONCE_AT, NONCE_BYTES));
    nonce
}

// The index of the run that a record names.
fn index_of(record: &[u8]) -> usize
    requires { is_run (run_of «record».now) ≡ true }
    ensures { (result ≡ index_of «record».now) × (result < run_count) }
{
    (number_at(record, RUN_NUMBER_AT, RUN_BYTES) - 1) as usize
}

// A frame to the bank, with the unit's journal.
fn frame_call(
    row: &mut [u64; ROW_SIZE],
    record: &[u8],
    rows: &mut [u64],
    orders: &mut [u8],
    mailboxes: &mut [u8],
    buffer: &mut [u8],
) -> Answer
    ensures { (runs : List Run) (p f room : List ℕ) (l : Lines)
        → after_call (unit_of runs (journal_from row.new))
        (memory (lent rows.new orders.new mailboxes.new) p f
        buffer.new room l) result
        ≡ frame_step (state_of (unit_of runs (journal_from row.old))
        (memory (lent rows.old orders.old mailboxes.old) p f
        buffer.old room l)) «record».now }
{
    let c = frame_core(
        rows,
        RECORD_COUNT,
        number_at(record, BANK_TIME_AT, TIME_BYTES),
        bytes_at(record, IDS_AT, ID_BYTES),
        body_of(Kind::Frame, record),
        orders,
        mailboxes,
        buffer,
    );
    enter(row, c.before, c.clock, c.batch);
    frame_answer(c.out.answer)
}

// A file into a mailbox.
fn file_call(record: &[u8], rows: &mut [u64], mailboxes: &mut [u8]) -> Answer
    ensures { (u : UnitState) (o p f b room : List ℕ) (l : Lines)
        → after_call u (memory (lent rows.new o mailboxes.new) p f b room l) result
        ≡ file_step (state_of u (memory (lent rows.old o mailboxes.old) p f b room l))
        «record».now }
{
    let answer = put_file(
        rows,
        number_at(record, MAILBOX_AT, MAILBOX_BYTES),
        body_of(Kind::File, record),
        mailboxes,
    );
    file_answer(answer)
}

// Whether an event begins its run.
fn begins(event: Event) -> bool
    ensures { result ≡ begins event }
{
    matches!(event, Event::Upload | Event::Download)
}

// The nonce bytes lent to a call: the record's to a begin, those kept to a later call.
fn nonce_for(begin: bool, record: &[u8], kept: [u8; NONCE_BYTES]) -> [u8; NONCE_BYTES]
    requires { begin ≡ true → head_of (Kind.Run Event.Download) ≤ length «record».now }
    ensures { result ≡ cond begin (nonce_of «record».now) kept }
{
    if begin { nonce_of(record) } else { kept }
}

// The payload lent to a call: the record's to a begin, the one kept to a later call.
fn payload_for<'a>(begin: bool, body: &'a [u8], kept: &'a [u8]) -> &'a [u8]
    ensures { result.now ≡ cond begin body.now kept.now }
{
    if begin { body } else { kept }
}

// The terms that a record brings: an upload's edition and order number.
fn terms_of(direction: Direction, record: &[u8]) -> RunTerms
    ensures { result ≡ terms_of direction «record».now }
{
    match direction {
        Direction::Upload => RunTerms {
            edition: edition_of(number_at(record, EDITION_AT, EDITION_BYTES)),
            number: number_at(record, ORDER_AT, ORDER_BYTES),
        },
        Direction::Download => RunTerms {
            edition: Edition::V25,
            number: 0,
        },
    }
}

// What a record begins its run with.
fn params_of(direction: Direction, record: &[u8]) -> RunParameters
    ensures { result ≡ params_of direction «record».now }
{
    RunParameters {
        direction,
        subscriber: number_at(record, SUBSCRIBER_AT, SUBSCRIBER_BYTES),
        first: number_at(record, FIRST_AT, FIRST_BYTES),
        terms: terms_of(direction, record),
    }
}

// What a call to a client's run reads: the record, the nonce bytes and the payload.
#[derive(Clone, Copy)]
struct Given<'a> {
    pub record: &'a [u8],
    pub nonce: [u8; NONCE_BYTES],
    pub payload: &'a [u8],
}

// A client's call by the event of a record.
fn event_call(
    event: Event,
    client: Client,
    given: Given,
    file: &mut [u8],
    buffer: &mut [u8],
) -> Outcome
    ensures { call_of result file.new buffer.new
        ≡ event_call event client.run given.entry.record.now
        (lent_of (time_of given.entry.record.now) given.entry.nonce given.entry.payload.now file.old
        buffer.old) }
{
    let Given {
        record,
        nonce,
        payload,
    } = given;
    let time = number_at(record, TIME_AT, TIME_BYTES);
    match event {
        Event::Upload => {
            let params = params_of(Direction::Upload, record);
            client.begin(params, time, nonce, payload, file, buffer)
        }
        Event::Download => {
            let params = params_of(Direction::Download, record);
            client.begin(params, time, nonce, payload, file, buffer)
        }
        Event::Reply => {
            let body = body_of(Kind::Run(Event::Reply), record);
            client.reply(body, time, nonce, payload, file, buffer)
        }
        Event::NoReply => client.no_reply(time, nonce, payload, file, buffer),
    }
}

// A client's call with the file buffer of run i.
fn room_call(
    event: Event,
    client: Client,
    i: usize,
    given: Given,
    files: &mut [u8],
    buffer: &mut [u8],
) -> Outcome
    requires { (i < run_count) × (length files.old ≡ rooms_bytes) }
    ensures { call_of result files.new buffer.new
        ≡ room_call event client.run i given.entry.record.now
        (lent_of (time_of given.entry.record.now) given.entry.nonce given.entry.payload.now files.old
        buffer.old) }
{
    let from = i * FILE_BYTES;
    let end = from + FILE_BYTES;
    event_call(event, client, given, &mut files[from..end], buffer)
}

// Whether a call keeps its nonce bytes and payload: a begin that was given no number.
fn keeps(begin: bool, answer: Result<ClientAnswer, Refusal>) -> bool
    ensures { result ≡ keeps begin answer }
{
    begin && answer.is_ok()
}

// The run with its client's next record; what it keeps stays.
fn with_client(run: Run, client: Client) -> Run
    ensures { result ≡ with_client run client.run }
{
    Run { client, ..run }
}

// The run after a call.
fn next_run(kept: bool, run: Run, client: Client, nonce: [u8; NONCE_BYTES], payload: u64) -> Run
    ensures { result ≡ next_run kept run client.run nonce payload }
{
    if kept {
        Run {
            client,
            nonce,
            payload,
        }
    } else {
        with_client(run, client)
    }
}

// Keeps the payload of a begin in the room of run i.
fn keep_payload(kept: bool, payloads: &mut [u8], i: usize, payload: &[u8])
    requires { (i < run_count) × (length payloads.old ≡ rooms_bytes)
        × (kept ≡ true → length payload.now ≤ file_bytes) }
    ensures { payloads.new ≡ kept_payloads kept payloads.old i payload.now }
{
    if kept {
        append(payloads, i * FILE_BYTES, payload);
    }
}

// A call to run i by the event of a record.
fn run_event(
    run: Run,
    i: usize,
    event: Event,
    record: &[u8],
    payloads: &mut [u8],
    files: &mut [u8],
    buffer: &mut [u8],
) -> RunOut
    requires { (i < run_count) × Ready event «record».now payloads.old files.old }
    ensures { (bank : Lent) (room : List ℕ) (l : Lines)
        → run_call_of result (memory bank payloads.new files.new buffer.new room l)
        ≡ run_call event i run (memory bank payloads.old files.old buffer.old room l)
        «record».now }
{
    let begin = begins(event);
    let nonce = nonce_for(begin, record, run.nonce);
    let body = body_of(Kind::Run(event), record);
    let payload = payload_for(begin, body, file_of(payloads, i, run.payload));
    let given = Given {
        record,
        nonce,
        payload,
    };
    let o = room_call(event, run.client, i, given, files, buffer);
    let kept = keeps(begin, o.answer);
    keep_payload(kept, payloads, i, body);
    let next = next_run(kept, run, o.client, nonce, body.len() as u64);
    RunOut {
        run: next,
        answer: run_answer(o.answer, o.client),
    }
}

// A call to the client run that a record names: it is taken out of the numbers and put back.
fn run_call(
    runs: &mut [u64; RUNS_SIZE],
    nonces: &mut [u8; NONCES_SIZE],
    event: Event,
    record: &[u8],
    payloads: &mut [u8],
    files: &mut [u8],
    buffer: &mut [u8],
) -> Answer
    requires { Ready event «record».now payloads.old files.old }
    ensures { (row : List row-event.Event) (bank : Lent) (room : List ℕ) (l : Lines)
        → after_call (unit_of (runs_from runs.new nonces.new) row)
        (memory bank payloads.new files.new buffer.new room l) result
        ≡ run_step event (state_of (unit_of (runs_from runs.old nonces.old) row)
        (memory bank payloads.old files.old buffer.old room l))
        «record».now }
{
    let i = index_of(record);
    let run = run_at(runs, nonces, i);
    let o = run_event(run, i, event, record, payloads, files, buffer);
    set_run(runs, nonces, i, o.run);
    o.answer
}

// The journal is handed to the run that a record names.
fn journal_call(
    runs: &mut [u64; RUNS_SIZE],
    nonces: &mut [u8; NONCES_SIZE],
    row: &[u64; ROW_SIZE],
    record: &[u8],
) -> Answer
    requires { is_run (run_of «record».now) ≡ true }
    ensures { (m : Memory)
        → after_call (unit_from runs.new nonces.new row.now) m result
        ≡ journal_step (state_of (unit_from runs.old nonces.old row.now) m)
        «record».now }
{
    let i = index_of(record);
    let run = run_at(runs, nonces, i);
    let held = journal_of(row);
    let o = run.client.journal_held(held);
    set_run(runs, nonces, i, with_client(run, o.client));
    journal_answer(o.answer, o.client)
}

// Whether the rooms lent for the runs, for images and for the lines are of their lengths.
#[tactic(auto, unfolding(crate::specs::Call::rooms_right))]
fn rooms_right(payloads: usize, files: usize, room: usize, lines: usize, stores: usize) -> bool
    ensures { result ≡ rooms_right payloads files room lines stores }
{
    payloads == ROOMS_BYTES
        && files == ROOMS_BYTES
        && room == ROOM_BYTES
        && lines == LINES_SIZE
        && stores == STORES_BYTES
}

// One call of a record on the unit. Rooms of another length get number 1. Each call below is lent the parts that it
// uses, and its contract says by their absence that the others stay.
pub fn call(
    runs: &mut [u64; RUNS_SIZE],
    nonces: &mut [u8; NONCES_SIZE],
    row: &mut [u64; ROW_SIZE],
    record: &[u8],
    rows: &mut [u64],
    orders: &mut [u8],
    mailboxes: &mut [u8],
    payloads: &mut [u8],
    files: &mut [u8],
    buffer: &mut [u8],
    room: &mut [u8],
    lines: &mut [u64],
    stores: &mut [u8],
) -> Answer
    ensures { after_call (unit_from runs.new nonces.new row.new)
        (memory (lent rows.new orders.new mailboxes.new)
        payloads.new files.new buffer.new room.new
        (lines_of lines.new stores.new)) result
        ≡ unit_call (state_of (unit_from runs.old nonces.old row.old)
        (memory (lent rows.old orders.old mailboxes.old)
        payloads.old files.old buffer.old room.old
        (lines_of lines.old stores.old)))
        «record».now }
{
    if !rooms_right(
        payloads.len(),
        files.len(),
        room.len(),
        lines.len(),
        stores.len(),
    ) {
        return Answer::Number(WRONG_LENGTH);
    }
    let kind = call_of(record);
    match kind {
        Kind::Frame => frame_call(row, record, rows, orders, mailboxes, buffer),
        Kind::File => file_call(record, rows, mailboxes),
        Kind::Run(event) => run_call(runs, nonces, event, record, payloads, files, buffer),
        Kind::Journal => journal_call(runs, nonces, row, record),
        Kind::Away => away_call(row, record, rows, orders, mailboxes, room),
        Kind::TakeUp => take_up_call(row, record, rows, orders, mailboxes, room),
        Kind::Image => image_call(record, room),
        Kind::ValueDay => value_day_call(record),
        Kind::MakeLine => make_call(record, lines, stores),
        Kind::PutIn => put_in_call(record, lines, stores, buffer),
        Kind::Counts => count_call(rows),
        Kind::NoCall => Answer::NoCall,
    }
}
