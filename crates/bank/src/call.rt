// A frame arrives: the lent lengths, the clock and the drops, the reading, the verdict carried out, and the reply.
ghost use Rattle.std.specs.Prelude.{◌≡◌, true, ◌&&◌, List, [], ◌++◌, ℕ, ◌≤◌, eqb, leb, length};
ghost use Rattle.frame_table.specs.Names.{subscriber};
ghost use Rattle.frame_reader.specs.Reader.{read_request};
ghost use Rattle.frame_row.specs.Row.{data_of};
ghost use Rattle.bank_sound.specs.Sound.{is_sound};
ghost use Rattle.frame_table.specs.Table.{last_time};
ghost use Rattle.bank_state.specs.Limits.{place_count, store_bytes, id_bytes, reply_room};
ghost use Rattle.bank_rows.specs.State.{bank_of};
ghost use Rattle.bank_verdicts.specs.declared.verdict.Verdict.TheVariants.{Unreadable};
ghost use Rattle.bank_verdicts.specs.Judgement.{judge};
ghost use Rattle.bank_verdicts.specs.Replies.{reply_to, segment_in};
ghost use Rattle.bank.specs.Call.{Bounded, Sendable, file_segment, SentAs, verdict_by, call_verdict, frame_input};
ghost use Rattle.bank_steps.specs.Lent.{lent, state_of, Prepared};
ghost use Rattle.journal.specs.Events.{entries_in};
ghost use Rattle.bank_events.specs.Entries.{Holds};
ghost use Rattle.bank.specs.Journal.{request_entries, entered_by, if_answered};
ghost use Rattle.bank.specs.Lent.{no_reply, lent_frame_call_of, lent_respond, lent_frame_call};

use bank_clock::clock::advance;
use bank_events::actions::{named_order, no_events, verdict_order, with_action};
use bank_events::drops::drops;
use bank_rows::numbers::file_length_of;
use bank_sound::sound::is_sound;
use bank_state::limits::{ID_BYTES, IDLE_OTHERS, REPLY_ROOM, STORE_BYTES};
use bank_state::store::file_of;
use bank_steps::mailboxes::mailbox_of;
use bank_steps::steps::step;
use bank_verdicts::replies::{reply_to, segment_in};
use bank_verdicts::verdict::{Context, Verdict};
use frame_reader::reader::{data_at, read_whole_request};
use frame_table::fields::Fields;
use frame_table::table::LAST_TIME;
use frame_writer::writer::write_accepted;
use journal::event::Batch;
use message::segments::segment_of;
use number_table::table::WrongLength;
use octets::bytes::number;

// A call's answer, and the return code of its reply, 0 where there is none.
#[derive(Clone, Copy)]
pub struct FrameOut {
    pub answer: Result<usize, WrongLength>,
    pub code: u64,
}

// What a call on the bank's rows comes to: its answer, the events that it enters, and its request's verdict.
#[derive(Clone, Copy)]
pub struct FrameStep {
    pub out: FrameOut,
    pub batch: Batch,
    pub verdict: Verdict,
}

// The reply written into the lent buffer: its answer, and its return code.
fn reply_with(fields: Fields, bytes: &[u8], buffer: &mut [u8]) -> FrameOut
    requires { Sendable fields bytes.now buffer.old }
    ensures { SentAs fields bytes.now buffer.old
        result.answer result.code buffer.new }
{
    let n = write_accepted(fields, bytes, buffer);
    FrameOut {
        answer: Ok(n),
        code: fields.return_code(),
    }
}

// The bytes of a segment of a subscriber's file of n bytes; none for segment 0.
fn file_segment(mailboxes: &[u8], subscriber: u64, n: u64, segment: u64) -> &[u8]
    ensures { result.now ≡ file_segment mailboxes.now subscriber n segment }
{
    if segment == 0 {
        return &mailboxes[..0];
    }
    let file = file_of(mailboxes, mailbox_of(subscriber), n);
    segment_of(file, segment)
}

// The reply that a verdict on the request q gives; n is the length of the file in its mailbox.
fn reply(verdict: Verdict, q: Fields, n: u64, mailboxes: &[u8], buffer: &mut [u8]) -> FrameOut
    requires { Sendable (reply_to verdict q)
        (file_segment mailboxes.now (subscriber q) n (segment_in verdict q)) buffer.old }
    ensures { SentAs (reply_to verdict q)
        (file_segment mailboxes.now (subscriber q) n (segment_in verdict q))
        buffer.old result.answer result.code buffer.new }
{
    let bytes = file_segment(mailboxes, q.subscriber(), n, segment_in(verdict, q));
    reply_with(reply_to(verdict, q), bytes, buffer)
}

// A request, read, at the clock that the call has set; it enters its event after the drops.
fn respond(
    rows: &mut [u64],
    dropped: Batch,
    context: Context,
    q: Fields,
    bytes: &[u8],
    orders: &mut [u8],
    mailboxes: &mut [u8],
    buffer: &mut [u8],
) -> FrameStep
    requires { Prepared rows.old orders.old mailboxes.old × (dropped.count ≤ place_count) × Bounded q
        × (reply_room ≤ length buffer.old) }
    ensures { (lent_frame_call_of result.out (lent rows.new orders.new mailboxes.new)
        buffer.new
        ≡ lent_respond context (lent rows.old orders.old mailboxes.old)
        q bytes.now buffer.old)
        × Holds result.batch (if_answered result.out.answer (entries_in dropped
        ++ request_entries context (bank_of rows.old) q bytes.now))
        × (result.verdict ≡ verdict_by result.out.answer
        (judge context (bank_of rows.old) q (length bytes.now))) }
{
    let n = file_length_of(rows, q.subscriber());
    let named = named_order(rows, q);
    let verdict = step(rows, context, q, bytes, orders, mailboxes);
    let out = reply(verdict, q, n, mailboxes, buffer);
    let batch = with_action(dropped, verdict, verdict_order(verdict, named), q);
    FrameStep {
        out,
        batch,
        verdict,
    }
}

// Number 1, no events, and a verdict that does nothing.
fn turned_away() -> FrameStep
    ensures { (result.out ≡ no_reply) × Holds result.batch [] × (result.verdict ≡ Unreadable) }
{
    let out = FrameOut {
        answer: Err(WrongLength),
        code: 0,
    };
    FrameStep {
        out,
        batch: no_events(),
        verdict: Verdict::Unreadable,
    }
}

// Whether the lent lengths are right, and the time is not over the last one.
fn lent_right(orders: usize, mailboxes: usize, ids: usize, buffer: usize, time: u64) -> bool
    ensures { result ≡ (eqb orders store_bytes && eqb mailboxes store_bytes && eqb ids id_bytes
        && leb reply_room buffer && leb time last_time) }
{
    orders == STORE_BYTES
        && mailboxes == STORE_BYTES
        && ids == ID_BYTES
        && REPLY_ROOM <= buffer
        && time <= LAST_TIME
}

// A request, read, arrives at a bank time, with a bank's rows, the ID bytes, both stores and the reply buffer lent;
// `bytes` are its data.
pub fn answer_request(
    rows: &mut [u64],
    time: u64,
    ids: &[u8],
    q: Fields,
    bytes: &[u8],
    orders: &mut [u8],
    mailboxes: &mut [u8],
    buffer: &mut [u8],
) -> FrameStep
    requires { (is_sound rows.old ≡ true) × Bounded q }
    ensures { (frame : List ℕ) → q ≡ read_request frame → bytes.now ≡ data_of frame →
        (lent_frame_call_of result.out (lent rows.new orders.new mailboxes.new)
        buffer.new
        ≡ lent_frame_call (lent rows.old orders.old mailboxes.old)
        (frame_input time ids.now frame buffer.old))
        × Holds result.batch (if_answered result.out.answer
        (entered_by (state_of (lent rows.old orders.old mailboxes.old))
        (frame_input time ids.now frame buffer.old)))
        × (result.verdict ≡ verdict_by result.out.answer
        (call_verdict (state_of (lent rows.old orders.old mailboxes.old))
        (frame_input time ids.now frame buffer.old))) }
{
    if !lent_right(orders.len(), mailboxes.len(), ids.len(), buffer.len(), time) {
        return turned_away();
    }
    let dropped = drops(rows, time);
    advance(rows, time, orders);
    let context = Context {
        prefix: number(ids),
        others: IDLE_OTHERS,
    };
    respond(rows, dropped, context, q, bytes, orders, mailboxes, buffer)
}

// A frame arrives at a bank time, with the rows of a bank, the ID bytes, both stores and the reply buffer lent.
pub fn answer_sound(
    rows: &mut [u64],
    time: u64,
    ids: &[u8],
    frame: &[u8],
    orders: &mut [u8],
    mailboxes: &mut [u8],
    buffer: &mut [u8],
) -> FrameStep
    requires { is_sound rows.old ≡ true }
    ensures { (lent_frame_call_of result.out (lent rows.new orders.new mailboxes.new)
        buffer.new
        ≡ lent_frame_call (lent rows.old orders.old mailboxes.old)
        (frame_input time ids.now frame.now buffer.old))
        × Holds result.batch (if_answered result.out.answer
        (entered_by (state_of (lent rows.old orders.old mailboxes.old))
        (frame_input time ids.now frame.now buffer.old)))
        × (result.verdict ≡ verdict_by result.out.answer
        (call_verdict (state_of (lent rows.old orders.old mailboxes.old))
        (frame_input time ids.now frame.now buffer.old))) }
{
    let p = read_whole_request(frame);
    let bytes = data_at(frame, p.from, p.end);
    answer_request(rows, time, ids, p.fields, bytes, orders, mailboxes, buffer)
}

// A frame arrives at a bank time, with any rows, the ID bytes, both stores and the reply buffer lent.
pub fn answer_frame(
    rows: &mut [u64],
    time: u64,
    ids: &[u8],
    frame: &[u8],
    orders: &mut [u8],
    mailboxes: &mut [u8],
    buffer: &mut [u8],
) -> FrameStep
    ensures { (lent_frame_call_of result.out (lent rows.new orders.new mailboxes.new)
        buffer.new
        ≡ lent_frame_call (lent rows.old orders.old mailboxes.old)
        (frame_input time ids.now frame.now buffer.old))
        × Holds result.batch (if_answered result.out.answer
        (entered_by (state_of (lent rows.old orders.old mailboxes.old))
        (frame_input time ids.now frame.now buffer.old)))
        × (result.verdict ≡ verdict_by result.out.answer
        (call_verdict (state_of (lent rows.old orders.old mailboxes.old))
        (frame_input time ids.now frame.now buffer.old))) }
{
    if !is_sound(rows) {
        return turned_away();
    }
    answer_sound(rows, time, ids, frame, orders, mailboxes, buffer)
}
