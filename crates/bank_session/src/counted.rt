// The bank's call on its rows, and the counts after it: moved by its verdict, and by how far the open transactions fall
// over its clock and over its request.
ghost use Rattle.std.specs.Prelude.{◌≡◌, true, [], ◌-◌, ◌≤◌};
ghost use Rattle.opening_counts.specs.Counts.{most_moved, can_grow, counts_after};
ghost use Rattle.bank_events.specs.Entries.{Holds};
ghost use Rattle.bank_steps.specs.Lent.{lent, state_of};
ghost use Rattle.bank.specs.Call.{frame_input};
ghost use Rattle.bank.specs.Journal.{entered_by, if_answered};
ghost use Rattle.bank.specs.Lent.{no_reply, lent_frame_call_of, lent_frame_call};
ghost use Rattle.bank_session.specs.Counts.{counts_over, counts_by};

use bank::call::{FrameOut, answer_sound};
use bank_clock::clock::larger;
use bank_clock::idle::idle_count;
use bank_events::actions::no_events;
use bank_lists::counts::open_count;
use bank_rows::numbers::clock;
use bank_sound::sound::is_sound;
use bank_verdicts::verdict::Verdict;
use journal::event::Batch;
use number_table::table::WrongLength;
use opening_counts::moves::counts_after;
use opening_counts::seven::Counts;

// What a call comes to: its answer, the events that it enters, and the counts after it.
#[derive(Clone, Copy)]
pub struct CountedStep {
    pub out: FrameOut,
    pub batch: Batch,
    pub counts: Counts,
}

// How many a receipt has ended besides its own download, by the open transactions before the call, those that its clock
// dropped, and those that it left.
fn others_of(before: u64, gone: u64, left: u64) -> u64
    ensures { result ≡ before - gone - left - 1 }
{
    before
        .saturating_sub(gone)
        .saturating_sub(left)
        .saturating_sub(1)
}

// The counts after a call with this answer: one given number 1 moves none.
fn moved(
    answer: Result<usize, WrongLength>,
    verdict: Verdict,
    gone: u64,
    others: u64,
    c: Counts,
) -> Counts
    requires { (can_grow c ≡ true) × (gone ≤ most_moved) × (others ≤ most_moved) }
    ensures { result ≡ counts_by answer (counts_after verdict gone others c) c }
{
    match answer {
        Ok(_) => counts_after(verdict, gone, others, c),
        Err(WrongLength) => c,
    }
}

// Number 1, no events, and the counts as they are.
fn unanswered(c: Counts) -> CountedStep
    ensures { (result.out ≡ no_reply) × Holds result.batch [] × (result.counts ≡ c) }
{
    let out = FrameOut {
        answer: Err(WrongLength),
        code: 0,
    };
    CountedStep {
        out,
        batch: no_events(),
        counts: c,
    }
}

// A frame arrives at a bank time, with the bank's rows, the ID bytes, both stores and the reply buffer lent.
pub(crate) fn answer_counted(
    rows: &mut [u64],
    time: u64,
    ids: &[u8],
    frame: &[u8],
    orders: &mut [u8],
    mailboxes: &mut [u8],
    buffer: &mut [u8],
    c: Counts,
) -> CountedStep
    requires { can_grow c ≡ true }
    ensures { (lent_frame_call_of result.out (lent rows.new orders.new mailboxes.new)
        buffer.new
        ≡ lent_frame_call (lent rows.old orders.old mailboxes.old)
        (frame_input time ids.now frame.now buffer.old))
        × Holds result.batch (if_answered result.out.answer
        (entered_by (state_of (lent rows.old orders.old mailboxes.old))
        (frame_input time ids.now frame.now buffer.old)))
        × (result.counts ≡ counts_by result.out.answer
        (counts_over (state_of (lent rows.old orders.old mailboxes.old))
        (frame_input time ids.now frame.now buffer.old) c) c) }
{
    if !is_sound(rows) {
        return unanswered(c);
    }
    let before = open_count(rows) as u64;
    let gone = idle_count(rows, larger(clock(rows), time)) as u64;
    let step = answer_sound(rows, time, ids, frame, orders, mailboxes, buffer);
    let left = open_count(rows) as u64;
    let others = others_of(before, gone, left);
    let counts = moved(step.out.answer, step.verdict, gone, others, c);
    CountedStep {
        out: step.out,
        batch: step.batch,
        counts,
    }
}
