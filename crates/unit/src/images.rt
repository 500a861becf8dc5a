// The calls on images: the session is put away into the image room and taken up from it, and bytes go into the room.
ghost use Rattle.std.specs.Prelude.{◌≡◌, List, ℕ, ◌+◌, ◌≤◌, length};
ghost use Rattle.bank_steps.specs.Lent.{Lent, lent};
ghost use Rattle.unit_state.specs.Records.{lent_length_of, offset_of, size_of};
ghost use Rattle.unit_state.specs.declared.state.Run.{Run};
ghost use Rattle.unit_state.specs.declared.state.UnitState.{UnitState};
ghost use Rattle.unit_state.specs.State.{unit_of};
ghost use Rattle.unit_rows.specs.Rows.{journal_from};
ghost use Rattle.unit_rows.specs.Lines.{Lines};
ghost use Rattle.unit.specs.State.{memory, state_of};
ghost use Rattle.unit.specs.Call.{after_call, away_answer, taken_up_answer};
ghost use Rattle.unit.specs.Call.{away_step, take_up_step, image_step};

use image::codec::ImageRefusal;
use image_calls::held::{put_away_held, take_up_held};
use octets::bytes::{copy, front};
use unit_rows::events::{ROW_SIZE, journal_of, set_journal};
use unit_state::answer::Answer;
use unit_state::record::{Kind, body_of, lent_length, offset_of};

// What the answer of putting away says.
fn away_answer(answer: Result<usize, ImageRefusal>) -> Answer
    ensures { result ≡ away_answer answer }
{
    match answer {
        Ok(n) => Answer::Away(n),
        Err(refusal) => Answer::Number(refusal.into()),
    }
}

// What the answer of taking up says.
fn taken_up_answer(answer: Result<(), ImageRefusal>) -> Answer
    ensures { result ≡ taken_up_answer answer }
{
    match answer {
        Ok(()) => Answer::TakenUp,
        Err(refusal) => Answer::Number(refusal.into()),
    }
}

// The session is put away into the front of the image room.
pub(crate) fn away_call(
    row: &[u64; ROW_SIZE],
    record: &[u8],
    rows: &[u64],
    orders: &[u8],
    mailboxes: &[u8],
    room: &mut [u8],
) -> Answer
    requires { lent_length_of «record».now ≤ length room.old }
    ensures { (runs : List Run) (p f b : List ℕ) (l : Lines)
        → after_call (unit_of runs (journal_from row.now))
        (memory (lent rows.now orders.now mailboxes.now) p f b
        room.new l) result
        ≡ away_step (state_of (unit_of runs (journal_from row.now))
        (memory (lent rows.now orders.now mailboxes.now) p f b
        room.old l)) «record».now }
{
    let n = lent_length(record);
    let held = journal_of(row);
    let answer = put_away_held(rows, held, orders, mailboxes, &mut room[..n]);
    away_answer(answer)
}

// The session is taken up from the front of the image room.
pub(crate) fn take_up_call(
    row: &mut [u64; ROW_SIZE],
    record: &[u8],
    rows: &mut [u64],
    orders: &mut [u8],
    mailboxes: &mut [u8],
    room: &[u8],
) -> Answer
    ensures { (runs : List Run) (p f b : List ℕ) (l : Lines)
        → after_call (unit_of runs (journal_from row.new))
        (memory (lent rows.new orders.new mailboxes.new) p f b
        room.now l) result
        ≡ take_up_step (state_of (unit_of runs (journal_from row.old))
        (memory (lent rows.old orders.old mailboxes.old) p f b
        room.now l)) «record».now }
{
    let n = lent_length(record);
    let held = journal_of(row);
    let o = take_up_held(rows, held, orders, mailboxes, front(room, n));
    set_journal(row, o.row);
    taken_up_answer(o.answer)
}

// The record's bytes go into the image room.
pub(crate) fn image_call(record: &[u8], room: &mut [u8]) -> Answer
    requires { offset_of «record».now + size_of Kind.Image «record».now ≤ length room.old }
    ensures { (u : UnitState) (bank : Lent) (p f b : List ℕ) (l : Lines)
        → after_call u (memory bank p f b room.new l) result
        ≡ image_step (state_of u (memory bank p f b room.old l)) «record».now }
{
    copy(room, offset_of(record), body_of(Kind::Image, record));
    Answer::Room
}
