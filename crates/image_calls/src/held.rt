// The two calls with the journal's row by value, for programs.
ghost use Rattle.std.specs.Prelude.{◌≡◌};
ghost use Rattle.bank_session.specs.Session.{session};
ghost use Rattle.image_calls.specs.Calls.{put_away_of, put_away, take_up_of, take_up};

use crate::told::{put_away_core, take_up_core};
use image::codec::ImageRefusal;
use journal::event::{Event, RECORD_COUNT};

// The answer of taking up, and the row after it.
#[derive(Drop)]
pub struct TakeUpHeld {
    pub answer: Result<(), ImageRefusal>,
    pub row: [Event; RECORD_COUNT],
}

// A session is put away into the buffer.
pub fn put_away_held(
    rows: &[u64],
    row: [Event; RECORD_COUNT],
    orders: &[u8],
    mailboxes: &[u8],
    buffer: &mut [u8],
) -> Result<usize, ImageRefusal>
    ensures { put_away_of result buffer.new
        ≡ put_away (session rows.now row orders.now mailboxes.now)
        buffer.old }
{
    put_away_core(rows, RECORD_COUNT, row, orders, mailboxes, buffer)
}

// A session is taken up from an image.
pub fn take_up_held(
    rows: &mut [u64],
    row: [Event; RECORD_COUNT],
    orders: &mut [u8],
    mailboxes: &mut [u8],
    image: &[u8],
) -> TakeUpHeld
    ensures { take_up_of result.answer
        (session rows.new result.row orders.new mailboxes.new)
        ≡ take_up (session rows.old row orders.old mailboxes.old)
        image.now }
{
    let c = take_up_core(rows, RECORD_COUNT, orders, mailboxes, image);
    let answer = c.answer;
    if c.taken {
        let row = c.row;
        TakeUpHeld { answer, row }
    } else {
        TakeUpHeld { answer, row }
    }
}
