// The two calls: a session is put away as an image, and taken up from one. They alone have the journal's row; what they
// call has its length, and its records by value.
ghost use Rattle.std.specs.Prelude.{◌≡◌};
ghost use Rattle.bank_session.specs.Session.{session};
ghost use Rattle.image_calls.specs.Calls.{put_away_of, put_away, take_up_of, take_up};

use crate::told::{put_away_core, take_up_core};
use image::codec::ImageRefusal;
use journal::event::Event;
use journal::row::{held_row, replace_row};

// A session is put away into a lent buffer, with its numbers, the journal's row and both stores lent.
pub fn put_away(
    rows: &[u64],
    row: &[Event],
    orders: &[u8],
    mailboxes: &[u8],
    buffer: &mut [u8],
) -> Result<usize, ImageRefusal>
    ensures { put_away_of result buffer.new
        ≡ put_away (session rows.now row.now orders.now mailboxes.now)
        buffer.old }
{
    let held = held_row(row);
    put_away_core(rows, row.len(), held, orders, mailboxes, buffer)
}

// A session is taken up from an image, into its numbers, the journal's row and both stores, lent.
pub fn take_up(
    rows: &mut [u64],
    row: &mut [Event],
    orders: &mut [u8],
    mailboxes: &mut [u8],
    image: &[u8],
) -> Result<(), ImageRefusal>
    ensures { take_up_of result
        (session rows.new row.new orders.new mailboxes.new)
        ≡ take_up (session rows.old row.old orders.old mailboxes.old)
        image.now }
{
    let c = take_up_core(rows, row.len(), orders, mailboxes, image);
    replace_row(row, c.row, c.taken);
    c.answer
}
