// The two calls but for the journal's row, which one is told by value and the other hands back.
ghost use Rattle.std.specs.Prelude.{◌≡◌, true, false, List, length};
ghost use Rattle.journal.specs.declared.event.Event.{Event};
ghost use Rattle.journal.specs.Events.{record_count};
ghost use Rattle.journal.specs.Row.{replaced};
ghost use Rattle.bank_session.specs.Session.{session};
ghost use Rattle.image.specs.Items.{image_sizes};
ghost use Rattle.image_records.specs.Layout.{number_count};
ghost use Rattle.image_conditions.specs.Conditions as list;
ghost use Rattle.image_calls.specs.Calls.{sizes_right, away_of, put_away_of, put_away, take_up_of, take_up};
ghost use Rattle.image_calls.specs.Calls.{numbers_from, store_from, is_admitted_image};

use bank_session::layout::SESSION_SIZE;
use bank_state::limits::STORE_BYTES;
use image::codec::{ImageRefusal, read_numbers, take_stores, write};
use image::table::image_sizes;
use image_conditions::conditions::admitted;
use image_numbers::events::row_from;
use image_numbers::numbers::{gather, scatter};
use image_records::layout::NUMBER_COUNT;
use journal::event::{Event, Kind, RECORD_COUNT};

// What taking up comes to, but for the row: its answer, whether another row is taken, and that row.
// A flag beside the row and no Option, since `take_up_core` ensures what `replaced` makes of the two.
#[derive(Drop)]
pub struct TakeUpCore {
    pub answer: Result<(), ImageRefusal>,
    pub taken: bool,
    pub row: [Event; RECORD_COUNT],
}

// Whether the session's numbers, its row and both stores have their lengths.
fn sizes_right(rows: usize, records: usize, orders: usize, mailboxes: usize) -> bool
    ensures { result ≡ sizes_right rows records orders mailboxes }
{
    rows == SESSION_SIZE
        && records == RECORD_COUNT
        && orders == STORE_BYTES
        && mailboxes == STORE_BYTES
}

// ---- putting away

// The answer where an image is written, or is not.
fn away_of(answer: Result<(), ImageRefusal>) -> Result<usize, ImageRefusal>
    ensures { result ≡ away_of answer }
{
    match answer {
        Ok(()) => Ok(image_sizes().image),
        Err(refusal) => Err(refusal),
    }
}

// A session is put away: all of it is lent but the row, of which the length is told and, where it has 64, the records.
pub fn put_away_core(
    rows: &[u64],
    records: usize,
    row: [Event; RECORD_COUNT],
    orders: &[u8],
    mailboxes: &[u8],
    buffer: &mut [u8],
) -> Result<usize, ImageRefusal>
    ensures { (l : List Event) → length l ≡ records → (records ≡ record_count → row ≡ l)
        → put_away_of result buffer.new
        ≡ put_away (session rows.now l orders.now mailboxes.now) buffer.old }
{
    if !sizes_right(rows.len(), records, orders.len(), mailboxes.len()) {
        return Err(ImageRefusal::WrongLength);
    }
    if buffer.len() < image_sizes().image {
        return Err(ImageRefusal::WrongLength);
    }
    let mut numbers = [0u64; NUMBER_COUNT];
    gather(rows, row, &mut numbers);
    if !admitted(&numbers, orders, mailboxes) {
        return Err(ImageRefusal::NotAdmitted);
    }
    away_of(write(&numbers, orders, mailboxes, buffer))
}

// ---- taking up

// Whether the numbers of an image and the stores in it hold the conditions.
fn holds_list(image: &[u8], numbers: &[u64]) -> bool
    requires { length image.now ≡ image_sizes.image }
    ensures { result ≡ list.admitted numbers.now
        (store_from 0 image.now) (store_from 1 image.now) }
{
    let f = image_sizes();
    let orders = &image[f.orders..f.orders + f.store];
    let mailboxes = &image[f.mailboxes..f.mailboxes + f.store];
    admitted(numbers, orders, mailboxes)
}

// Whether the bytes are an admitted image; then its numbers are read.
fn read_admitted(image: &[u8], numbers: &mut [u64]) -> bool
    requires { length numbers.old ≡ number_count }
    ensures { (result ≡ is_admitted_image image.now)
        × (result ≡ true → numbers.new ≡ numbers_from image.now) }
{
    match read_numbers(image, numbers) {
        Ok(()) => holds_list(image, numbers),
        Err(_) => false,
    }
}

// Nothing is taken up.
fn refused(answer: Result<(), ImageRefusal>) -> TakeUpCore
    ensures { (result.answer ≡ answer) × (result.taken ≡ false) }
{
    let none = Event {
        number: 0,
        clock: 0,
        subscriber: 0,
        order_type: 0,
        order: 0,
        high: 0,
        low: 0,
        kind: Kind::Unused,
    };
    TakeUpCore {
        answer,
        taken: false,
        row: [none; RECORD_COUNT],
    }
}

// A session is taken up: all of it is lent but the row, whose length is told.
pub fn take_up_core(
    rows: &mut [u64],
    records: usize,
    orders: &mut [u8],
    mailboxes: &mut [u8],
    image: &[u8],
) -> TakeUpCore
    ensures { (l : List Event) → length l ≡ records
        → take_up_of result.answer (session rows.new (replaced result.taken result.row l)
        orders.new mailboxes.new)
        ≡ take_up (session rows.old l orders.old mailboxes.old) image.now }
{
    if !sizes_right(rows.len(), records, orders.len(), mailboxes.len()) {
        return refused(Err(ImageRefusal::WrongLength));
    }
    let mut numbers = [0u64; NUMBER_COUNT];
    if !read_admitted(image, &mut numbers) {
        return refused(Err(ImageRefusal::NotAdmitted));
    }
    scatter(&numbers, rows);
    take_stores(image, orders, mailboxes);
    TakeUpCore {
        answer: Ok(()),
        taken: true,
        row: row_from(&numbers),
    }
}
