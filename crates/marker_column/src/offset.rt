// The offset of an opening: its timestamp less the clock, as a signed number.
ghost use Rattle.std.specs.Prelude.{◌≡◌, ◌+◌, ◌≤◌, length};
ghost use Rattle.frame_table.specs.Table.{last_time};
ghost use Rattle.print.specs.Text.{Put};
ghost use Rattle.marker_column.specs.Offset.{offset_of, opens, is_opening, shows_offset, Timed, request_offset};
ghost use Rattle.marker_column.specs.Offset.{offset_room};

use frame_table::fields::Fields;
use frame_table::table::{Form, RequestForm};
use print::text::{put_byte, put_signed};

// The most bytes of an offset: a hyphen, and the digits of a number.
pub const OFFSET_ROOM: usize = 1 + 20;

// The timestamp minus the clock. Both are at most the last time, so that no difference wraps.
fn offset(timestamp: u64, clock: u64) -> i64
    requires { (timestamp ≤ last_time) × (clock ≤ last_time) }
    ensures { result ≡ offset_of timestamp clock }
{
    timestamp as i64 - clock as i64
}

// Whether the request form is one of an opening.
fn opens(form: RequestForm) -> bool
    ensures { result ≡ opens form }
{
    matches!(
        form,
        RequestForm::UploadOpening
            | RequestForm::DownloadOpening
            | RequestForm::Signing
            | RequestForm::ChosenOpening
    )
}

// Whether the form is one of an opening.
fn is_opening(form: Form) -> bool
    ensures { result ≡ is_opening form }
{
    match form {
        Form::Request(x) => opens(x),
        _ => false,
    }
}

// Whether a call with a request of this form shows an offset.
fn shows_offset(answered: bool, form: Form) -> bool
    ensures { result ≡ shows_offset answered form }
{
    answered && is_opening(form)
}

// Writes the offset of the request at this clock, or a hyphen where the call shows none.
pub fn put_offset(output: &mut [u8], at: usize, answered: bool, q: Fields, clock: u64) -> usize
    requires { (at + offset_room ≤ length output.old) × (clock ≤ last_time) × Timed q }
    ensures { Put output.old at (request_offset answered q clock) output.new result }
{
    if shows_offset(answered, q.form()) {
        put_signed(output, at, offset(q.timestamp(), clock))
    } else {
        put_byte(output, at, b'-')
    }
}
