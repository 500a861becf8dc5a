// The seven reply forms and the reply to a chosen opening, each as the fields that it has.
ghost use Rattle.std.specs.Prelude.{◌≡◌};
ghost use Rattle.message.specs.Replies.{reply_of, with_code, upload_opened, with_segment, download_opened, point_of};
ghost use Rattle.message.specs.Replies.{segment_taken, recovery_point, download_segment, receipt_answered};
ghost use Rattle.message.specs.Replies.{unreadable, refusal, chosen_opened};

use crate::codes::{ReturnCode, code_field};
use crate::limits::{INITIALISATION_PHASE, RECEIPT_PHASE, TRANSFER_PHASE};
use frame_table::fields::{Bits128, Fields};
use frame_table::table::{
    DATA, EXCHANGE, LAST_MARK, ORDER_NUMBER, PHASE, RETURN_CODE, SEGMENT, SEGMENTS, TRANSACTION,
};

// 01 03, which stand in every reply but the one to an unreadable request.
fn reply_of(phase: u64, exchange: u64) -> Fields
    ensures { result ≡ reply_of phase exchange }
{
    Fields::none().with(PHASE, phase).with(EXCHANGE, exchange)
}

// 0D.
fn with_code(code: ReturnCode, fields: Fields) -> Fields
    ensures { result ≡ with_code code fields }
{
    fields.with(RETURN_CODE, code_field(code))
}

// Upload opened: 01 03 08 0D 0E.
pub fn upload_opened(exchange: u64, transaction: Bits128, order_number: u64) -> Fields
    ensures { result ≡ upload_opened exchange transaction order_number }
{
    chosen_opened(exchange, transaction).with(ORDER_NUMBER, order_number)
}

// Opened with the order number that the request brought, of edition 2.4: 01 03 08 0D.
pub fn chosen_opened(exchange: u64, transaction: Bits128) -> Fields
    ensures { result ≡ chosen_opened exchange transaction }
{
    with_code(
        ReturnCode::Ok,
        reply_of(INITIALISATION_PHASE, exchange).with_wide(TRANSACTION, transaction),
    )
}

// 09 0A 0B; the data stands beside the fields.
fn with_segment(segment: u64, last_mark: u64, fields: Fields) -> Fields
    ensures { result ≡ with_segment segment last_mark fields }
{
    fields
        .with(SEGMENT, segment)
        .with(LAST_MARK, last_mark)
        .with(DATA, 0)
}

// Download opened: 01 03 07 08 09 0A 0B 0D, with segment 1.
pub fn download_opened(exchange: u64, segments: u64, transaction: Bits128, last_mark: u64) -> Fields
    ensures { result ≡ download_opened exchange segments transaction last_mark }
{
    let opened = reply_of(INITIALISATION_PHASE, exchange)
        .with(SEGMENTS, segments)
        .with_wide(TRANSACTION, transaction);
    with_code(ReturnCode::Ok, with_segment(1, last_mark, opened))
}

// 01 03 08 09 0D.
fn point_of(
    phase: u64,
    exchange: u64,
    transaction: Bits128,
    segment: u64,
    code: ReturnCode,
) -> Fields
    ensures { result ≡ point_of phase exchange transaction segment code }
{
    with_code(
        code,
        reply_of(phase, exchange)
            .with_wide(TRANSACTION, transaction)
            .with(SEGMENT, segment),
    )
}

// Upload segment taken: 01 03 08 09 0D.
pub fn segment_taken(exchange: u64, transaction: Bits128, segment: u64) -> Fields
    ensures { result ≡ segment_taken exchange transaction segment }
{
    point_of(
        TRANSFER_PHASE,
        exchange,
        transaction,
        segment,
        ReturnCode::Ok,
    )
}

// Recovery point: 01 03 08 09 0D, of the point's phase.
pub fn recovery_point(phase: u64, exchange: u64, transaction: Bits128, segment: u64) -> Fields
    ensures { result ≡ recovery_point phase exchange transaction segment }
{
    point_of(
        phase,
        exchange,
        transaction,
        segment,
        ReturnCode::RecoverySync,
    )
}

// Download segment: 01 03 08 09 0A 0B 0D.
pub fn download_segment(exchange: u64, transaction: Bits128, segment: u64, last_mark: u64) -> Fields
    ensures { result ≡ download_segment exchange transaction segment last_mark }
{
    with_code(
        ReturnCode::Ok,
        with_segment(
            segment,
            last_mark,
            reply_of(TRANSFER_PHASE, exchange).with_wide(TRANSACTION, transaction),
        ),
    )
}

// Receipt answered: 01 03 08 0D.
pub fn receipt_answered(exchange: u64, transaction: Bits128, code: ReturnCode) -> Fields
    ensures { result ≡ receipt_answered exchange transaction code }
{
    with_code(
        code,
        reply_of(RECEIPT_PHASE, exchange).with_wide(TRANSACTION, transaction),
    )
}

// Unreadable request: 0D.
pub fn unreadable() -> Fields
    ensures { result ≡ unreadable }
{
    with_code(ReturnCode::InvalidXml, Fields::none())
}

// Any other refusal, and the reply to a signing: 01 03 0D.
pub fn refusal(phase: u64, exchange: u64, code: ReturnCode) -> Fields
    ensures { result ≡ refusal phase exchange code }
{
    with_code(code, reply_of(phase, exchange))
}
