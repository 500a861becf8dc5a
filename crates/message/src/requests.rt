// The seven request forms, each as the fields that it has.
ghost use Rattle.std.specs.Prelude.{◌≡◌};
ghost use Rattle.message.specs.Requests.{request_of, opening_of, upload_opening, download_opening, transfer_of};
ghost use Rattle.message.specs.Requests.{upload_transfer, download_transfer, receipt, signing, chosen_opening};

use crate::limits::{FDL, FUL, INITIALISATION_PHASE, RECEIPT_PHASE, TRANSFER_PHASE};
use frame_table::fields::{Bits128, Fields};
use frame_table::table::{
    DATA, EXCHANGE, H003, LAST_MARK, NONCE, ORDER_ATTRIBUTE, ORDER_NUMBER, ORDER_TYPE, OWNER,
    PHASE, RECEIPT_CODE, SEGMENT, SEGMENTS, SUBSCRIBER, TIMESTAMP, TRANSACTION, UZHNN, VERSION,
};

// 01 02 03, which stand in every request.
fn request_of(phase: u64, subscriber: u64, exchange: u64) -> Fields
    ensures { result ≡ request_of phase subscriber exchange }
{
    Fields::none()
        .with(PHASE, phase)
        .with(SUBSCRIBER, subscriber)
        .with(EXCHANGE, exchange)
}

// 01 to 06, which stand in every opening.
fn opening_of(
    subscriber: u64,
    exchange: u64,
    order_type: u64,
    nonce: Bits128,
    timestamp: u64,
) -> Fields
    ensures { result ≡ opening_of subscriber exchange order_type nonce timestamp }
{
    request_of(INITIALISATION_PHASE, subscriber, exchange)
        .with(ORDER_TYPE, order_type)
        .with_wide(NONCE, nonce)
        .with(TIMESTAMP, timestamp)
}

// Upload opening: 01 to 07.
pub fn upload_opening(
    subscriber: u64,
    exchange: u64,
    nonce: Bits128,
    timestamp: u64,
    segments: u64,
) -> Fields
    ensures { result ≡ upload_opening subscriber exchange nonce timestamp segments }
{
    opening_of(subscriber, exchange, FUL, nonce, timestamp).with(SEGMENTS, segments)
}

// Download opening: 01 to 06.
pub fn download_opening(subscriber: u64, exchange: u64, nonce: Bits128, timestamp: u64) -> Fields
    ensures { result ≡ download_opening subscriber exchange nonce timestamp }
{
    opening_of(subscriber, exchange, FDL, nonce, timestamp)
}

// 01 02 03 08 09, which stand in both transfers.
fn transfer_of(subscriber: u64, exchange: u64, transaction: Bits128, segment: u64) -> Fields
    ensures { result ≡ transfer_of subscriber exchange transaction segment }
{
    request_of(TRANSFER_PHASE, subscriber, exchange)
        .with_wide(TRANSACTION, transaction)
        .with(SEGMENT, segment)
}

// Upload transfer: 01 02 03 08 09 0A 0B; the data stands beside the fields.
pub fn upload_transfer(
    subscriber: u64,
    exchange: u64,
    transaction: Bits128,
    segment: u64,
    last_mark: u64,
) -> Fields
    ensures { result ≡ upload_transfer subscriber exchange transaction segment last_mark }
{
    transfer_of(subscriber, exchange, transaction, segment)
        .with(LAST_MARK, last_mark)
        .with(DATA, 0)
}

// Download transfer: 01 02 03 08 09.
pub fn download_transfer(
    subscriber: u64,
    exchange: u64,
    transaction: Bits128,
    segment: u64,
) -> Fields
    ensures { result ≡ download_transfer subscriber exchange transaction segment }
{
    transfer_of(subscriber, exchange, transaction, segment)
}

// Receipt: 01 02 03 08 0C.
pub fn receipt(subscriber: u64, exchange: u64, transaction: Bits128, code: u64) -> Fields
    ensures { result ≡ receipt subscriber exchange transaction code }
{
    request_of(RECEIPT_PHASE, subscriber, exchange)
        .with_wide(TRANSACTION, transaction)
        .with(RECEIPT_CODE, code)
}

// Signing: 01 to 06, 0E, 0F, 10; the order is of type FUL.
pub fn signing(
    subscriber: u64,
    exchange: u64,
    nonce: Bits128,
    timestamp: u64,
    order_number: u64,
    owner: u64,
) -> Fields
    ensures { result ≡ signing subscriber exchange nonce timestamp order_number owner }
{
    opening_of(subscriber, exchange, FUL, nonce, timestamp)
        .with(ORDER_NUMBER, order_number)
        .with(ORDER_ATTRIBUTE, UZHNN)
        .with(OWNER, owner)
}

// Upload opening of edition 2.4, which brings its order number: 01 to 07, 0E, 11.
pub fn chosen_opening(
    subscriber: u64,
    exchange: u64,
    nonce: Bits128,
    timestamp: u64,
    segments: u64,
    order_number: u64,
) -> Fields
    ensures { result ≡ chosen_opening subscriber exchange nonce timestamp segments order_number }
{
    upload_opening(subscriber, exchange, nonce, timestamp, segments)
        .with(ORDER_NUMBER, order_number)
        .with(VERSION, H003)
}
