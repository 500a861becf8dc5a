// The unstarred cases of document 01 as they come out, and the return codes with their names.
#![tactic(auto)]

use bank::call::answer_frame;
use bank_rows::layout::STATE_SIZE;
use bank_state::limits::{ID_BYTES, REPLY_ROOM, STORE_BYTES};
use frame_table::fields::{Bits128, Fields};
use frame_table::table::FRAME_LIMIT;
use frame_writer::writer::write;
use message::codes::{ReturnCode, code_field};
use message::requests::{upload_opening, upload_transfer};
use number_table::table::WrongLength;
use octets::bytes::front;
use print::text::code_digits;

// The bank time of every call, and every timestamp.
const CLOCK: u64 = 1000000;

// The return codes in their order, with their names in Annex 1.
const NAMES: [(ReturnCode, &str); 20] = [
    (ReturnCode::Ok, "EBICS_OK"),
    (
        ReturnCode::DownloadPostprocessDone,
        "EBICS_DOWNLOAD_POSTPROCESS_DONE",
    ),
    (
        ReturnCode::DownloadPostprocessSkipped,
        "EBICS_DOWNLOAD_POSTPROCESS_SKIPPED",
    ),
    (
        ReturnCode::SegmentNumberUnderrun,
        "EBICS_TX_SEGMENT_NUMBER_UNDERRUN",
    ),
    (ReturnCode::InvalidRequest, "EBICS_INVALID_REQUEST"),
    (ReturnCode::InternalError, "EBICS_INTERNAL_ERROR"),
    (ReturnCode::RecoverySync, "EBICS_TX_RECOVERY_SYNC"),
    (
        ReturnCode::NoDownloadDataAvailable,
        "EBICS_NO_DOWNLOAD_DATA_AVAILABLE",
    ),
    (ReturnCode::UserUnknown, "EBICS_USER_UNKNOWN"),
    (ReturnCode::InvalidOrderType, "EBICS_INVALID_ORDER_TYPE"),
    (
        ReturnCode::SegmentSizeExceeded,
        "EBICS_SEGMENT_SIZE_EXCEEDED",
    ),
    (ReturnCode::InvalidXml, "EBICS_INVALID_XML"),
    (ReturnCode::UnknownTransaction, "EBICS_TX_UNKNOWN_TXID"),
    (ReturnCode::TransactionAbort, "EBICS_TX_ABORT"),
    (ReturnCode::MessageReplay, "EBICS_TX_MESSAGE_REPLAY"),
    (
        ReturnCode::SegmentNumberExceeded,
        "EBICS_TX_SEGMENT_NUMBER_EXCEEDED",
    ),
    (ReturnCode::OrderIdUnknown, "EBICS_ORDERID_UNKNOWN"),
    (
        ReturnCode::OrderIdAlreadyExists,
        "EBICS_ORDERID_ALREADY_EXISTS",
    ),
    (
        ReturnCode::MaxSegmentsExceeded,
        "EBICS_MAX_SEGMENTS_EXCEEDED",
    ),
    (
        ReturnCode::MaxTransactionsExceeded,
        "EBICS_MAX_TRANSACTIONS_EXCEEDED",
    ),
];

// A bank's memory.
#[derive(Drop)]
struct Bank {
    rows: [u64; STATE_SIZE],
    orders: [u8; STORE_BYTES],
    mailboxes: [u8; STORE_BYTES],
}

impl Bank {
    // The memory of a fresh bank.
    fn fresh() -> Self {
        Bank {
            rows: [0; STATE_SIZE],
            orders: [0; STORE_BYTES],
            mailboxes: [0; STORE_BYTES],
        }
    }

    // A frame arrives: the return code of its reply, 0 where the call was given a number.
    fn send(&mut self, frame: &[u8]) -> u64 {
        let ids = [0u8; ID_BYTES];
        let mut buffer = [0u8; REPLY_ROOM];
        let step = answer_frame(
            &mut self.rows,
            CLOCK,
            &ids,
            frame,
            &mut self.orders,
            &mut self.mailboxes,
            &mut buffer,
        );
        step.out.code
    }

    // A request arrives: the return code of its reply, 0 where it could not be written.
    fn ask(&mut self, q: Fields, bytes: &[u8]) -> u64 {
        let mut frame = [0u8; FRAME_LIMIT];
        match write(q, bytes, &mut frame) {
            Ok(n) => self.send(front(&frame, n)),
            Err(WrongLength) => 0,
        }
    }

    // A line: what is sent, and the code that came.
    fn print_case(&mut self, rt: &impl Print, sent: &str, q: Fields, bytes: &[u8]) {
        let code = self.ask(q, bytes);
        let _ = print!(rt; "{sent} ");
        let _ = rt.write_all(&code_digits(code));
        let _ = println!(rt; "");
    }
}

// An upload opening of n segments by subscriber 1; the nonce is the number of segments.
fn opening(n: u64) -> Fields {
    upload_opening(1, 1, Bits128 { high: 0, low: n }, CLOCK, n)
}

// A segment of the upload that was opened first.
fn segment(s: u64) -> Fields {
    upload_transfer(1, 1, Bits128 { high: 0, low: 0 }, s, 0)
}

// 31 and 32 segments, and 256 and 257 data bytes.
fn print_cases(rt: &impl Print) {
    let mut bank = Bank::fresh();
    bank.print_case(rt, "31 segments", opening(31), &[]);
    bank.print_case(rt, "32 segments", opening(32), &[]);
    bank.print_case(rt, "256 data bytes", segment(1), &[7; 256]);
    bank.print_case(rt, "257 data bytes", segment(2), &[7; 257]);
}

// A line for each return code: its six digits, and its name.
fn print_codes(rt: &impl Print) {
    for (code, name) in NAMES {
        let _ = rt.write_all(&code_digits(code_field(code)));
        let _ = println!(rt; " {name}");
    }
}

fn main(rt: HostRuntime) {
    print_cases(&rt);
    print_codes(&rt);
}
