// Texts on standard output: each by its key, an order number, a return code's name and a closing word.
ghost use Rattle.std.specs.Prelude.{◌≡◌};
ghost use Rattle.print.specs.Text.{order_number_text};

use client_run::run::Word;
use frame_table::table::{ReplyForm, RequestForm};
use journal::event::OrderName;
use message::codes::{ReturnCode, code_field};
use octets::bytes::front;
use print::closing::{CLOSING_ROOM, put_closing};
use print::text::{ORDER_CHARACTERS, code_digits, put_order_number};
use std::fmt;

// What the texts name: 0 the call, 1 the client run or a signed order's owner, 2 the subscriber, 3 bytes, 4 a segment,
// 5 segments, 6 the exchange number, 7 an order number, 8 a return code, 9 " (last)" where the last mark is 1; of the
// counts 0 to 6 the seven, and 0 their sum.
pub const VALUES: usize = 10;

// The return codes that the exercises meet, and those that only lines from other seeds meet, with the keys of their
// names, and their names.
const NAMES: [(u8, ReturnCode, &str); 10] = [
    (b'O', ReturnCode::Ok, "EBICS_OK"),
    (
        b'S',
        ReturnCode::DownloadPostprocessDone,
        "EBICS_DOWNLOAD_POSTPROCESS_DONE",
    ),
    (b'Y', ReturnCode::RecoverySync, "EBICS_TX_RECOVERY_SYNC"),
    (
        b'K',
        ReturnCode::UnknownTransaction,
        "EBICS_TX_UNKNOWN_TXID",
    ),
    (b'L', ReturnCode::MessageReplay, "EBICS_TX_MESSAGE_REPLAY"),
    (b'I', ReturnCode::OrderIdUnknown, "EBICS_ORDERID_UNKNOWN"),
    (b'8', ReturnCode::TransactionAbort, "EBICS_TX_ABORT"),
    (
        b'm',
        ReturnCode::MaxTransactionsExceeded,
        "EBICS_MAX_TRANSACTIONS_EXCEEDED",
    ),
    (
        b'y',
        ReturnCode::NoDownloadDataAvailable,
        "EBICS_NO_DOWNLOAD_DATA_AVAILABLE",
    ),
    (b'z', ReturnCode::InternalError, "EBICS_INTERNAL_ERROR"),
];

// The code of a reply, as far as what it says goes by it.
#[derive(Clone, Copy)]
pub(crate) enum ReplyCode {
    Ok,
    Recovery,
    Other,
}

// Characters that are kept as bytes, shown as those of Latin-1.
#[derive(Drop)]
pub struct Characters<const N: usize>(pub [u8; N]);

impl<const N: usize> fmt::Display for Characters<N> {
    fn fmt<W: fmt::Write>(&self, f: &mut fmt::Formatter<W>) -> fmt::Result {
        for b in &self.0 {
            write!(f, "{}", *b as char)?;
        }
        Ok(())
    }
}

// An order number, given as the number of field 0E.
pub fn order_number_text(x: u64) -> Characters<ORDER_CHARACTERS>
    ensures { result.0 ≡ order_number_text x }
{
    let mut text = [0u8; ORDER_CHARACTERS];
    put_order_number(&mut text, 0, x);
    Characters(text)
}

// Prints an order number behind its text. Its four bytes as they are, since those that a client chose are any.
fn say_order_number(rt: &impl Print, x: u64) {
    let _ = rt.write_all(&order_number_text(x).0);
}

// Prints the name of a return code, given as the number of field 0D; nothing for another.
pub(crate) fn say_name(rt: &impl Print, code: u64) {
    if let Some(n) = NAMES.iter().find(|n| code_field(n.1) == code) {
        let _ = print!(rt; "{}", n.2);
    }
}

// Behind a segment: whether it is the last.
fn mark_text(mark: u64) -> &'static str {
    if mark == 1 { " (last)" } else { "" }
}

// Prints what a request says.
pub(crate) fn say_request(rt: &impl Print, form: RequestForm, v: [u64; VALUES]) {
    let [_, owner, _, _, segment, segments, _, order, _, mark] = v;
    let _ = match form {
        RequestForm::UploadOpening => print!(rt; "upload opening of {segments} segments"),
        RequestForm::DownloadOpening => print!(rt; "download opening"),
        RequestForm::UploadTransfer => print!(rt; "upload segment {segment}{}", mark_text(mark)),
        RequestForm::DownloadTransfer => print!(rt; "download segment {segment}"),
        RequestForm::Receipt => print!(rt; "receipt"),
        RequestForm::Signing => print!(rt; "signing of {owner} FUL "),
        RequestForm::ChosenOpening => print!(rt; "upload opening of {segments} segments as order "),
    };
    if matches!(form, RequestForm::Signing | RequestForm::ChosenOpening) {
        say_order_number(rt, order);
    }
}

// Prints what a reply says. The code tells a recovery point from a segment taken, and what is answered 000000: of the
// receipts' form an upload's opening of edition 2.4, of the refusals' form a signing that is accepted.
pub(crate) fn say_reply(rt: &impl Print, form: ReplyForm, code: ReplyCode, v: [u64; VALUES]) {
    let [_, _, _, _, segment, segments, _, order, _, mark] = v;
    let _ = match (form, code) {
        (ReplyForm::UploadOpened, _) => print!(rt; "upload opened, order "),
        (ReplyForm::DownloadOpened, _) => {
            print!(rt; "download opened with segment {segment} of {segments}")
        }
        (ReplyForm::SegmentTaken, ReplyCode::Recovery) => {
            print!(rt; "recovery point at segment {segment}")
        }
        (ReplyForm::SegmentTaken, _) => print!(rt; "segment {segment} taken"),
        (ReplyForm::DownloadSegment, _) => {
            print!(rt; "download segment {segment}{}", mark_text(mark))
        }
        (ReplyForm::ReceiptAnswered, ReplyCode::Ok) => print!(rt; "upload opened"),
        (ReplyForm::ReceiptAnswered, _) => print!(rt; "receipt answered"),
        (ReplyForm::Unreadable, _) => print!(rt; "unreadable request"),
        (ReplyForm::Refusal, ReplyCode::Ok) => print!(rt; "signed"),
        (ReplyForm::Refusal, _) => print!(rt; "refusal"),
    };
    if let ReplyForm::UploadOpened = form {
        say_order_number(rt, order);
    }
}

// The code of a reply, given as the number of field 0D.
pub(crate) fn reply_code(code: u64) -> ReplyCode {
    if code == code_field(ReturnCode::Ok) {
        ReplyCode::Ok
    } else if code == code_field(ReturnCode::RecoverySync) {
        ReplyCode::Recovery
    } else {
        ReplyCode::Other
    }
}

// The request whose text has this key: 1 to 5, 7 and 9.
fn request_with(key: u8) -> Option<RequestForm> {
    Some(match key {
        b'1' => RequestForm::UploadOpening,
        b'2' => RequestForm::DownloadOpening,
        b'3' => RequestForm::UploadTransfer,
        b'4' => RequestForm::DownloadTransfer,
        b'5' => RequestForm::Receipt,
        b'7' => RequestForm::Signing,
        b'9' => RequestForm::ChosenOpening,
        _ => return None,
    })
}

// The reply whose text has this key, with its code: a, b, e to h, j, k, s and 0.
fn reply_with(key: u8) -> Option<(ReplyForm, ReplyCode)> {
    Some(match key {
        b'a' => (ReplyForm::UploadOpened, ReplyCode::Ok),
        b'b' => (ReplyForm::DownloadOpened, ReplyCode::Ok),
        b'e' => (ReplyForm::SegmentTaken, ReplyCode::Ok),
        b'f' => (ReplyForm::SegmentTaken, ReplyCode::Recovery),
        b'g' => (ReplyForm::DownloadSegment, ReplyCode::Ok),
        b'h' => (ReplyForm::ReceiptAnswered, ReplyCode::Other),
        b'0' => (ReplyForm::ReceiptAnswered, ReplyCode::Ok),
        b'j' => (ReplyForm::Unreadable, ReplyCode::Other),
        b'k' => (ReplyForm::Refusal, ReplyCode::Other),
        b's' => (ReplyForm::Refusal, ReplyCode::Ok),
        _ => return None,
    })
}

// Prints the text of a key of the line of a move: a record's letter for how it begins; E, A and C for the exchange
// number, a repetition and a code; x, l, r and t for what became of its message, H for the hour; 6 for no message; i,
// q, w and n for what the call answered.
fn say_of_line(rt: &impl Print, key: u8, v: [u64; VALUES]) {
    let [call, run, subscriber, bytes, _, _, exchange, _, code, _] = v;
    let _ = match key {
        b'M' => print!(rt; "{call} host -> bank: file for mailbox {subscriber}, {bytes} bytes"),
        b'U' => print!(rt; "{call} client {run}: upload begun"),
        b'D' => print!(rt; "{call} client {run}: download begun"),
        b'F' => print!(rt; "{call} client {run} -> bank: "),
        b'R' => print!(rt; "{call} bank -> client {run}: "),
        b'N' => print!(rt; "{call} client {run}: no reply"),
        b'J' => print!(rt; "{call} client {run}: the journal"),
        b'P' => print!(rt; "{call} host: the session put away"),
        b'T' => print!(rt; "{call} host: the session taken up"),
        b'G' => print!(rt; "{call} subscriber {subscriber} -> bank: "),
        b'Q' => print!(rt; "{call} bank -> subscriber {subscriber}: "),
        b'6' => print!(rt; "no message"),
        b'E' => print!(rt; ", exchange {exchange}"),
        b'A' => print!(rt; ", repeated"),
        b'C' => {
            let _ = print!(rt; ", ");
            let _ = rt.write_all(&code_digits(code));
            print!(rt; " ")
        }
        b'x' => print!(rt; ", lost"),
        b'l' => print!(rt; ", late"),
        b'r' => print!(rt; ", held"),
        b't' => print!(rt; ", second copy"),
        b'H' => print!(rt; ", over an hour later"),
        b'i' => print!(rt; ", ignored"),
        b'q' => print!(rt; ", unchanged"),
        b'w' => print!(rt; ", closed: "),
        b'n' => print!(rt; ", number {call}"),
        _ => Ok(()),
    };
}

// Prints the text of a key of a run's row beside what the bank has: u and d for the run, o for one that has not ended,
// B, Z and X for what the bank has, V and W for whether the closing word is true, v for an order and its day. The
// exercises' program writes these rows, and the counts, by itself.
fn say_of_row(rt: &impl Print, key: u8, v: [u64; VALUES]) {
    let [_, run, subscriber, bytes, _, _, _, order, _, _] = v;
    let _ = match key {
        b'u' => print!(rt; "client {run}, upload: "),
        b'd' => print!(rt; "client {run}, download: "),
        b'o' => print!(rt; "open"),
        b'B' => {
            let _ = print!(rt; "; book {subscriber} FUL ");
            say_order_number(rt, order);
            print!(rt; ", {bytes} bytes")
        }
        b'Z' => print!(rt; "; book nothing"),
        b'X' => print!(rt; "; mailbox {subscriber}, {bytes} bytes"),
        b'V' => print!(rt; "; true"),
        b'W' => print!(rt; "; false"),
        b'v' => {
            let _ = print!(rt; "{subscriber} FUL ");
            say_order_number(rt, order);
            print!(rt; " is executed on ")
        }
        _ => Ok(()),
    };
}

// Prints the text of a key of the counts: # for where every opening ended, = for how many they are.
fn say_of_counts(rt: &impl Print, key: u8, v: [u64; VALUES]) {
    let [
        pending,
        booked,
        fetched,
        skipped,
        ended,
        cancelled,
        dropped,
        _,
        _,
        _,
    ] = v;
    let _ = match key {
        b'#' => {
            let _ = print!(rt; "openings: {pending} open, {booked} booked, {fetched} fetched, ");
            let _ = print!(rt; "{skipped} skipped, {ended} ended by another receipt, ");
            print!(rt; "{cancelled} cancelled, {dropped} dropped")
        }
        b'=' => print!(rt; "; {pending} in all"),
        _ => Ok(()),
    };
}

// Prints the text of a key, or nothing where no text has it. The keys: 1 to 5, 7 and 9 for what a request says; a, b, e
// to h, j, k, s and 0 for a reply; O, S, Y, K, L, I, 8, m, y and z for the codes' names in Annex 1; the others stand at the
// functions for the line of a move, for a run's row and for the counts. No key has two texts.
pub fn say(rt: &impl Print, key: u8, v: [u64; VALUES]) {
    say_of_line(rt, key, v);
    say_of_row(rt, key, v);
    say_of_counts(rt, key, v);
    if let Some(form) = request_with(key) {
        say_request(rt, form, v);
    }
    if let Some((form, code)) = reply_with(key) {
        say_reply(rt, form, code, v);
    }
    if let Some(n) = NAMES.iter().find(|n| n.0 == key) {
        let _ = print!(rt; "{}", n.2);
    }
}

// Prints a closing word, with what names the order where it is lodged.
pub fn say_closing(rt: &impl Print, word: Word, order: OrderName) {
    let mut text = [0u8; CLOSING_ROOM];
    let n = put_closing(&mut text, 0, word, order);
    let _ = rt.write_all(front(&text, n));
}

// Ends a line.
pub fn say_end(rt: &impl Print) {
    let _ = println!(rt; "");
}
