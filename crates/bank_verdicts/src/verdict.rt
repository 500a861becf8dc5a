// The verdicts on a request. State, reply and history of a call are read off its verdict.
ghost use Rattle.std.specs.Prelude.{◌≡◌};
ghost use Rattle.bank_verdicts.specs.Judgement.{opened_number};

use frame_table::fields::Bits128;
use message::codes::ReturnCode;

// What a request is judged with besides the bank: the lent ID bytes as a number, with which a transaction ID begins, and
// what the other banks count of the open transactions that all share (document 02, card 13).
#[derive(Clone, Copy, PartialEq, Eq)]
pub struct Context {
    pub prefix: u64,
    pub others: u64,
}

// A request to a transaction, by its form.
#[derive(Clone, Copy, PartialEq, Eq)]
pub enum TransactionRequest {
    UploadTransfer,
    DownloadTransfer,
    Receipt,
}

// What a request does to an upload: opens it (with its order's number), has a segment taken, has the last one taken and
// so books the order, gets the recovery point k, or has it cancelled with this code.
#[derive(Clone, Copy)]
pub enum UploadAction {
    Opened(u64),
    Took,
    TookLast,
    Point(u64),
    Cancelled(ReturnCode),
}

// What a request does to a download: opens it, has a segment delivered or sent again (each with N), gets the recovery
// point d, has it cancelled as the sixth attempt, or has its receipt answered 011000 (confirmed) or 011001 (declined).
#[derive(Clone, Copy)]
pub enum DownloadAction {
    Opened(u64),
    Delivered(u64),
    SentAgain(u64),
    Point(u64),
    Cancelled,
    Confirmed,
    Declined,
}

// What a request does to one transaction.
#[derive(Clone, Copy)]
pub enum Action {
    Upload(UploadAction),
    Download(DownloadAction),
}

// A booked order that is signed: its upload's transaction ID, and its number.
#[derive(Clone, Copy)]
pub struct SignedOrder {
    pub transaction: Bits128,
    pub number: u64,
}

// What a request comes to: it is unreadable, it is refused with a code and changes nothing, it acts on the transaction
// with this ID, or it signs this booked order of its owner's, by a signer more or by one again.
#[derive(Clone, Copy)]
pub enum Verdict {
    Unreadable,
    Refused(ReturnCode),
    Of(Bits128, Action),
    Signed(SignedOrder, bool),
}

// The number of the upload that an action opens; 0 where it opens none.
pub fn opened_number(action: Action) -> u64
    ensures { result ≡ opened_number action }
{
    match action {
        Action::Upload(UploadAction::Opened(number)) => number,
        _ => 0,
    }
}
