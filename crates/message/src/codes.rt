// The return codes of document 01 and of cards 8 and 11 under their names of Annex 1.
ghost use Rattle.std.specs.Prelude.{◌≡◌};
ghost use Rattle.message.specs.Codes.{code_field};

#[derive(Clone, Copy, PartialEq, Eq)]
pub enum ReturnCode {
    Ok,
    DownloadPostprocessDone,
    DownloadPostprocessSkipped,
    SegmentNumberUnderrun,
    InvalidRequest,
    InternalError,
    RecoverySync,
    NoDownloadDataAvailable,
    UserUnknown,
    InvalidOrderType,
    SegmentSizeExceeded,
    InvalidXml,
    UnknownTransaction,
    TransactionAbort,
    MessageReplay,
    SegmentNumberExceeded,
    OrderIdUnknown,
    OrderIdAlreadyExists,
    MaxSegmentsExceeded,
    MaxTransactionsExceeded,
}

// The code's six ASCII digits, as the number of field 0D.
pub fn code_field(code: ReturnCode) -> u64
    ensures { result ≡ code_field code }
{
    match code {
        ReturnCode::Ok => 0x30_30_30_30_30_30,
        ReturnCode::DownloadPostprocessDone => 0x30_31_31_30_30_30,
        ReturnCode::DownloadPostprocessSkipped => 0x30_31_31_30_30_31,
        ReturnCode::SegmentNumberUnderrun => 0x30_31_31_31_30_31,
        ReturnCode::InvalidRequest => 0x30_36_31_30_30_32,
        ReturnCode::InternalError => 0x30_36_31_30_39_39,
        ReturnCode::RecoverySync => 0x30_36_31_31_30_31,
        ReturnCode::NoDownloadDataAvailable => 0x30_39_30_30_30_35,
        ReturnCode::UserUnknown => 0x30_39_31_30_30_33,
        ReturnCode::InvalidOrderType => 0x30_39_31_30_30_35,
        ReturnCode::SegmentSizeExceeded => 0x30_39_31_30_30_39,
        ReturnCode::InvalidXml => 0x30_39_31_30_31_30,
        ReturnCode::UnknownTransaction => 0x30_39_31_31_30_31,
        ReturnCode::TransactionAbort => 0x30_39_31_31_30_32,
        ReturnCode::MessageReplay => 0x30_39_31_31_30_33,
        ReturnCode::SegmentNumberExceeded => 0x30_39_31_31_30_34,
        ReturnCode::OrderIdUnknown => 0x30_39_31_31_31_34,
        ReturnCode::OrderIdAlreadyExists => 0x30_39_31_31_31_35,
        ReturnCode::MaxSegmentsExceeded => 0x30_39_31_31_31_38,
        ReturnCode::MaxTransactionsExceeded => 0x30_39_31_31_31_39,
    }
}
