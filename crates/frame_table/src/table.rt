// The two tables: fields by tag, and forms as sets of tags.
ghost use Rattle.std.specs.Prelude.{◌≡◌, ◌<◌, cond, eqb};
ghost use Rattle.frame_table.specs.Table.{tag_count, field_row, width, values_of, in_range, allowed};
ghost use Rattle.frame_table.specs.Table.{form_of, is_request_form, is_reply_form};
ghost use Rattle.frame_table.specs.declared.table.Characters.TheVariants.{CapitalsOrDigits};
ghost use Rattle.frame_table.specs.declared.table.Form.TheVariants.{NoForm, Request};

// How many tags there are, from 0 on.
pub const TAG_COUNT: usize = 18;

// How many bytes a frame has at most.
pub const FRAME_LIMIT: usize = 1024;

// The highest time of a frame or of a call: the last millisecond of the year 9999.
pub const LAST_TIME: u64 = 253402300799999;

pub const PHASE: usize = 1;

pub const SUBSCRIBER: usize = 2;

pub const EXCHANGE: usize = 3;

pub const ORDER_TYPE: usize = 4;

pub const NONCE: usize = 5;

pub const TIMESTAMP: usize = 6;

pub const SEGMENTS: usize = 7;

pub const TRANSACTION: usize = 8;

pub const SEGMENT: usize = 9;

pub const LAST_MARK: usize = 10;

pub const DATA: usize = 11;

pub const RECEIPT_CODE: usize = 12;

pub const RETURN_CODE: usize = 13;

pub const ORDER_NUMBER: usize = 14;

pub const ORDER_ATTRIBUTE: usize = 15;

pub const OWNER: usize = 16;

pub const VERSION: usize = 17;

// The one order attribute: five characters, high byte first.
pub const UZHNN: u64 = 0x55_5A_48_4E_4E;

// The one protocol version, that of edition 2.4: four characters.
pub const H003: u64 = 0x48_30_30_33;

// The characters of a text.
#[derive(Clone, Copy, PartialEq, Eq)]
pub enum Characters {
    Digits,
    CapitalsOrDigits,
}

// What the content of a field can be: any bytes, a number from the least to the greatest, or a text.
#[derive(Clone, Copy, PartialEq, Eq)]
pub enum Values {
    Any,
    Range(u64, u64),
    Text(Characters),
}

// A field's content length (0: one byte or more), and its values.
#[derive(Clone, Copy)]
struct Field(pub usize, pub Values);

#[derive(Clone, Copy, PartialEq, Eq)]
pub enum RequestForm {
    UploadOpening,
    DownloadOpening,
    UploadTransfer,
    DownloadTransfer,
    Receipt,
    Signing,
    ChosenOpening,
}

// SegmentTaken is also the recovery point, ReceiptAnswered also the reply to a chosen opening: each has the same fields.
#[derive(Clone, Copy, PartialEq, Eq)]
pub enum ReplyForm {
    UploadOpened,
    DownloadOpened,
    SegmentTaken,
    DownloadSegment,
    ReceiptAnswered,
    Unreadable,
    Refusal,
}

// NoForm is a case of its own and no None: `tags_of` and `has_phase` define it beside the others.
#[derive(Clone, Copy, PartialEq, Eq)]
pub enum Form {
    NoForm,
    Request(RequestForm),
    Reply(ReplyForm),
}

// The tags of each form as a set: bit t for tag t.
const UPLOAD_OPENING: u32 = 1 << PHASE
    | 1 << SUBSCRIBER
    | 1 << EXCHANGE
    | 1 << ORDER_TYPE
    | 1 << NONCE
    | 1 << TIMESTAMP
    | 1 << SEGMENTS;

const DOWNLOAD_OPENING: u32 = 1 << PHASE
    | 1 << SUBSCRIBER
    | 1 << EXCHANGE
    | 1 << ORDER_TYPE
    | 1 << NONCE
    | 1 << TIMESTAMP;

const UPLOAD_TRANSFER: u32 = 1 << PHASE
    | 1 << SUBSCRIBER
    | 1 << EXCHANGE
    | 1 << TRANSACTION
    | 1 << SEGMENT
    | 1 << LAST_MARK
    | 1 << DATA;

const DOWNLOAD_TRANSFER: u32 = 1 << PHASE
    | 1 << SUBSCRIBER
    | 1 << EXCHANGE
    | 1 << TRANSACTION
    | 1 << SEGMENT;

const RECEIPT: u32 = 1 << PHASE
    | 1 << SUBSCRIBER
    | 1 << EXCHANGE
    | 1 << TRANSACTION
    | 1 << RECEIPT_CODE;

const SIGNING: u32 = 1 << PHASE
    | 1 << SUBSCRIBER
    | 1 << EXCHANGE
    | 1 << ORDER_TYPE
    | 1 << NONCE
    | 1 << TIMESTAMP
    | 1 << ORDER_NUMBER
    | 1 << ORDER_ATTRIBUTE
    | 1 << OWNER;

const CHOSEN_OPENING: u32 = 1 << PHASE
    | 1 << SUBSCRIBER
    | 1 << EXCHANGE
    | 1 << ORDER_TYPE
    | 1 << NONCE
    | 1 << TIMESTAMP
    | 1 << SEGMENTS
    | 1 << ORDER_NUMBER
    | 1 << VERSION;

const UPLOAD_OPENED: u32 = 1 << PHASE
    | 1 << EXCHANGE
    | 1 << TRANSACTION
    | 1 << RETURN_CODE
    | 1 << ORDER_NUMBER;

const DOWNLOAD_OPENED: u32 = 1 << PHASE
    | 1 << EXCHANGE
    | 1 << SEGMENTS
    | 1 << TRANSACTION
    | 1 << SEGMENT
    | 1 << LAST_MARK
    | 1 << DATA
    | 1 << RETURN_CODE;

const SEGMENT_TAKEN: u32 = 1 << PHASE
    | 1 << EXCHANGE
    | 1 << TRANSACTION
    | 1 << SEGMENT
    | 1 << RETURN_CODE;

const DOWNLOAD_SEGMENT: u32 = 1 << PHASE
    | 1 << EXCHANGE
    | 1 << TRANSACTION
    | 1 << SEGMENT
    | 1 << LAST_MARK
    | 1 << DATA
    | 1 << RETURN_CODE;

const RECEIPT_ANSWERED: u32 = 1 << PHASE | 1 << EXCHANGE | 1 << TRANSACTION | 1 << RETURN_CODE;

const UNREADABLE: u32 = 1 << RETURN_CODE;

const REFUSAL: u32 = 1 << PHASE | 1 << EXCHANGE | 1 << RETURN_CODE;

// The row of the tag: the table of fields. As a match it is looked up in place; an array would be built anew at each
// use.
fn field_row(tag: usize) -> Field
    requires { tag < tag_count }
    ensures { result ≡ field_row tag }
{
    match tag {
        0 => Field(1, Values::Range(1, 0)), // 00, which stands nowhere
        PHASE => Field(1, Values::Range(1, 3)), // 01
        SUBSCRIBER => Field(2, Values::Any), // 02
        EXCHANGE => Field(4, Values::Any), // 03
        ORDER_TYPE => Field(3, Values::Text(Characters::CapitalsOrDigits)), // 04
        NONCE => Field(16, Values::Any), // 05
        TIMESTAMP => Field(8, Values::Range(0, LAST_TIME)), // 06
        SEGMENTS => Field(2, Values::Any), // 07
        TRANSACTION => Field(16, Values::Any), // 08
        SEGMENT => Field(2, Values::Any), // 09
        LAST_MARK => Field(1, Values::Range(0, 1)), // 0A
        DATA => Field(0, Values::Any), // 0B
        RECEIPT_CODE => Field(1, Values::Range(0, 1)), // 0C
        RETURN_CODE => Field(6, Values::Text(Characters::Digits)), // 0D
        ORDER_NUMBER => Field(4, Values::Any), // 0E
        ORDER_ATTRIBUTE => Field(5, Values::Range(UZHNN, UZHNN)), // 0F
        OWNER => Field(2, Values::Any), // 10
        _ => Field(4, Values::Range(H003, H003)), // 11 protocol version
    }
}

// The content length of the tag; 0 where it is one byte or more.
#[tactic(auto, unfolding(crate::specs::Table::width))]
pub fn width(tag: usize) -> usize
    requires { tag < tag_count }
    ensures { result ≡ width tag }
{
    field_row(tag).0
}

// The values of the tag.
#[tactic(auto, unfolding(crate::specs::Table::values_of))]
pub fn values_of(tag: usize) -> Values
    requires { tag < tag_count }
    ensures { result ≡ values_of tag }
{
    field_row(tag).1
}

#[tactic(auto, unfolding(crate::specs::Table::in_range))]
pub fn in_range(least: u64, greatest: u64, number: u64) -> bool
    ensures { result ≡ in_range least greatest number }
{
    (least..=greatest).contains(&number)
}

// Whether the byte is a capital or a digit.
#[tactic(auto, unfolding(crate::specs::Table::allowed))]
pub fn is_capital_or_digit(byte: u64) -> bool
    ensures { result ≡ allowed CapitalsOrDigits byte }
{
    in_range(48, 57, byte) || in_range(65, 90, byte)
}

// Whether the byte is one of the characters.
#[tactic(auto, unfolding(crate::specs::Table::allowed, crate::specs::Table::in_range))]
pub fn allowed(characters: Characters, byte: u8) -> bool
    ensures { result ≡ allowed characters byte }
{
    match characters {
        Characters::Digits => byte.is_ascii_digit(),
        Characters::CapitalsOrDigits => is_capital_or_digit(u64::from(byte)),
    }
}

// The request form, where the phase is its own.
fn of_phase(phase: u64, own: u64, form: RequestForm) -> Form
    ensures { result ≡ cond (eqb own phase) (Request form) NoForm }
{
    if own == phase {
        Form::Request(form)
    } else {
        Form::NoForm
    }
}

// The form with these tags and this phase: the table of forms. A request form has its own phase, a reply form any.
#[tactic(auto, unfolding(crate::specs::Table::row_fits, crate::specs::Table::find_form, crate::specs::Table::form_of))]
pub(crate) fn form_of(tags: u32, phase: u64) -> Form
    ensures { result ≡ form_of tags phase }
{
    match tags {
        UPLOAD_OPENING => of_phase(phase, 1, RequestForm::UploadOpening),
        DOWNLOAD_OPENING => of_phase(phase, 1, RequestForm::DownloadOpening),
        UPLOAD_TRANSFER => of_phase(phase, 2, RequestForm::UploadTransfer),
        DOWNLOAD_TRANSFER => of_phase(phase, 2, RequestForm::DownloadTransfer),
        RECEIPT => of_phase(phase, 3, RequestForm::Receipt),
        SIGNING => of_phase(phase, 1, RequestForm::Signing),
        CHOSEN_OPENING => of_phase(phase, 1, RequestForm::ChosenOpening),
        UPLOAD_OPENED => Form::Reply(ReplyForm::UploadOpened),
        DOWNLOAD_OPENED => Form::Reply(ReplyForm::DownloadOpened),
        SEGMENT_TAKEN => Form::Reply(ReplyForm::SegmentTaken),
        DOWNLOAD_SEGMENT => Form::Reply(ReplyForm::DownloadSegment),
        RECEIPT_ANSWERED => Form::Reply(ReplyForm::ReceiptAnswered),
        UNREADABLE => Form::Reply(ReplyForm::Unreadable),
        REFUSAL => Form::Reply(ReplyForm::Refusal),
        _ => Form::NoForm,
    }
}

pub fn is_request_form(form: Form) -> bool
    ensures { result ≡ is_request_form form }
{
    matches!(form, Form::Request(_))
}

pub fn is_reply_form(form: Form) -> bool
    ensures { result ≡ is_reply_form form }
{
    matches!(form, Form::Reply(_))
}
