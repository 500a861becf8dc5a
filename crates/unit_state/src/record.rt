// A record of the input: its letter, its parts, and the call that it is.
ghost use Rattle.std.specs.Prelude.{◌≡◌, ◌≤◌};
ghost use Rattle.unit_state.specs.Records.{kind_of, head_of, has_length, bytes_at, number_at, size_of, body_of};
ghost use Rattle.unit_state.specs.Records.{is_edition, edition_of, has_edition};
ghost use Rattle.unit_state.specs.Records.{is_run, is_line, in_room, is_within, is_whole, call_of, is_call};
ghost use Rattle.unit_state.specs.Records.{lent_length_of, offset_of};

use bank_state::limits::ID_BYTES;
use client_run::run::NONCE_BYTES;
use message::editions::Edition;
use octets::bytes::{behind, front, number};

// The client runs, numbered from 1.
pub const RUN_COUNT: usize = 16;

// The lines, numbered from 1.
pub const LINE_COUNT: usize = 32;

// The bytes of the image room.
pub const ROOM_BYTES: usize = 140000;

// How many bytes the parts of a record have: its letter, a run, a time, a mailbox, a subscriber, a first exchange
// number, an edition, an order number, the length of what stands behind the head, a length or an offset in the image
// room, a line, and a seed.
pub const LETTER_BYTES: usize = 1;

pub const RUN_BYTES: usize = 1;

pub const TIME_BYTES: usize = 8;

pub const MAILBOX_BYTES: usize = 2;

pub const SUBSCRIBER_BYTES: usize = 2;

pub const FIRST_BYTES: usize = 4;

pub const EDITION_BYTES: usize = 1;

pub const ORDER_BYTES: usize = 4;

pub const SIZE_BYTES: usize = 2;

pub const EXTENT_BYTES: usize = 4;

pub const LINE_BYTES: usize = 1;

pub const SEED_BYTES: usize = 4;

// Where the parts begin, each behind the one before it: those of a frame to the bank, of a file, of a call to a run,
// of one on the image room, of one for a value day, and of one on a line.
pub const BANK_TIME_AT: usize = LETTER_BYTES;

pub const IDS_AT: usize = BANK_TIME_AT + TIME_BYTES;

pub const MAILBOX_AT: usize = LETTER_BYTES;

pub const RUN_NUMBER_AT: usize = LETTER_BYTES;

pub const TIME_AT: usize = RUN_NUMBER_AT + RUN_BYTES;

pub const SUBSCRIBER_AT: usize = TIME_AT + TIME_BYTES;

pub const FIRST_AT: usize = SUBSCRIBER_AT + SUBSCRIBER_BYTES;

pub const NONCE_AT: usize = FIRST_AT + FIRST_BYTES;

pub const EDITION_AT: usize = NONCE_AT + NONCE_BYTES;

pub const ORDER_AT: usize = EDITION_AT + EDITION_BYTES;

pub const EXTENT_AT: usize = LETTER_BYTES;

pub const BOOKING_AT: usize = LETTER_BYTES;

pub const LINE_NUMBER_AT: usize = LETTER_BYTES;

pub const SEED_AT: usize = LINE_NUMBER_AT + LINE_BYTES;

// The bytes of an upload's head, the longest one.
pub const UPLOAD_HEAD: usize = ORDER_AT + ORDER_BYTES + SIZE_BYTES;

// The bytes of the longest record: an upload's head and a payload of 65,535.
pub const RECORD_BYTES: usize = UPLOAD_HEAD + 65535;

// What happens to a client run: it begins an upload or a download, a reply arrived, or no reply came.
#[derive(Clone, Copy)]
pub enum Event {
    Upload,
    Download,
    Reply,
    NoReply,
}

// What a record is: a call to the bank, a call to a client run, the journal handed to a run, the session put away or
// taken up, bytes for the image room, the value day of a booking, a line made, a message put into a line, the counts
// asked for, or no call.
#[derive(Clone, Copy)]
pub enum Kind {
    Frame,
    File,
    Run(Event),
    Journal,
    Away,
    TakeUp,
    Image,
    ValueDay,
    MakeLine,
    PutIn,
    Counts,
    NoCall,
}

// The kind of a letter.
#[tactic(auto, unfolding(crate::specs::Records::kind_of))]
pub fn kind_of(letter: u8) -> Kind
    ensures { result ≡ kind_of letter }
{
    match letter {
        b'F' => Kind::Frame,
        b'M' => Kind::File,
        b'U' => Kind::Run(Event::Upload),
        b'D' => Kind::Run(Event::Download),
        b'R' => Kind::Run(Event::Reply),
        b'N' => Kind::Run(Event::NoReply),
        b'J' => Kind::Journal,
        b'P' => Kind::Away,
        b'T' => Kind::TakeUp,
        b'I' => Kind::Image,
        b'V' => Kind::ValueDay,
        b'L' => Kind::MakeLine,
        b'W' => Kind::PutIn,
        b'C' => Kind::Counts,
        _ => Kind::NoCall,
    }
}

// The bytes of a record before those that its length counts.
pub fn head_of(kind: Kind) -> usize
    ensures { result ≡ head_of kind }
{
    match kind {
        Kind::Frame => IDS_AT + ID_BYTES + SIZE_BYTES,
        Kind::File => MAILBOX_AT + MAILBOX_BYTES + SIZE_BYTES,
        Kind::Run(Event::Upload) => UPLOAD_HEAD,
        Kind::Run(Event::Download) => NONCE_AT + NONCE_BYTES,
        Kind::Run(Event::Reply) => TIME_AT + TIME_BYTES + SIZE_BYTES,
        Kind::Run(Event::NoReply) => TIME_AT + TIME_BYTES,
        Kind::Journal => RUN_NUMBER_AT + RUN_BYTES,
        Kind::Away | Kind::TakeUp => EXTENT_AT + EXTENT_BYTES,
        Kind::Image => EXTENT_AT + EXTENT_BYTES + SIZE_BYTES,
        Kind::ValueDay => BOOKING_AT + TIME_BYTES,
        Kind::MakeLine => SEED_AT + SEED_BYTES,
        Kind::PutIn => LINE_NUMBER_AT + LINE_BYTES + SIZE_BYTES,
        Kind::Counts | Kind::NoCall => LETTER_BYTES,
    }
}

// Whether a length stands at the end of the head.
fn has_length(kind: Kind) -> bool
    ensures { result ≡ has_length kind }
{
    matches!(
        kind,
        Kind::Frame
            | Kind::File
            | Kind::Run(Event::Upload | Event::Reply)
            | Kind::Image
            | Kind::PutIn
    )
}

// At most n bytes of a record from a place on.
pub fn bytes_at(s: &[u8], from: usize, n: usize) -> &[u8]
    ensures { result.now ≡ bytes_at from n s.now }
{
    front(behind(s, from), n)
}

// The number of at most 8 bytes from a place on.
#[tactic(auto, unfolding(crate::specs::Records::number_at))]
pub fn number_at(s: &[u8], from: usize, n: usize) -> u64
    requires { n ≤ 8 }
    ensures { result ≡ number_at from n s.now }
{
    number(bytes_at(s, from, n))
}

// What the length of a record says, 0 where it has none.
#[tactic(auto, unfolding(crate::specs::Records::size_of))]
pub fn size_of(kind: Kind, s: &[u8]) -> usize
    ensures { result ≡ size_of kind s.now }
{
    if has_length(kind) {
        number_at(s, head_of(kind) - SIZE_BYTES, SIZE_BYTES) as usize
    } else {
        0
    }
}

// How many bytes of the image room a session is put away into, or taken up from.
pub fn lent_length(s: &[u8]) -> usize
    ensures { result ≡ lent_length_of s.now }
{
    number_at(s, EXTENT_AT, EXTENT_BYTES) as usize
}

// Where a record's bytes go in the image room. The bytes of `lent_length`: what they say goes by the record's kind.
pub fn offset_of(s: &[u8]) -> usize
    ensures { result ≡ offset_of s.now }
{
    number_at(s, EXTENT_AT, EXTENT_BYTES) as usize
}

// The frame, file, payload, reply, bytes or message of a record.
#[tactic(auto, unfolding(crate::specs::Records::body_of))]
pub fn body_of(kind: Kind, s: &[u8]) -> &[u8]
    ensures { result.now ≡ body_of kind s.now }
{
    front(behind(s, head_of(kind)), size_of(kind, s))
}

// Whether a run is one of the runs.
fn is_run(n: u64) -> bool
    ensures { result ≡ is_run n }
{
    (1..=RUN_COUNT as u64).contains(&n)
}

// Whether an edition is one of the two.
fn is_edition(n: u64) -> bool
    ensures { result ≡ is_edition n }
{
    n <= 1
}

// The edition of a number: 0 is 2.5, 1 is 2.4.
pub fn edition_of(n: u64) -> Edition
    ensures { result ≡ edition_of n }
{
    match n {
        0 => Edition::V25,
        _ => Edition::V24,
    }
}

// Whether there is the edition that a client run's record names, where it names one.
fn has_edition(event: Event, s: &[u8]) -> bool
    ensures { result ≡ has_edition event s.now }
{
    match event {
        Event::Upload => is_edition(number_at(s, EDITION_AT, EDITION_BYTES)),
        Event::Download | Event::Reply | Event::NoReply => true,
    }
}

// Whether a line is one of the lines.
fn is_line(n: u64) -> bool
    ensures { result ≡ is_line n }
{
    (1..=LINE_COUNT as u64).contains(&n)
}

// Whether bytes from a place on are within the image room.
fn in_room(from: usize, n: usize) -> bool
    ensures { result ≡ in_room from n }
{
    from <= ROOM_BYTES && n <= ROOM_BYTES - from
}

// Whether there is what the record names: its run, its edition, its line, and its bytes of the image room.
fn is_within(kind: Kind, s: &[u8]) -> bool
    ensures { result ≡ is_within kind s.now }
{
    match kind {
        Kind::Frame | Kind::File | Kind::ValueDay | Kind::Counts => true,
        Kind::Run(event) => {
            is_run(number_at(s, RUN_NUMBER_AT, RUN_BYTES)) && has_edition(event, s)
        }
        Kind::Journal => is_run(number_at(s, RUN_NUMBER_AT, RUN_BYTES)),
        Kind::Away | Kind::TakeUp => in_room(0, lent_length(s)),
        Kind::Image => in_room(offset_of(s), size_of(kind, s)),
        Kind::MakeLine | Kind::PutIn => is_line(number_at(s, LINE_NUMBER_AT, LINE_BYTES)),
        Kind::NoCall => false,
    }
}

// Whether a record of this kind is not cut short.
#[tactic(auto, unfolding(crate::specs::Records::is_whole, crate::specs::Records::size_of))]
fn is_whole(kind: Kind, s: &[u8]) -> bool
    ensures { result ≡ is_whole kind s.now }
{
    let head = head_of(kind);
    head <= s.len() && size_of(kind, s) <= s.len() - head
}

// The call that the record is.
#[tactic(auto, unfolding(crate::specs::Records::call_of))]
pub fn call_of(s: &[u8]) -> Kind
    ensures { result ≡ call_of s.now }
{
    if s.is_empty() {
        return Kind::NoCall;
    }
    let kind = kind_of(s[0]);
    if is_whole(kind, s) && is_within(kind, s) {
        kind
    } else {
        Kind::NoCall
    }
}

// Whether there is a call.
pub fn is_call(kind: Kind) -> bool
    ensures { result ≡ is_call kind }
{
    !matches!(kind, Kind::NoCall)
}
