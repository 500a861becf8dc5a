// What a frame says but its data: the fields, their names, and fields set one by one.
ghost use Rattle.std.specs.Prelude.{◌≡◌, ◌<◌};
ghost use Rattle.frame_table.specs.Table.{tag_count, has};
ghost use Rattle.frame_table.specs.Names.{no_fields};
ghost use Rattle.frame_table.specs.Names.{phase, subscriber, exchange, order_type, nonce, timestamp, segments};
ghost use Rattle.frame_table.specs.Names.{transaction, segment};
ghost use Rattle.frame_table.specs.Names.{last_mark, receipt_code, return_code, order_number, owner, form, with_tag};
ghost use Rattle.frame_table.specs.Names.{with, with_wide};

use crate::table::{
    EXCHANGE, Form, LAST_MARK, NONCE, ORDER_NUMBER, ORDER_TYPE, OWNER, PHASE, RECEIPT_CODE,
    RETURN_CODE, SEGMENT, SEGMENTS, SUBSCRIBER, TAG_COUNT, TIMESTAMP, TRANSACTION, form_of,
};

// 16 bytes as two numbers: a transaction ID or a nonce.
#[derive(Clone, Copy, PartialEq, Eq)]
pub struct Bits128 {
    pub high: u64,
    pub low: u64,
}

// Which tags stand (bit t for tag t), and their numbers, 64 bits high and 64 low; 0 where a tag is absent, and for
// the data. Two arrays, since the definitions of other crates name the two lists (`read_to` of the frame's reader).
#[derive(Clone, Copy)]
pub struct Fields {
    pub tags: u32,
    pub high: [u64; TAG_COUNT],
    pub low: [u64; TAG_COUNT],
}

// Whether the tag is in the set.
pub fn has(tags: u32, tag: usize) -> bool
    requires { tag < tag_count }
    ensures { result ≡ has tags tag }
{
    (tags >> tag) % 2 == 1
}

// The set with the tag in it: by a sum, as the definition has it, since the bit is not set there.
fn with_tag(tags: u32, tag: usize) -> u32
    requires { tag < tag_count }
    ensures { result ≡ with_tag tag tags }
{
    if has(tags, tag) {
        tags
    } else {
        tags + (1 << tag)
    }
}

impl Fields {
    pub fn none() -> Fields
        ensures { result ≡ no_fields }
    {
        Fields {
            tags: 0,
            high: [0; TAG_COUNT],
            low: [0; TAG_COUNT],
        }
    }

    // In place at each call: a call by itself would first write all the fields out.
    #[inline(always)]
    pub fn form(self) -> Form
        ensures { result ≡ form self }
    {
        form_of(self.tags, self.low[PHASE])
    }

    pub fn phase(self) -> u64
        ensures { result ≡ phase self }
    {
        self.low[PHASE]
    }

    pub fn subscriber(self) -> u64
        ensures { result ≡ subscriber self }
    {
        self.low[SUBSCRIBER]
    }

    pub fn exchange(self) -> u64
        ensures { result ≡ exchange self }
    {
        self.low[EXCHANGE]
    }

    pub fn order_type(self) -> u64
        ensures { result ≡ order_type self }
    {
        self.low[ORDER_TYPE]
    }

    pub fn nonce(self) -> Bits128
        ensures { result ≡ nonce self }
    {
        Bits128 {
            high: self.high[NONCE],
            low: self.low[NONCE],
        }
    }

    pub fn timestamp(self) -> u64
        ensures { result ≡ timestamp self }
    {
        self.low[TIMESTAMP]
    }

    pub fn segments(self) -> u64
        ensures { result ≡ segments self }
    {
        self.low[SEGMENTS]
    }

    pub fn transaction(self) -> Bits128
        ensures { result ≡ transaction self }
    {
        Bits128 {
            high: self.high[TRANSACTION],
            low: self.low[TRANSACTION],
        }
    }

    pub fn segment(self) -> u64
        ensures { result ≡ segment self }
    {
        self.low[SEGMENT]
    }

    pub fn last_mark(self) -> u64
        ensures { result ≡ last_mark self }
    {
        self.low[LAST_MARK]
    }

    pub fn receipt_code(self) -> u64
        ensures { result ≡ receipt_code self }
    {
        self.low[RECEIPT_CODE]
    }

    pub fn return_code(self) -> u64
        ensures { result ≡ return_code self }
    {
        self.low[RETURN_CODE]
    }

    pub fn order_number(self) -> u64
        ensures { result ≡ order_number self }
    {
        self.low[ORDER_NUMBER]
    }

    pub fn owner(self) -> u64
        ensures { result ≡ owner self }
    {
        self.low[OWNER]
    }

    // The fields with this tag, of this number; unchanged where there is no such tag.
    pub fn with(self, tag: usize, value: u64) -> Fields
        ensures { result ≡ with tag value self }
    {
        self.with_wide(
            tag,
            Bits128 {
                high: 0,
                low: value,
            },
        )
    }

    // The same for a number of 16 bytes.
    pub fn with_wide(mut self, tag: usize, value: Bits128) -> Fields
        ensures { result ≡ with_wide tag value self }
    {
        if tag < TAG_COUNT {
            self.tags = with_tag(self.tags, tag);
            self.high[tag] = value.high;
            self.low[tag] = value.low;
        }
        self
    }
}
