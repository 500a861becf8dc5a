// Writing a frame: all fields are checked before the first byte is written.
ghost use Rattle.std.specs.Prelude.{◌≡◌, true, false, cond, List, [], ◌++◌, ℕ, ◌+◌, ◌*◌, ◌^◌, ◌≤◌, ◌<◌, ltb, eqb};
ghost use Rattle.std.specs.Prelude.{get_or, length};
ghost use Rattle.octets.specs.Bytes.{bytes_of, overwrite};
ghost use Rattle.frame_table.specs.Table.{tag_count, frame_limit, data_tag, width, has, is_form};
ghost use Rattle.frame_row.specs.Row.{spelled, listed, piece};
ghost use Rattle.frame_writer.specs.Writer.{content_of, frame_of, content_fits, field_writable, fields_writable};
ghost use Rattle.frame_writer.specs.Writer.{write_answer};
ghost use Rattle.frame_writer.specs.Writer.{accepted, write_buffer, write_number, written_number};

use frame_row::content::{spelled, well_formed};
use frame_table::fields::{Bits128, Fields, has};
use frame_table::table::{
    Characters, DATA, FRAME_LIMIT, Form, TAG_COUNT, Values, in_range, values_of, width,
};
use number_table::table::WrongLength;
use octets::bytes::{digits, put_field};

const ZERO: Bits128 = Bits128 { high: 0, low: 0 };

// The number of the field.
fn number_of(fields: &Fields, tag: usize) -> Bits128
    requires { tag < tag_count }
    ensures { (result.high ≡ get_or fields.now.high tag 0) × (result.low ≡ get_or fields.now.low tag 0) }
{
    Bits128 {
        high: fields.high[tag],
        low: fields.low[tag],
    }
}

// The content of a field that stands: the data, or the last bytes of its number.
fn content<'a>(tag: usize, bytes: &'a [u8], data: &'a [u8]) -> &'a [u8]
    requires { (tag < tag_count) × (length bytes.now ≡ 16) }
    ensures { (hi lo : ℕ) → bytes.now ≡ bytes_of 8 hi ++ bytes_of 8 lo → lo < 2 ^ 64 → result.now
        ≡ cond (eqb tag data_tag) «data».now (bytes_of (width tag) (hi * 2 ^ 64 + lo)) }
{
    if tag == DATA {
        data
    } else {
        &bytes[16 - width(tag)..]
    }
}

// Whether an absent field has the number 0, and no data is left over.
fn absent_writable(tag: usize, number: Bits128, data: &[u8]) -> bool
    ensures { result ≡ content_fits tag false [] number.high number.low «data».now }
{
    ZERO == number && (tag != DATA || data.is_empty())
}

// Whether the data can be written.
fn data_writable(number: Bits128, data: &[u8]) -> bool
    ensures { result ≡ content_fits data_tag true «data».now number.high number.low «data».now }
{
    ZERO == number && well_formed(DATA, data)
}

// Whether a number has at most w bytes.
fn is_below(x: u64, w: usize) -> bool
    ensures { result ≡ ltb x (256 ^ w) }
{
    8 <= w || x >> (8 * w) == 0
}

// Whether the number has at most w bytes.
fn fits(w: usize, number: Bits128) -> bool
    ensures { result ≡ ltb (number.high * 2 ^ 64 + number.low) (256 ^ w) }
{
    if 8 < w {
        is_below(number.high, w - 8)
    } else {
        number.high == 0 && is_below(number.low, w)
    }
}

// Whether the last w bytes of the number are a text of the characters.
fn number_spelled(characters: Characters, w: usize, number: Bits128) -> bool
    requires { w ≤ 16 }
    ensures { result ≡ spelled characters (bytes_of w (number.high * 2 ^ 64 + number.low)) }
{
    let bytes = digits(number.high, number.low);
    spelled(characters, &bytes[16 - w..])
}

// Whether a number that has no more bytes than the tag is in the value list of the tag.
fn number_listed(tag: usize, number: Bits128) -> bool
    requires { (tag < tag_count) × (tag ≡ data_tag → ⊥) × (number.high * 2 ^ 64 + number.low < 256 ^ width tag) }
    ensures { result ≡ listed tag (bytes_of (width tag) (number.high * 2 ^ 64 + number.low)) }
{
    match values_of(tag) {
        Values::Any => true,
        Values::Range(least, greatest) => in_range(least, greatest, number.low),
        Values::Text(characters) => number_spelled(characters, width(tag), number),
    }
}

// Whether a field that is not the data can be written, whatever the data are.
fn number_writable(tag: usize, number: Bits128) -> bool
    requires { (tag < tag_count) × (tag ≡ data_tag → ⊥) }
    ensures { (d : List ℕ) → result ≡ content_fits tag true
        (bytes_of (width tag) (number.high * 2 ^ 64 + number.low)) number.high number.low d }
{
    fits(width(tag), number) && number_listed(tag, number)
}

// Whether the field can be written: its content reads as its number, and is well-formed where the tag stands.
fn field_writable(fields: &Fields, tag: usize, data: &[u8]) -> bool
    requires { tag < tag_count }
    ensures { result ≡ field_writable tag fields.now «data».now }
{
    let number = number_of(fields, tag);
    if !has(fields.tags, tag) {
        absent_writable(tag, number, data)
    } else if tag == DATA {
        data_writable(number, data)
    } else {
        number_writable(tag, number)
    }
}

// How many bytes the field takes.
fn piece_length(fields: &Fields, tag: usize, data: &[u8]) -> usize
    requires { (tag < tag_count)
        × (has fields.now.tags tag ≡ true → tag ≡ data_tag → length «data».now ≤ frame_limit) }
    ensures { result ≡ length (piece tag (content_of tag fields.now «data».now)) }
{
    if !has(fields.tags, tag) {
        0
    } else if tag != DATA {
        3 + width(tag)
    } else if data.is_empty() {
        0
    } else {
        3 + data.len()
    }
}

// How many bytes the frame has; none where a field cannot be written.
fn frame_length(fields: &Fields, data: &[u8]) -> Option<usize>
    ensures { result ≡ cond (fields_writable tag_count 0 fields.now «data».now)
        (Some (length (frame_of fields.now «data».now))) None }
{
    let mut length = 0;
    for tag in 0..TAG_COUNT {
        if !field_writable(fields, tag, data) {
            return None;
        }
        length += piece_length(fields, tag, data);
    }
    Some(length)
}

// Writes the field into out from a place on; the place behind it.
fn put(out: &mut [u8], at: usize, fields: &Fields, tag: usize, data: &[u8]) -> usize
    requires { (tag < tag_count) × (length (content_of tag fields.now «data».now) < 65536)
        × (at + length (piece tag (content_of tag fields.now «data».now)) ≤ length out.old) }
    ensures { (result ≡ at + length (piece tag (content_of tag fields.now «data».now)))
        × (out.new ≡ overwrite out.old at (piece tag (content_of tag fields.now «data».now))) }
{
    if !has(fields.tags, tag) {
        return at;
    }
    let bytes = digits(fields.high[tag], fields.low[tag]);
    let c = content(tag, &bytes, data);
    let n = c.len();
    if n == 0 {
        return at;
    }
    put_field(out, at, tag as u8, c);
    at + 3 + n
}

fn is_form(form: Form) -> bool
    ensures { result ≡ is_form form }
{
    matches!(form, Form::Request(_) | Form::Reply(_))
}

// Writes the frame that says these fields with this data, which the writer accepts, into the front of out; its length.
pub fn write_accepted(fields: Fields, data: &[u8], out: &mut [u8]) -> usize
    requires { accepted fields «data».now out.old ≡ true }
    ensures { (result ≡ length (frame_of fields «data».now))
        × (out.new ≡ overwrite out.old 0 (frame_of fields «data».now)) }
{
    let mut at = 0;
    for tag in 0..TAG_COUNT {
        at = put(out, at, &fields, tag, data);
    }
    at
}

// Writes the frame that says these fields with this data into the front of out, where the writer accepts them.
pub fn write(fields: Fields, data: &[u8], out: &mut [u8]) -> Result<usize, WrongLength>
    ensures { (result ≡ write_answer fields «data».now out.old)
        × (out.new ≡ write_buffer fields «data».now out.old)
        × (written_number result ≡ write_number fields «data».now out.old) }
{
    if !is_form(fields.form()) {
        return Err(WrongLength);
    }
    let Some(n) = frame_length(&fields, data) else {
        return Err(WrongLength);
    };
    if FRAME_LIMIT < n {
        return Err(WrongLength);
    }
    if out.len() < n {
        return Err(WrongLength);
    }
    Ok(write_accepted(fields, data, out))
}
