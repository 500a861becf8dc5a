// Reading a frame: tag by tag, each field from where the one before it ended.
ghost use Rattle.std.specs.Prelude.{◌≡◌, cond, ◌&&◌, ◌⊎◌, ◌+◌, ◌-◌, ◌^◌, ◌≤◌, ◌<◌, length, leb, eqb};
ghost use Rattle.frame_table.specs.Table.{tag_count, frame_limit, width};
ghost use Rattle.frame_row.specs.Row.{field_size, high_of, low_of, data_of, DataAt};
ghost use Rattle.frame_reader.specs.Reader.{FieldRead, parse, read_request, read_reply};
ghost use Rattle.frame_table.specs.Names.{no_fields};

use frame_row::content::well_formed;
use frame_table::fields::{Bits128, Fields};
use frame_table::table;
use frame_table::table::{FRAME_LIMIT, is_reply_form, is_request_form, width};
use octets::bytes::leading;

// What a frame says, and where its data stand in it: from a place on to the end.
#[derive(Clone, Copy)]
pub struct Parsed {
    pub fields: Fields,
    pub from: usize,
    pub end: usize,
}

// How many bytes the field with this tag takes at the front of rest; 0 and no None where no such field stands there, as
// the definition of that name has it.
fn field_size(rest: &[u8], tag: usize) -> usize
    requires { tag < tag_count }
    ensures { result ≡ field_size tag rest.now }
{
    if rest.len() < 3 + width(tag) {
        return 0;
    }
    if usize::from(rest[0]) != tag {
        return 0;
    }
    let n = 3 + usize::from(rest[1]) * 256 + usize::from(rest[2]);
    if rest.len() < n {
        return 0;
    }
    if well_formed(tag, &rest[3..n]) { n } else { 0 }
}

// The number that the content of the field stands for, as long as the table says. Data, which have no length there, are
// no number.
fn value(tag: usize, content: &[u8]) -> Bits128
    requires { (tag < tag_count) × ((width tag ≡ 0 → ⊥) → length content.now ≡ width tag) }
    ensures { (result.high ≡ high_of tag content.now) × (result.low ≡ low_of tag content.now) }
{
    let n = width(tag);
    let k = n.saturating_sub(8);
    Bits128 {
        high: leading(content, k),
        low: leading(&content[k..], n - k),
    }
}

// Reads the field with this tag where it stands at the front of rest, and goes on to what stands behind it.
fn read_field<'a>(rest: &'a [u8], tag: usize, fields: &mut Fields) -> &'a [u8]
    requires { (tag < tag_count) × (fields.old.tags < 2 ^ tag) }
    ensures { FieldRead tag rest.now fields.old fields.new result.now }
{
    let n = field_size(rest, tag);
    if n == 0 {
        return rest;
    }
    let v = value(tag, &rest[3..n]);
    fields.tags += 1 << tag;
    fields.high[tag] = v.high;
    fields.low[tag] = v.low;
    &rest[n..]
}

// Where the content begins of a field that stands from a place on to the end; the end where no field stands there.
fn content_at(at: usize, end: usize) -> usize
    requires { (at ≡ end) ⊎ (at + 3 ≤ end) }
    ensures { result ≡ end - (end - at - 3) }
{
    if at == end { end } else { at + 3 }
}

// The fields where a test on them holds, else no fields.
fn fields_if(test: bool, fields: Fields) -> Fields
    ensures { result ≡ cond test fields no_fields }
{
    if test { fields } else { Fields::none() }
}

// Whether a frame of n bytes is not too long, and none are left over.
fn is_whole(n: usize, left: usize) -> bool
    ensures { result ≡ (leb n frame_limit && eqb left 0) }
{
    n <= FRAME_LIMIT && left == 0
}

// What the frame says, no fields where it is no row of fields as the table has them, and where its data stand. The tags
// are constants, one after the other, so that the compiler makes a reader of its own for each.
fn parse(frame: &[u8]) -> Parsed
    ensures { (result.fields ≡ parse frame.now) × DataAt frame.now result.from result.end }
{
    let mut fields = Fields::none();
    let rest = read_field(frame, table::PHASE, &mut fields);
    let rest = read_field(rest, table::SUBSCRIBER, &mut fields);
    let rest = read_field(rest, table::EXCHANGE, &mut fields);
    let rest = read_field(rest, table::ORDER_TYPE, &mut fields);
    let rest = read_field(rest, table::NONCE, &mut fields);
    let rest = read_field(rest, table::TIMESTAMP, &mut fields);
    let rest = read_field(rest, table::SEGMENTS, &mut fields);
    let rest = read_field(rest, table::TRANSACTION, &mut fields);
    let rest = read_field(rest, table::SEGMENT, &mut fields);
    let rest = read_field(rest, table::LAST_MARK, &mut fields);
    let at = frame.len() - rest.len();
    let rest = read_field(rest, table::DATA, &mut fields);
    let end = frame.len() - rest.len();
    let rest = read_field(rest, table::RECEIPT_CODE, &mut fields);
    let rest = read_field(rest, table::RETURN_CODE, &mut fields);
    let rest = read_field(rest, table::ORDER_NUMBER, &mut fields);
    let rest = read_field(rest, table::ORDER_ATTRIBUTE, &mut fields);
    let rest = read_field(rest, table::OWNER, &mut fields);
    let rest = read_field(rest, table::VERSION, &mut fields);
    Parsed {
        fields: fields_if(is_whole(frame.len(), rest.len()), fields),
        from: content_at(at, end),
        end,
    }
}

// What a request says, and where its data stand; no fields where the frame is of no request form.
pub fn read_whole_request(frame: &[u8]) -> Parsed
    ensures { (result.fields ≡ read_request frame.now) × DataAt frame.now result.from result.end }
{
    let p = parse(frame);
    Parsed {
        fields: fields_if(is_request_form(p.fields.form()), p.fields),
        ..p
    }
}

// What a request says; no fields where the frame is of no request form.
pub fn read_request(frame: &[u8]) -> Fields
    ensures { result ≡ read_request frame.now }
{
    read_whole_request(frame).fields
}

// What a reply says; no fields where the frame is of no reply form.
pub fn read_reply(frame: &[u8]) -> Fields
    ensures { result ≡ read_reply frame.now }
{
    let fields = parse(frame).fields;
    fields_if(is_reply_form(fields.form()), fields)
}

// The content of the data field, by its place: that part of the frame itself.
pub fn data_at(frame: &[u8], from: usize, end: usize) -> &[u8]
    requires { DataAt frame.now from end }
    ensures { result.now ≡ data_of frame.now }
{
    &frame[from..end]
}

// The content of the data field: that part of the frame itself.
pub fn data(frame: &[u8]) -> &[u8]
    ensures { result.now ≡ data_of frame.now }
{
    let p = parse(frame);
    data_at(frame, p.from, p.end)
}
