// The content of a field: the bytes that the table of fields lists for its tag.
ghost use Rattle.std.specs.Prelude.{◌≡◌, ◌<◌, length};
ghost use Rattle.frame_table.specs.Table.{tag_count, width};
ghost use Rattle.frame_row.specs.Row.{spelled, listed, well_formed};

use frame_table::table::{Characters, FRAME_LIMIT, Values, allowed, in_range, values_of, width};
use octets::bytes::number;

// Whether each byte of the text is one of the characters.
pub fn spelled(characters: Characters, text: &[u8]) -> bool
    ensures { result ≡ spelled characters text.now }
{
    text.iter().all(|b| allowed(characters, *b))
}

// Whether the content is in the value list of the tag.
fn listed(tag: usize, content: &[u8]) -> bool
    requires { (tag < tag_count) × ((width tag ≡ 0 → ⊥) → length content.now ≡ width tag) }
    ensures { result ≡ listed tag content.now }
{
    match values_of(tag) {
        Values::Any => true,
        Values::Range(least, greatest) => in_range(least, greatest, number(content)),
        Values::Text(characters) => spelled(characters, content),
    }
}

// Whether this can be the content of a field with this tag.
#[tactic(auto, unfolding(crate::specs::Row::well_formed))]
pub fn well_formed(tag: usize, content: &[u8]) -> bool
    requires { tag < tag_count }
    ensures { result ≡ well_formed tag content.now }
{
    let n = content.len();
    let w = width(tag);
    n <= FRAME_LIMIT && n != 0 && (w == 0 || n == w) && listed(tag, content)
}
