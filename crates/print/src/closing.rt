// A closing word, written into a lent output.
ghost use Rattle.std.specs.Prelude.{◌+◌, ◌≤◌, length};
ghost use Rattle.print.specs.Text.{Put};
ghost use Rattle.print.specs.Closing.{closing_text, closing_room};

use crate::name::{ORDER_NAME_ROOM, put_order_name};
use crate::text::put_text;
use client_run::run::Word;
use journal::event::OrderName;

// The most bytes of a closing word: "lodged" with its order.
pub const CLOSING_ROOM: usize = 7 + ORDER_NAME_ROOM;

// Writes a closing word, with the order's name where it is lodged.
pub fn put_closing(output: &mut [u8], at: usize, word: Word, order: OrderName) -> usize
    requires { at + closing_room ≤ length output.old }
    ensures { Put output.old at (closing_text word order) output.new result }
{
    match word {
        Word::Lodged => {
            let a = put_text(output, at, b"lodged ");
            put_order_name(output, a, order)
        }
        Word::NotLodged => put_text(output, at, b"not lodged"),
        Word::Unclear => put_text(output, at, b"unclear"),
        Word::Fetched => put_text(output, at, b"fetched"),
        Word::HeldUnconfirmed => put_text(output, at, b"held, unconfirmed"),
        Word::NotFetched => put_text(output, at, b"not fetched"),
    }
}
