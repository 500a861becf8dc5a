// The name of an order, written into a lent output.
ghost use Rattle.std.specs.Prelude.{◌+◌, ◌≤◌, length};
ghost use Rattle.print.specs.Text.{Put};
ghost use Rattle.print.specs.Name.{order_name_text, order_name_room};

use crate::text::{put_column, put_order_number, put_type};
use journal::event::OrderName;

// The most bytes of an order's name.
pub const ORDER_NAME_ROOM: usize = 21 + 4 + 4;

// Writes what names an order: subscriber, type and number.
pub fn put_order_name(output: &mut [u8], at: usize, order: OrderName) -> usize
    requires { at + order_name_room ≤ length output.old }
    ensures { Put output.old at (order_name_text order) output.new result }
{
    let a = put_column(output, at, order.subscriber, b' ');
    let b = put_type(output, a, order.order_type);
    put_order_number(output, b, order.number)
}
