// The two editions of the protocol: up to 2.4 the client chose the order number, from 2.5 on the bank gives it.
ghost use Rattle.std.specs.Prelude.{◌≡◌};
ghost use Rattle.message.specs.Editions.{edition_of};

use frame_table::fields::Fields;
use frame_table::table::{Form, RequestForm};

#[derive(Clone, Copy, PartialEq, Eq)]
pub enum Edition {
    V24,
    V25,
}

// The edition of a request, by its form.
pub fn edition_of(q: Fields) -> Edition
    ensures { result ≡ edition_of q }
{
    match q.form() {
        Form::Request(RequestForm::ChosenOpening) => Edition::V24,
        _ => Edition::V25,
    }
}
