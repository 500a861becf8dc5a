// What a frame can say: the table of fields, the table of forms, and the fields of a frame by name.
#![tactic(auto)]

pub mod fields;
pub mod table;
