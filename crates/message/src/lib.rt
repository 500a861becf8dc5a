// The messages of the practice bank: return codes, order numbers, editions, directions, the numbers that both ends share, and each request
// and reply as the fields of its form.
#![tactic(auto)]

pub mod codes;
pub mod directions;
pub mod editions;
pub mod limits;
pub mod order_numbers;
pub mod replies;
pub mod requests;
pub mod segments;
