// Card 7, value days: dates and day numbers, Easter Sunday, closed days, and the day on which an order is executed.
#![tactic(auto)]

pub mod business_days;
pub mod dates;
pub mod easter;
pub mod value_day;
