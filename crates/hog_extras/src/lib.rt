//! Civil dates as texts and as day numbers, for the natives on dates.
//! Stands on hog_value, and on jiff's calendar.
//! Above, contracts see a day as a whole number, 0 for 1970-01-01, and use the three definitions of
//! `specs/Dates.antt`: the day of a text, the text of a day, and the day of the week.
//! The years are 0000 to 9999; only want of memory is refused, and everything else is answered by None.
#![tactic(auto)]

pub mod dates;

pub use dates::{date_text, reads_date, weekday};
