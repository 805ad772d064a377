//! Clocks, which show moments in milliseconds, and let time pass.
//! Stands on no crate of the repository.
//! Above, `Clock` is used: each moment that it shows is one that a clock of its type may show.
//! `ListClock` shows the moments of a list, `MachineClock` those of the machine. Of two readings together
//! nothing is known.
#![tactic(auto)]

pub mod clock;
pub mod listed;
pub mod machine;

pub use clock::Clock;
pub use listed::ListClock;
pub use machine::MachineClock;
