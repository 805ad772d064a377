//! Destinations: the functions of a plan whose programs are built and whose patterns are read, ready to run.
//! Stands on event_plans for functions, on event_patterns, and on hog_program for programs.
//! Above, `destinations` makes them of a plan's functions, or answers the first refusal (specs/Destinations.antt).
//! A `Destination` keeps the function that it was made of, and its type that the parts are those of the function.
//! The laws of laws.rt say that a function that is ready has no refusal.
#![tactic(auto)]

pub mod destination;
pub mod functions;
pub mod laws;
pub mod stop;

pub use destination::Destination;
pub use functions::destinations;
pub use stop::DestinationStop;
