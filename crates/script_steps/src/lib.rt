//! Plays of scripts on a queue: what each step does, under leases that may be lost or forged, and the lines of all steps.
//! Stands on script_reader for scripts, on hog_worker and hog_jobs for slices of work, and on cyclotron_core and those below.
//! Above, `play` gives the queue at the end of a script and its lines (`Plays` of specs/Plays.antt). Each queue over `HogCourse`
//! keeps the meaning of its jobs (`keeps_the_meaning`), and specs/Headline.antt says what a flush does under a lock that is
//! live, and under one that isn't.
#![tactic(auto)]

pub mod laws;
mod lines;
pub mod player;
pub mod said;
mod steps;
pub mod stop;

pub use player::{Played, play};
pub use said::{Held, Product, Said};
pub use stop::PlayStop;
