//! Plans of events and destinations as JSON: what they hold, up to the building of programs.
//! Stands on hog_value, hog_json and cyclotron_jobs for texts and replies, and on the kit's serde_json and uuid.
//! Above, `Draft::read` gives a `Draft`, the events and functions of a plan, or the first refusal (specs/Draft.antt);
//! each `Event` and `Function` keeps what its JSON value says of it (specs/Event.antt, specs/Function.antt).
//! `globals_value` and `globals_size` give the globals of a function for an event, and how long their text is.
#![tactic(auto)]

pub mod draft;
pub mod event;
pub mod function;
pub mod globals;
pub mod laws;
mod member;
pub mod stop;

pub use draft::Draft;
pub use event::Event;
pub use function::Function;
pub use globals::{globals_size, globals_value};
pub use stop::DraftStop;

#[cfg(test)]
mod tests;
