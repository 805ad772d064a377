//! Saved states: the text of a machine, and the machine of a text.
//! Stands on vm_operations (the machine), vm_frames (its parts), state_forms (their JSON forms) and serde_json.
//! specs/Layout.antt says how a machine is written and read, Tests.antt which of what was read is a state, Text.antt what
//! loading gives, and Laws.antt how saving and loading undo one another.
//! Above, `load` gives exactly `load_of`, and `save` the text in the second format.
#![tactic(auto)]

mod belonging;
mod building;
pub mod laws;
pub mod parts;
mod reading;
pub mod saved;
mod standing;
pub mod stop;
mod writing;

pub use saved::{load, save};
pub use stop::StateStop;
